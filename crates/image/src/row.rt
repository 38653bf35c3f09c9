// Layer 3: rows within rows, at most 128 of them open.
ghost use Rattle.std.specs.Prelude.{◌≡◌, ℕ, ◌+◌, ◌≤◌, length, IfOk};
ghost use Rattle.image.specs.Bytes.{see};
ghost use Rattle.image.specs.Steps.{Is, see_fields, head_at, many_at, row_at, ended, passed};

use crate::cursor::Cursor;
use crate::fault::{RowFault, SectionFault};
use crate::fields::RowFields;

impl<'a> Cursor<'a> {
    // A row without the rows within it, these, and what follows the row.
    pub fn read_head(self) -> Result<(RowFields<'a>, Cursor<'a>, Cursor<'a>), SectionFault>
        ensures is { Is (λ v. (see_fields v.0, see v.1, see v.2)) result (head_at (see self.entry)) }
        ensures shorter { IfOk result (λ v. length v.2.rest.now + 4 ≤ length self.entry.rest.now) }
    {
        let (body, after) = self.read_part()?;
        let (fields, children) = body.read_fields()?;
        Ok((fields, children, after))
    }
}

// A row, where `left` more may be open: what follows it.
#[cycle(check_row_check_rows)]
#[tactic(auto, using(crate::proofs::Turns::row_deep))]
pub fn check_row<'a>(cursor: Cursor<'a>, left: u8) -> Result<Cursor<'a>, RowFault>
    ensures is { Is see result (ended (row_at left (see cursor.entry))) }
    ensures shorter { IfOk result (λ v. length v.rest.now + 4 ≤ length cursor.entry.rest.now) }
{
    if left == 0 {
        return Err(RowFault::Deep(cursor.at));
    }
    let (_, children, after) = cursor.read_head()?;
    check_rows(children, left - 1)?;
    Ok(after)
}

// Rows to the end of their holder, each with `left` more that may be open.
#[cycle(check_row_check_rows)]
#[tactic(auto, using(crate::proofs::Turns::turn))]
pub fn check_rows<'a>(cursor: Cursor<'a>, left: u8) -> Result<(), RowFault>
    ensures { Is (λ v. v) result (passed (many_at (row_at left) (see cursor.entry))) }
{
    let mut rest = cursor;
    while !rest.is_empty() {
        rest = check_row(rest, left)?;
    }
    Ok(())
}
