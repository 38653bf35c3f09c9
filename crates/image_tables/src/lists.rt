// Lists and identifier rows of an image, behind what is there already.
ghost use Rattle.std.specs.Prelude.{◌≡◌, ℕ, ◌+◌, ◌*◌, ◌/◌, ◌^◌, ◌<◌, ◌≤◌, true, ◌++◌, map, length, is_ok, IfOk, vec_len, OnOk};
ghost use Rattle.image.specs.Bytes.{Place, see};
ghost use Rattle.image.specs.Steps.{see_numbers, numbers_at};
ghost use Rattle.image_check.specs.Steps.{identifiers_of, lists_end};
ghost use Rattle.image_tables.specs.Tables.{identifier_row, AddedList, AddedLists};

use hir::ids::DeclarationId;
use hir::span::Span;
use hir::tables::Identifier;
use image::cursor::Cursor;
use image::fields::Numbers;
use std::alloc::AllocError;

// Puts the numbers of a list behind the pool's.
fn add_numbers<'a>(pool: &mut Vec<u32>, list: Numbers<'a>) -> Result<(), AllocError>
    ensures { OnOk result (pool.new.items ≡ pool.old.items ++ see_numbers list.entry) }
{
    for word in list.words {
        pool.push(u32::from_be_bytes(*word))?;
    }
    Ok(())
}

// Puts the identifier rows of a section behind the table's.
pub fn add_identifiers(identifiers: &mut Vec<Identifier>, content: &[u8]) -> Result<(), AllocError>
    ensures { OnOk result (map identifier_row identifiers.new.items ≡ map identifier_row identifiers.old.items ++ identifiers_of (length content.now / 5) content.now) }
{
    let (rows, _) = content.as_chunks::<5>();
    for [a, b, c, d, tag] in rows {
        identifiers.push(Identifier {
            declaration: DeclarationId(u32::from_be_bytes([*a, *b, *c, *d])),
            tag: *tag,
        })?;
    }
    Ok(())
}

// Puts the list at a cursor behind the pool's numbers: its span, and what follows it. The list was checked.
// `reads` and `room` stay clauses: they are of one cursor, and of the pool and the bytes together, so that a struct would ask for them where it is made.
pub fn add_list<'a>(
    pool: &mut Vec<u32>,
    cursor: Cursor<'a>,
) -> Result<(Span, Cursor<'a>), AllocError>
    requires reads { is_ok (numbers_at (see cursor)) ≡ true }
    requires room { 4 * vec_len pool.old + length cursor.rest.now < 2 ^ 32 }
    ensures added { IfOk result (λ w. AddedList pool.old.items (see cursor.entry) w.0 (see w.1) pool.new.items) }
    ensures room { IfOk result (λ w. 4 * vec_len pool.new + length w.1.rest.now < 2 ^ 32) }
{
    let Ok((list, rest)) = cursor.read_numbers() else {
        unreachable!()
    };
    let span = Span {
        start: pool.len() as u32,
        count: list.len() as u32,
    };
    add_numbers(pool, list)?;
    Ok((span, rest))
}

// Puts the lists of a section behind the pool's numbers: their spans. The lists were checked.
#[tactic(auto, using(crate::proofs::Spans::next_reads))]
pub fn add_lists<const N: usize>(
    pool: &mut Vec<u32>,
    content: &[u8],
) -> Result<[Span; N], AllocError>
    requires reads { is_ok (lists_end N (0, content.now)) ≡ true }
    requires room { 4 * vec_len pool.old + length content.now < 2 ^ 32 }
    ensures { IfOk result (λ s. (q : Place) × AddedLists pool.old.items (0, content.now) s q pool.new.items) }
{
    let mut spans = [Span::default(); N];
    let mut rest = Cursor::new(content);
    for span in spans.iter_mut() {
        (*span, rest) = add_list(pool, rest)?;
    }
    Ok(spans)
}
