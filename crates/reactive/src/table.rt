ghost use Rattle.std.specs.Prelude.{◌≡◌};
ghost use Rattle.std.specs.List.{slice_get};
ghost use Rattle.std.specs.Option.{option_map};
ghost use Rattle.hir.specs.Spans.{identifiers_in};
ghost use Rattle.reactive.specs.Tables.{table_reading, table_source, table_head, before};

use crate::row::{Number, RowHead};
use crate::source::TreeSource;
use hir::ids::IdentifierId;
use hir::span::Span;

// A row whose lists are spans of a pool. Its bytes are unchecked, as in `RowHead`.
// The three bytes stand together: in the order of `RowHead` a row takes 48 bytes and not 44.
// No generic row for both: one with spans does not become one with lengths but field by field.
#[derive(Clone, Copy, Default)]
pub struct RowEntry {
    pub depth: u32,
    pub code: u8,
    pub kind: u8,
    pub mode: u8,
    pub identifier: Option<IdentifierId>,
    pub number: Option<Number>,
    pub operands: Span,
    pub marks: Span,
}

impl RowEntry {
    // The row without its lists.
    fn head(&self, pool: &[u32]) -> RowHead
        ensures { result ≡ table_head pool.now self.now }
    {
        RowHead {
            depth: self.depth,
            code: self.code,
            identifier: self.identifier,
            number: self.number,
            kind: self.kind,
            mode: self.mode,
            operands: self.operands.of(pool).len(),
            marks: self.marks.of(pool).len(),
        }
    }
}

// Identifier i of a list of the pool, by its place in the pool: `Span::of` would cut the list at the pool's end each time.
#[tactic(auto, using(crate::proofs::Places::in_list, crate::proofs::Places::beyond_list))]
fn identifier_at(pool: &[u32], span: Span, i: usize) -> Option<IdentifierId>
    ensures { result ≡ slice_get (identifiers_in pool.now span) i }
{
    if i >= span.count as usize {
        return None;
    }
    pool.get(span.start as usize + i).map(|n| IdentifierId(*n))
}

// A table of rows whose lists are spans of a pool, cut at the pool's end.
// The position is a number and no iterator, since the row before it is asked for, and a rewound source begins again.
#[derive(Drop)]
pub struct TableSource<'a> {
    pub rows: &'a [RowEntry],
    pub pool: &'a [u32],
    pub position: usize,
}

impl<'a> TableSource<'a> {
    // The table from its first row on.
    pub fn new(rows: &'a [RowEntry], pool: &'a [u32]) -> TableSource<'a>
        ensures { table_source result ≡ table_reading rows.now pool.now 0 }
    {
        TableSource {
            rows,
            pool,
            position: 0,
        }
    }

    // The row last given.
    fn given(&self) -> Option<&'a RowEntry>
        ensures { option_map (λ e. e.now) result ≡ before self.now.rows.now self.now.position }
    {
        self.rows.get(self.position.checked_sub(1)?)
    }
}

impl<'a> TreeSource for TableSource<'a> {
    ghost reading = { table_source };

    fn rewind(&mut self) {
        self.position = 0;
    }

    fn next(&mut self) -> Option<RowHead> {
        let entry = self.rows.get(self.position)?;
        self.position += 1;
        Some(entry.head(self.pool))
    }

    fn operand(&self, i: usize) -> Option<IdentifierId> {
        identifier_at(self.pool, self.given()?.operands, i)
    }

    fn mark(&self, i: usize) -> Option<IdentifierId> {
        identifier_at(self.pool, self.given()?.marks, i)
    }
}
