ghost use Rattle.std.specs.Prelude.{◌≡◌, ℕ};
ghost use Rattle.reactive.specs.Rows.{Reading, rewound, upcoming, advanced, operand_at, mark_at};

use crate::row::RowHead;
use hir::ids::IdentifierId;

// A fixed list of rows, given one by one, and the lists of the row last given.
// Operand i and mark i are two questions: a rule of this project, since these four are what a source elsewhere answers.
pub trait TreeSource {
    ghost reading: { Self → Reading };

    fn rewind(&mut self)
        ensures { reading self.new ≡ rewound (reading self.old) };

    fn next(&mut self) -> Option<RowHead>
        ensures value { result ≡ upcoming (reading self.old) }
        ensures after { reading self.new ≡ advanced (reading self.old) };

    fn operand(&self, i: usize) -> Option<IdentifierId>
        ensures { result ≡ operand_at (reading self.now) i };

    fn mark(&self, i: usize) -> Option<IdentifierId>
        ensures { result ≡ mark_at (reading self.now) i };
}
