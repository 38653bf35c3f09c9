ghost use Rattle.std.specs.Prelude.{◌≡◌};
ghost use Rattle.hir.specs.Scratches.{tables};
ghost use Rattle.walk.specs.Events.{Whole, whole, Event, entering, leaving};
ghost use Rattle.reactive.specs.declared.row.RowHead.{RowHead as Head};

use hir::environment::Environment;
use hir::scratch::Scratch;
use reactive::given::GivenRow;
use reactive::row::RowHead;
use reactive::source::TreeSource;

// A pass over a tree.
pub trait Visitor {
    // What it keeps of an open row: no more than it asks for, since a walk puts it on a stack for each row.
    type Kept: Copy + Default;

    // what it keeps of a row
    ghost keeps: { Head → Self.Kept };

    // what an event needs
    ghost can: { Whole Self → Event Self.Kept → Type 0 };

    // what an event leaves
    ghost after: { Whole Self → Event Self.Kept → Whole Self };

    // What is kept of a row.
    fn keep(row: &RowHead) -> Self::Kept
        ensures { result ≡ keeps row.now };

    // A row is entered, within its parent.
    fn enter<S: TreeSource>(
        &mut self,
        env: &mut Environment,
        scratch: &mut Scratch,
        parent: Option<Self::Kept>,
        row: &GivenRow<S>,
    )
        requires { can (whole self.old (tables env.old scratch.old)) (entering parent row.now) }
        ensures { whole self.new (tables env.new scratch.new) ≡ after (whole self.old (tables env.old scratch.old)) (entering parent row.now) };

    // A row is left, after all rows within it.
    fn leave(&mut self, env: &mut Environment, scratch: &mut Scratch, kept: Self::Kept)
        requires { can (whole self.old (tables env.old scratch.old)) (leaving kept) }
        ensures { whole self.new (tables env.new scratch.new) ≡ after (whole self.old (tables env.old scratch.old)) (leaving kept) };
}
