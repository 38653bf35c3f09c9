ghost use Rattle.std.specs.Prelude.{◌≡◌, ◌≤◌, [], length, take, reverse};
ghost use Rattle.hir.specs.Lists.{Each};
ghost use Rattle.std.specs.List.{fold};
ghost use Rattle.hir.specs.Scratches.{tables};
ghost use Rattle.reactive.specs.Rows.{Reading, rewound};
ghost use Rattle.walk.specs.Events.{whole, events, closing, Allowed, Shallow};

use crate::visitor::Visitor;
use fixed_stack::FixedStack;
use hir::environment::Environment;
use hir::scratch::Scratch;
use hir::span::MOST_OPEN;
use reactive::given::GivenRow;
use reactive::source::TreeSource;

// Leaves the open rows from a depth on, innermost first: in this order `pop` takes them, which a drain would have to turn.
fn close<V: Visitor>(
    opened: &mut FixedStack<V::Kept, MOST_OPEN>,
    depth: usize,
    visitor: &mut V,
    env: &mut Environment,
    scratch: &mut Scratch,
)
    requires { Allowed V.Visitor.can V.Visitor.after (whole visitor.old (tables env.old scratch.old)) (closing depth (reverse opened.old)) }
    ensures rows { opened.new ≡ take depth opened.old }
    ensures after { whole visitor.new (tables env.new scratch.new) ≡ fold V.Visitor.after (whole visitor.old (tables env.old scratch.old)) (closing depth (reverse opened.old)) }
{
    while opened.len() > depth {
        if let Some(kept) = opened.pop() {
            visitor.leave(env, scratch, kept);
        }
    }
}

// Enters each row in order, and leaves it after the rows within it.
// The stack is lent, and emptied first: the type of what is kept is not known here, so that nothing shows that a new stack fits into memory.
pub fn walk<S: TreeSource, V: Visitor>(
    source: &mut S,
    visitor: &mut V,
    opened: &mut FixedStack<V::Kept, MOST_OPEN>,
    env: &mut Environment,
    scratch: &mut Scratch,
)
    requires shallow { Each Shallow (S.TreeSource.reading source.old).rows }
    requires allowed { Allowed V.Visitor.can V.Visitor.after (whole visitor.old (tables env.old scratch.old)) (events V.Visitor.keeps [] (S.TreeSource.reading source.old).rows) }
    ensures after { whole visitor.new (tables env.new scratch.new) ≡ fold V.Visitor.after (whole visitor.old (tables env.old scratch.old)) (events V.Visitor.keeps [] (S.TreeSource.reading source.old).rows) }
    ensures source { S.TreeSource.reading source.new ≡ rewound (S.TreeSource.reading source.old) }
{
    opened.truncate(0);
    source.rewind();
    while let Some(row) = source.next() {
        close(opened, row.depth as usize, visitor, env, scratch);
        let parent = opened.last().copied();
        opened.push(V::keep(&row));
        visitor.enter(env, scratch, parent, &GivenRow::new(row, source));
    }
    close(opened, 0, visitor, env, scratch);
    source.rewind();
}
