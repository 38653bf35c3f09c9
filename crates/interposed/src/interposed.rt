ghost use Rattle.std.specs.Prelude.{◌≡◌, map};
ghost use Rattle.hir.specs.Lists.{Each};
ghost use Rattle.std.specs.List.{fold};
ghost use Rattle.hir.specs.Scratches.{tables};
ghost use Rattle.hir.specs.Spans.{identifiers_in};
ghost use Rattle.reactive.specs.Rows.{Reading, rewound};
ghost use Rattle.walk.specs.Events.{whole, acting, Shallow, entering};
ghost use Rattle.interposed.specs.Acts.{Act, uses, fixes, does, Ready};
ghost use Rattle.interposed.specs.Interposed.{fix_acts, mark_acts, value_acts, end_acts, leaf_acts, keeps, acts, Readies, begun, pass_acts, promote_interposed};

use crate::acts::PromoteInterposed;
use crate::kinds::{fixes_marks, is_barrier, is_global_load, is_load, is_property_load, may_raise};
use fixed_stack::FixedStack;
use hir::environment::Environment;
use hir::ids::IdentifierId;
use hir::scratch::Scratch;
use hir::span::Span;
use reactive::code::Code;
use reactive::given::GivenRow;
use reactive::row::RowHead;
use reactive::source::TreeSource;
use walk::visitor::Visitor;
use walk::walking::walk;

impl PromoteInterposed {
    // The marks of a row become constant. Every pass loops over lists itself: a rule of this project.
    fn fix_marks<S: TreeSource>(&self, env: &Environment, scratch: &mut Scratch, row: &GivenRow<S>)
        requires { Ready (whole self.now (tables env.now scratch.old)) (map fixes row.now.marks) }
        ensures { whole self.now (tables env.now scratch.new) ≡ fold does (whole self.now (tables env.now scratch.old)) (map fixes row.now.marks) }
    {
        for id in row.marks() {
            self.fix(env, scratch, id);
        }
    }

    // The operands of a row are used, in their order. Every pass loops over them itself: a rule of this project.
    fn use_operands<S: TreeSource>(
        &self,
        env: &mut Environment,
        scratch: &mut Scratch,
        row: &GivenRow<S>,
    )
        requires { Ready (whole self.now (tables env.old scratch.old)) (map uses row.now.operands) }
        ensures { whole self.now (tables env.new scratch.new) ≡ fold does (whole self.now (tables env.old scratch.old)) (map uses row.now.operands) }
    {
        for id in row.operands() {
            self.use_place(env, scratch, id);
        }
    }

    // What the kind does before its uses to the marks.
    fn begin_leaf<S: TreeSource>(&self, env: &Environment, scratch: &mut Scratch, row: &GivenRow<S>)
        requires { Ready (whole self.now (tables env.now scratch.old)) (fix_acts row.now.kind row.now.mode row.now.marks) }
        ensures { whole self.now (tables env.now scratch.new) ≡ fold does (whole self.now (tables env.now scratch.old)) (fix_acts row.now.kind row.now.mode row.now.marks) }
    {
        let head = row.head();
        if fixes_marks(head.kind, head.mode) {
            self.fix_marks(env, scratch, row);
        }
    }

    // A load or a property load acts on the lvalue.
    fn load_mark(
        &self,
        env: &Environment,
        scratch: &mut Scratch,
        lvalue: IdentifierId,
        row: &RowHead,
        mark: IdentifierId,
    )
        requires { Ready (whole self.now (tables env.now scratch.old)) (mark_acts row.now.kind lvalue mark) }
        ensures { whole self.now (tables env.now scratch.new) ≡ fold does (whole self.now (tables env.now scratch.old)) (mark_acts row.now.kind lvalue mark) }
    {
        if is_load(row.kind) {
            self.load(env, scratch, lvalue, mark);
        } else if is_property_load(row.kind) {
            self.load_property(env, scratch, lvalue, mark);
        }
    }

    // What the kind does before its uses to the lvalue, which is of another row: the Instruction around the Leaf.
    fn load_value<S: TreeSource>(
        &self,
        env: &Environment,
        scratch: &mut Scratch,
        lvalue: Option<IdentifierId>,
        row: &GivenRow<S>,
    )
        requires { Ready (whole self.now (tables env.now scratch.old)) (value_acts row.now.kind lvalue row.now.marks) }
        ensures { whole self.now (tables env.now scratch.new) ≡ fold does (whole self.now (tables env.now scratch.old)) (value_acts row.now.kind lvalue row.now.marks) }
    {
        let Some(l) = lvalue else {
            return;
        };
        let head = row.head();
        if is_global_load(head.kind) {
            self.load_global(env, scratch, l);
        } else if let Some(mark) = row.marks().next() {
            self.load_mark(env, scratch, l, head, mark);
        }
    }

    // What the kind does after its uses: the barrier, and then the tracking of the lvalue.
    fn end_leaf<S: TreeSource>(
        &mut self,
        env: &Environment,
        scratch: &mut Scratch,
        lvalue: Option<IdentifierId>,
        row: &GivenRow<S>,
    )
        requires { Ready (whole self.old (tables env.now scratch.old)) (end_acts row.now.kind row.now.mode lvalue) }
        ensures { whole self.new (tables env.now scratch.new) ≡ fold does (whole self.old (tables env.now scratch.old)) (end_acts row.now.kind row.now.mode lvalue) }
    {
        let head = row.head();
        if !is_barrier(head.kind) {
            return;
        }
        if may_raise(head.kind, head.mode) {
            self.raise(env, scratch, lvalue);
        }
        if let Some(l) = lvalue {
            self.track(env, scratch, l);
        }
    }

    // A Leaf directly under an Instruction with this lvalue.
    fn promote_interposed_instruction<S: TreeSource>(
        &mut self,
        env: &mut Environment,
        scratch: &mut Scratch,
        lvalue: Option<IdentifierId>,
        row: &GivenRow<S>,
    )
        requires { Ready (whole self.old (tables env.old scratch.old)) (leaf_acts lvalue row.now.kind row.now.mode row.now.marks row.now.operands) }
        ensures { whole self.new (tables env.new scratch.new) ≡ fold does (whole self.old (tables env.old scratch.old)) (leaf_acts lvalue row.now.kind row.now.mode row.now.marks row.now.operands) }
    {
        self.begin_leaf(env, scratch, row);
        self.load_value(env, scratch, lvalue, row);
        self.use_operands(env, scratch, row);
        self.end_leaf(env, scratch, lvalue, row);
    }
}

// An open row: an Instruction with this lvalue, an Instruction without one, or another row.
// No option of an option, which takes half as much room again on the stack of a walk.
#[derive(Clone, Copy, Default)]
pub enum Parent {
    #[default]
    Other,
    WithoutLvalue,
    WithLvalue(IdentifierId),
}

impl Visitor for PromoteInterposed {
    // Whether the row is an Instruction, and its lvalue.
    type Kept = Parent;

    ghost keeps = { keeps };

    ghost can = { Readies };

    ghost after = { acting does acts };

    fn keep(row: &RowHead) -> Parent {
        if !row.is(Code::Instruction) {
            return Parent::Other;
        }
        match row.identifier {
            Some(lvalue) => Parent::WithLvalue(lvalue),
            None => Parent::WithoutLvalue,
        }
    }

    fn enter<S: TreeSource>(
        &mut self,
        env: &mut Environment,
        scratch: &mut Scratch,
        parent: Option<Self::Kept>,
        row: &GivenRow<S>,
    )
        requires { Readies (whole self.old (tables env.old scratch.old)) (entering parent row.now) }
        ensures { whole self.new (tables env.new scratch.new) ≡ acting does acts (whole self.old (tables env.old scratch.old)) (entering parent row.now) }
    {
        let head = row.head();
        if head.is(Code::Leaf) {
            // One call for both, which is compiled in place; two are not.
            let lvalue = match parent {
                Some(Parent::WithLvalue(lvalue)) => Some(lvalue),
                Some(Parent::WithoutLvalue) => None,
                _ => return self.use_operands(env, scratch, row),
            };
            self.promote_interposed_instruction(env, scratch, lvalue, row);
        } else if let Some(id) = head.used() {
            self.use_place(env, scratch, id);
        }
    }

    fn leave(&mut self, _env: &mut Environment, _scratch: &mut Scratch, _kept: Self::Kept) {}
}

// Own parameters are constant from the start. Every pass loops over its lists itself: a rule of this project.
fn fix_parameters(
    visitor: &PromoteInterposed,
    env: &Environment,
    scratch: &mut Scratch,
    parameters: Span,
)
    requires { Ready (whole visitor.now (tables env.now scratch.old)) (map fixes (identifiers_in env.now.pool.now parameters)) }
    ensures { whole visitor.now (tables env.now scratch.new) ≡ fold does (whole visitor.now (tables env.now scratch.old)) (map fixes (identifiers_in env.now.pool.now parameters)) }
{
    for n in parameters.of(env.pool) {
        visitor.fix(env, scratch, IdentifierId(*n));
    }
}

// Names the temporaries that are used after a barrier since they were tracked.
#[inline(never)]
pub fn promote_interposed<S: TreeSource>(
    source: &mut S,
    env: &mut Environment,
    scratch: &mut Scratch,
    parameters: Span,
)
    requires shallow { Each Shallow (S.TreeSource.reading source.old).rows }
    requires ready { Ready (begun (tables env.old scratch.old)) (pass_acts (identifiers_in env.old.pool.now parameters) (S.TreeSource.reading source.old).rows) }
    ensures after { tables env.new scratch.new ≡ promote_interposed (tables env.old scratch.old) parameters (S.TreeSource.reading source.old).rows }
    ensures source { S.TreeSource.reading source.new ≡ rewound (S.TreeSource.reading source.old) }
{
    let mut visitor = PromoteInterposed { epoch: 1 };
    fix_parameters(&visitor, env, scratch, parameters);
    walk(source, &mut visitor, &mut FixedStack::new(), env, scratch);
}
