ghost use Rattle.std.specs.Prelude.{◌≡◌, ℕ, ◌<◌, ◌≤◌, length};
ghost use Rattle.hir.specs.Environments.{model};
ghost use Rattle.hir.specs.Lists.{Each};
ghost use Rattle.std.specs.List.{fold};
ghost use Rattle.hir.specs.Scratches.{tables};
ghost use Rattle.hir.specs.Sound.{Sound, Known, KnownIn, KnownScope, KnownFunction};
ghost use Rattle.hir.specs.Spans.{identifiers_in};
ghost use Rattle.reactive.specs.Rows.{Reading, rewound};
ghost use Rattle.walk.specs.Events.{Shallow, on_tables, whole, entering};
ghost use Rattle.promote.specs.Temporaries.{keeps, promote_escaped, visit, unvisited, does, Act, scope, pruned, inner, acts, Readies, Ready, pass_acts, promote_temporaries};

use crate::identifier::{promote_list, promote_unnamed};
use fixed_stack::FixedStack;
use hir::environment::Environment;
use hir::ids::{FunctionId, IdentifierId, ScopeId};
use hir::scratch::Scratch;
use hir::span::Span;
use hir::tables::Reason;
use reactive::code::Code;
use reactive::given::GivenRow;
use reactive::row::{Number, RowHead};
use reactive::source::TreeSource;
use walk::visitor::Visitor;
use walk::walking::walk;

// Names an identifier that has no name and whose declaration escaped.
// The last pass asks likewise for another flag: a closure for the flag would be longer than the test.
fn promote_escaped(env: &mut Environment, scratch: &mut Scratch, id: IdentifierId)
    requires known { Known (model env.old) id }
    requires sound { Sound (tables env.old scratch.old) }
    ensures { tables env.new scratch.new ≡ promote_escaped (tables env.old scratch.old) id }
{
    if scratch.work[env.declaration(id).0 as usize].escaped {
        promote_unnamed(env, scratch, id, Reason::Escape);
    }
}

// Names what a Scope row's scope depends on and declares.
fn promote_scope(env: &mut Environment, scratch: &mut Scratch, id: ScopeId)
    requires known { KnownScope (model env.old) id }
    requires sound { Sound (tables env.old scratch.old) }
    ensures { tables env.new scratch.new ≡ does (tables env.old scratch.old) (scope id) }
{
    let scope = env.scopes[id.0 as usize];
    promote_list(env, scratch, scope.dependencies, Reason::Scope);
    promote_list(env, scratch, scope.declarations, Reason::Scope);
}

// Names what a Pruned row's scope declares and what escaped. Every pass loops over its lists itself: a rule of this project.
fn promote_pruned_scope(env: &mut Environment, scratch: &mut Scratch, id: ScopeId)
    requires known { KnownScope (model env.old) id }
    requires sound { Sound (tables env.old scratch.old) }
    ensures { tables env.new scratch.new ≡ does (tables env.old scratch.old) (pruned id) }
{
    let scope = env.scopes[id.0 as usize];
    for n in scope.declarations.of(env.pool) {
        promote_escaped(env, scratch, IdentifierId(*n));
    }
}

// Names the parameters of a function and of those nested in it; each function is visited once. The loop over the list is the pass's own: a rule of this project.
fn visit_hir_function_for_promotion(env: &mut Environment, scratch: &mut Scratch, id: FunctionId)
    requires known { KnownFunction (model env.old) id }
    requires sound { Sound (tables env.old scratch.old) }
    ensures { (k : ℕ) → unvisited (tables env.old scratch.old) ≤ k → tables env.new scratch.new ≡ visit k (tables env.old scratch.old) id }
{
    let f = id.0 as usize;
    if scratch.marks[f] {
        return;
    }
    scratch.marks[f] = true;
    let function = env.functions[f];
    promote_list(env, scratch, function.parameters, Reason::InnerParameter);
    for n in function.nested.of(env.pool) {
        visit_hir_function_for_promotion(env, scratch, FunctionId(*n));
    }
}

// Names the parameters of the function that a Leaf names, and of those nested in it.
fn promote_inner_function(env: &mut Environment, scratch: &mut Scratch, id: FunctionId)
    requires known { KnownFunction (model env.old) id }
    requires sound { Sound (tables env.old scratch.old) }
    ensures { tables env.new scratch.new ≡ does (tables env.old scratch.old) (inner id) }
{
    visit_hir_function_for_promotion(env, scratch, id);
}

// The second pass.
#[derive(Clone, Copy)]
pub struct PromoteTemporaries;

impl Visitor for PromoteTemporaries {
    // Nothing.
    type Kept = ();

    ghost keeps = { keeps };

    ghost can = { Readies };

    ghost after = { on_tables does acts };

    fn keep(_row: &RowHead) {}

    fn enter<S: TreeSource>(
        &mut self,
        env: &mut Environment,
        scratch: &mut Scratch,
        _parent: Option<Self::Kept>,
        row: &GivenRow<S>,
    )
        requires { Readies (whole self.old (tables env.old scratch.old)) (entering _parent row.now) }
        ensures { whole self.new (tables env.new scratch.new) ≡ on_tables does acts (whole self.old (tables env.old scratch.old)) (entering _parent row.now) }
    {
        let row = row.head();
        match row.number {
            Some(Number::Scope(scope)) if row.is(Code::Scope) => promote_scope(env, scratch, scope),
            Some(Number::Scope(scope)) if row.is(Code::Pruned) => {
                promote_pruned_scope(env, scratch, scope)
            }
            Some(Number::Function(function)) => promote_inner_function(env, scratch, function),
            _ => {}
        }
    }

    fn leave(&mut self, _env: &mut Environment, _scratch: &mut Scratch, _kept: Self::Kept) {}
}

// Names own parameters, and then by row what scopes take, what escaped, and inner parameters.
#[inline(never)]
pub fn promote_temporaries<S: TreeSource>(
    source: &mut S,
    env: &mut Environment,
    scratch: &mut Scratch,
    parameters: Span,
)
    requires shallow { Each Shallow (S.TreeSource.reading source.old).rows }
    requires known { KnownIn (model env.old) parameters }
    requires ready { Ready (tables env.old scratch.old) (pass_acts (S.TreeSource.reading source.old).rows) }
    ensures after { tables env.new scratch.new ≡ promote_temporaries (tables env.old scratch.old) parameters (S.TreeSource.reading source.old).rows }
    ensures source { S.TreeSource.reading source.new ≡ rewound (S.TreeSource.reading source.old) }
{
    promote_list(env, scratch, parameters, Reason::OwnParameter);
    // Where there is neither a scope nor a function, no row names one.
    if env.scopes.is_empty() && env.functions.is_empty() {
        source.rewind();
        return;
    }
    let mut visitor = PromoteTemporaries;
    walk(source, &mut visitor, &mut FixedStack::new(), env, scratch);
}
