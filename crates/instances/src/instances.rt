ghost use Rattle.std.specs.Prelude.{◌≡◌, ℕ, ◌<◌, map, length};
ghost use Rattle.hir.specs.Environments.{model};
ghost use Rattle.hir.specs.Lists.{Each};
ghost use Rattle.std.specs.List.{fold, list_any};
ghost use Rattle.hir.specs.Scratches.{noted, tables};
ghost use Rattle.hir.specs.Sound.{Sound, Known, KnownIn, KnownScope, KnownFunction};
ghost use Rattle.hir.specs.Spans.{identifiers_in};
ghost use Rattle.reactive.specs.Rows.{Reading, rewound};
ghost use Rattle.walk.specs.Events.{Shallow, on_tables, whole, entering};
ghost use Rattle.instances.specs.Instances.{promote_instance, is_left, does, Act, again, parameters, leaves, keeps, acts, Readies, Ready, pass_acts, promote_all_instances};

use fixed_stack::FixedStack;
use hir::environment::Environment;
use hir::ids::{FunctionId, IdentifierId, ScopeId};
use hir::scratch::Scratch;
use hir::span::Span;
use hir::tables::{Identifier, Reason};
use promote::identifier::promote_unnamed;
use reactive::code::Code;
use reactive::given::GivenRow;
use reactive::row::RowHead;
use reactive::source::TreeSource;
use walk::visitor::Visitor;
use walk::walking::walk;

// Names an identifier that has no name, if this run named one of its declaration.
fn promote_all_instances_place(env: &mut Environment, scratch: &mut Scratch, id: IdentifierId)
    requires known { Known (model env.old) id }
    requires sound { Sound (tables env.old scratch.old) }
    ensures { tables env.new scratch.new ≡ promote_instance (tables env.old scratch.old) id }
{
    if scratch.work[env.declaration(id).0 as usize].promoted {
        promote_unnamed(env, scratch, id, Reason::SameDeclaration);
    }
}

// The same for the identifiers of a list. Every pass loops over its lists itself: a rule of this project.
fn promote_all_instances_list(env: &mut Environment, scratch: &mut Scratch, list: Span)
    requires known { KnownIn (model env.old) list }
    requires sound { Sound (tables env.old scratch.old) }
    ensures { tables env.new scratch.new ≡ fold promote_instance (tables env.old scratch.old) (identifiers_in env.old.pool.now list) }
{
    for n in list.of(env.pool) {
        promote_all_instances_place(env, scratch, IdentifierId(*n));
    }
}

// The same for what a scope declares, depends on and reassigns.
fn promote_all_instances_scope_identifiers(
    env: &mut Environment,
    scratch: &mut Scratch,
    id: ScopeId,
)
    requires known { KnownScope (model env.old) id }
    requires sound { Sound (tables env.old scratch.old) }
    ensures { tables env.new scratch.new ≡ does (tables env.old scratch.old) (leaves id) }
{
    let scope = env.scopes[id.0 as usize];
    promote_all_instances_list(env, scratch, scope.declarations);
    promote_all_instances_list(env, scratch, scope.dependencies);
    promote_all_instances_list(env, scratch, scope.reassignments);
}

// The same for the operands of a row, in their order. Every pass loops over them itself: a rule of this project.
fn promote_all_instances_operands<S: TreeSource>(
    env: &mut Environment,
    scratch: &mut Scratch,
    row: &GivenRow<S>,
)
    requires { Ready (tables env.old scratch.old) (map again row.now.operands) }
    ensures { tables env.new scratch.new ≡ fold does (tables env.old scratch.old) (map again row.now.operands) }
{
    for id in row.operands() {
        promote_all_instances_place(env, scratch, id);
    }
}

// The same for the parameters of a function.
fn promote_all_instances_function(env: &mut Environment, scratch: &mut Scratch, id: FunctionId)
    requires known { KnownFunction (model env.old) id }
    requires sound { Sound (tables env.old scratch.old) }
    ensures { tables env.new scratch.new ≡ does (tables env.old scratch.old) (parameters id) }
{
    let function = env.functions[id.0 as usize];
    promote_all_instances_list(env, scratch, function.parameters);
}

// The last pass.
#[derive(Clone, Copy)]
pub struct PromoteAllInstances;

impl Visitor for PromoteAllInstances {
    // The row's scope.
    type Kept = Option<ScopeId>;

    ghost keeps = { keeps };

    ghost can = { Readies };

    ghost after = { on_tables does acts };

    fn keep(row: &RowHead) -> Option<ScopeId> {
        row.scope()
    }

    fn enter<S: TreeSource>(
        &mut self,
        env: &mut Environment,
        scratch: &mut Scratch,
        _parent: Option<Self::Kept>,
        row: &GivenRow<S>,
    )
        requires { Readies (whole self.old (tables env.old scratch.old)) (entering _parent row.now) }
        ensures { whole self.new (tables env.new scratch.new) ≡ on_tables does acts (whole self.old (tables env.old scratch.old)) (entering _parent row.now) }
    {
        let head = row.head();
        if head.is(Code::Leaf) {
            promote_all_instances_operands(env, scratch, row);
            if let Some(function) = head.function() {
                promote_all_instances_function(env, scratch, function);
            }
        } else if let Some(id) = head.identifier {
            promote_all_instances_place(env, scratch, id);
        }
    }

    fn leave(&mut self, env: &mut Environment, scratch: &mut Scratch, scope: Self::Kept) {
        if let Some(scope) = scope {
            promote_all_instances_scope_identifiers(env, scratch, scope);
        }
    }
}

// Whether an identifier has no name though this run named one of its declaration.
fn is_left(scratch: &Scratch, identifier: Identifier) -> bool
    ensures { result ≡ is_left (noted scratch.now) identifier }
{
    identifier.is_unnamed()
        && scratch
            .work
            .get(identifier.declaration.0 as usize)
            .is_some_and(|work| work.promoted)
}

// Whether there is such an identifier.
fn some_left(env: &Environment, scratch: &Scratch) -> bool
    ensures { result ≡ list_any (is_left (noted scratch.now)) (model env.now).identifiers }
{
    env.identifiers
        .iter()
        .any(|identifier| is_left(scratch, *identifier))
}

// Visits own parameters, and then the rows, where there is an identifier to name.
#[inline(never)]
pub fn promote_all_instances<S: TreeSource>(
    source: &mut S,
    env: &mut Environment,
    scratch: &mut Scratch,
    parameters: Span,
)
    requires shallow { Each Shallow (S.TreeSource.reading source.old).rows }
    requires known { KnownIn (model env.old) parameters }
    requires ready { Ready (tables env.old scratch.old) (pass_acts (S.TreeSource.reading source.old).rows) }
    ensures after { tables env.new scratch.new ≡ promote_all_instances (tables env.old scratch.old) parameters (S.TreeSource.reading source.old).rows }
    ensures source { S.TreeSource.reading source.new ≡ rewound (S.TreeSource.reading source.old) }
{
    if !some_left(env, scratch) {
        source.rewind();
        return;
    }
    promote_all_instances_list(env, scratch, parameters);
    let mut visitor = PromoteAllInstances;
    walk(source, &mut visitor, &mut FixedStack::new(), env, scratch);
}
