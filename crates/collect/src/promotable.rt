// The first pass over a tree, which only notes in scratch what later passes name.
ghost use Rattle.std.specs.Prelude.{◌≡◌, ◌+◌, ◌^◌, ◌<◌, ◌≤◌, [], ◌∷◌, Some, IfSome, map, length};
ghost use Rattle.hir.specs.Environments.{model};
ghost use Rattle.hir.specs.Lists.{Each};
ghost use Rattle.std.specs.List.{fold};
ghost use Rattle.hir.specs.Scratches.{tables, noted};
ghost use Rattle.hir.specs.Sound.{Sound, Known};
ghost use Rattle.reactive.specs.Rows.{rewound};
ghost use Rattle.walk.specs.Events.{whole, Shallow, acting, entering};
ghost use Rattle.collect.specs.Links.{Leads, reach};
ghost use Rattle.collect.specs.Promotable.{prunes, sees, flags, recorded_at, escapes_at, trail_row, with_trail, around, at, does, keeps, leaf_acts, acts, Ready, Readies, pass_acts, begun, collected};

use crate::links::is_along;
use fixed_stack::FixedStack;
use hir::environment::Environment;
use hir::ids::{IdentifierId, ScopeId};
use hir::packed::{Link, PackedLink, PackedRecording};
use hir::scratch::{Scratch, Trail, Work};
use reactive::code::Code;
use reactive::given::GivenRow;
use reactive::kind::Kind;
use reactive::row::RowHead;
use reactive::source::TreeSource;
use walk::visitor::Visitor;
use walk::walking::walk;

// The first pass.
#[derive(Clone, Copy)]
pub struct CollectPromotable {
    // the link of the innermost active scope
    pub innermost: Link,
    // how many trail rows are in use: the trail is lent memory
    pub used: u32,
}

impl CollectPromotable {
    // A Scope row is entered: its scope is the innermost active one.
    fn open_scope(&mut self, scratch: &mut Scratch, scope: ScopeId)
        requires room { self.old.used < length scratch.old.trail.now }
        requires low { self.old.used + 1 < 2 ^ 32 }
        requires innermost { reach self.old.innermost ≤ self.old.used }
        ensures visitor { self.new ≡ at (Some self.old.used) (self.old.used + 1) }
        ensures notes { noted scratch.new ≡ with_trail (noted scratch.old) self.old.used (trail_row scope self.old.innermost) }
    {
        scratch.trail[self.used as usize] = Trail {
            scope,
            link: PackedLink::new(self.innermost),
        };
        self.innermost = Some(self.used);
        self.used += 1;
    }

    // A Scope row is left: the scope around its own is the innermost again.
    fn shut_scope(&mut self, scratch: &Scratch)
        requires { reach self.old.innermost ≤ length scratch.now.trail.now }
        ensures { self.new ≡ at (around (noted scratch.now) self.old.innermost) self.old.used }
    {
        if let Some(row) = self.innermost {
            self.innermost = scratch.trail[row as usize].link.get();
        }
    }

    // Records a declaration of a Pruned row's scope under the innermost active scope.
    fn record_pruned(self, env: &Environment, scratch: &mut Scratch, id: IdentifierId)
        requires known { Known (model env.now) id }
        requires sound { Sound (tables env.now scratch.old) }
        requires low { reach self.innermost + 1 < 2 ^ 32 }
        ensures { tables env.now scratch.new ≡ recorded_at self.innermost (tables env.now scratch.old) id }
    {
        let d = env.declaration(id).0 as usize;
        let mut work = scratch.work[d];
        work.recorded = PackedRecording::new(self.innermost);
        work.escaped = false;
        scratch.work[d] = work;
    }

    // Records all that a Pruned row's scope declares. Every pass loops over its lists itself: a rule of this project.
    fn record_pruned_scope(self, env: &Environment, scratch: &mut Scratch, id: ScopeId)
        requires { Ready (whole self (tables env.now scratch.old)) (prunes id ∷ []) }
        ensures { whole self (tables env.now scratch.new) ≡ does (whole self (tables env.now scratch.old)) (prunes id) }
    {
        let scope = env.scopes[id.0 as usize];
        for n in scope.declarations.of(env.pool) {
            self.record_pruned(env, scratch, IdentifierId(*n));
        }
    }

    // Whether a use here lets a declaration escape: the innermost active scope was not active at its recording.
    fn escapes(self, scratch: &Scratch, work: Work) -> bool
        requires innermost { reach self.innermost ≤ length scratch.now.trail.now }
        requires leads { IfSome work.recorded (λ link. Leads scratch.now.trail.now link) }
        ensures { result ≡ escapes_at self.innermost (noted scratch.now) work }
    {
        let (Some(link), Some(row)) = (work.recorded.get(), self.innermost) else {
            return false;
        };
        let scope = scratch.trail[row as usize].scope;
        !is_along(scratch.trail, link, scope)
    }

    // A use of an identifier: its declaration may escape.
    fn collect_promotable_place(self, env: &Environment, scratch: &mut Scratch, id: IdentifierId)
        requires { Ready (whole self (tables env.now scratch.old)) (sees id ∷ []) }
        ensures { whole self (tables env.now scratch.new) ≡ does (whole self (tables env.now scratch.old)) (sees id) }
    {
        let d = env.declaration(id).0 as usize;
        let work = scratch.work[d];
        if self.escapes(scratch, work) {
            scratch.work[d].escaped = true;
        }
    }

    // The operands of a row are used, in their order. Every pass loops over them itself: a rule of this project.
    fn collect_promotable_operands<S: TreeSource>(
        self,
        env: &Environment,
        scratch: &mut Scratch,
        row: &GivenRow<S>,
    )
        requires { Ready (whole self (tables env.now scratch.old)) (map sees row.now.operands) }
        ensures { whole self (tables env.now scratch.new) ≡ fold does (whole self (tables env.now scratch.old)) (map sees row.now.operands) }
    {
        for id in row.operands() {
            self.collect_promotable_place(env, scratch, id);
        }
    }

    // A mark of a JSX expression: its declaration is that of a tag.
    fn collect_promotable_tag(self, env: &Environment, scratch: &mut Scratch, id: IdentifierId)
        requires { Ready (whole self (tables env.now scratch.old)) (flags id ∷ []) }
        ensures { whole self (tables env.now scratch.new) ≡ does (whole self (tables env.now scratch.old)) (flags id) }
    {
        let d = env.declaration(id).0 as usize;
        scratch.work[d].tag = true;
    }

    // The marks of a row are tags. Every pass loops over lists itself: a rule of this project.
    fn collect_promotable_tags<S: TreeSource>(
        self,
        env: &Environment,
        scratch: &mut Scratch,
        row: &GivenRow<S>,
    )
        requires { Ready (whole self (tables env.now scratch.old)) (map flags row.now.marks) }
        ensures { whole self (tables env.now scratch.new) ≡ fold does (whole self (tables env.now scratch.old)) (map flags row.now.marks) }
    {
        for id in row.marks() {
            self.collect_promotable_tag(env, scratch, id);
        }
    }

    // A Leaf: it uses its operands, and the marks of a JSX expression are tags.
    fn collect_promotable_instruction<S: TreeSource>(
        self,
        env: &Environment,
        scratch: &mut Scratch,
        row: &GivenRow<S>,
    )
        requires { Ready (whole self (tables env.now scratch.old)) (leaf_acts row.now) }
        ensures { whole self (tables env.now scratch.new) ≡ fold does (whole self (tables env.now scratch.old)) (leaf_acts row.now) }
    {
        self.collect_promotable_operands(env, scratch, row);
        if row.head().is_kind(Kind::JsxExpression) {
            self.collect_promotable_tags(env, scratch, row);
        }
    }
}

impl Visitor for CollectPromotable {
    // Whether the row made a scope active.
    type Kept = bool;

    ghost keeps = { keeps };

    ghost can = { Readies };

    ghost after = { acting does acts };

    fn keep(row: &RowHead) -> bool {
        row.is(Code::Scope) && row.scope().is_some()
    }

    fn enter<S: TreeSource>(
        &mut self,
        env: &mut Environment,
        scratch: &mut Scratch,
        _parent: Option<Self::Kept>,
        row: &GivenRow<S>,
    )
        requires { Readies (whole self.old (tables env.old scratch.old)) (entering _parent row.now) }
        ensures { whole self.new (tables env.new scratch.new) ≡ acting does acts (whole self.old (tables env.old scratch.old)) (entering _parent row.now) }
    {
        let head = row.head();
        if head.is(Code::Leaf) {
            self.collect_promotable_instruction(env, scratch, row);
        } else if let Some(id) = head.used() {
            self.collect_promotable_place(env, scratch, id);
        } else if let Some(scope) = head.scope() {
            if head.is(Code::Scope) {
                self.open_scope(scratch, scope);
            } else if head.is(Code::Pruned) {
                self.record_pruned_scope(env, scratch, scope);
            }
        }
    }

    fn leave(&mut self, _env: &mut Environment, scratch: &mut Scratch, active: Self::Kept) {
        if active {
            self.shut_scope(scratch);
        }
    }
}

// Notes the declarations of JSX tags, and which declarations of pruned scopes escape.
#[inline(never)]
pub fn collect_promotable<S: TreeSource>(
    source: &mut S,
    env: &mut Environment,
    scratch: &mut Scratch,
)
    requires shallow { Each Shallow (S.TreeSource.reading source.old).rows }
    requires ready { Ready (begun (tables env.old scratch.old)) (pass_acts (S.TreeSource.reading source.old).rows) }
    ensures after { tables env.new scratch.new ≡ collected (tables env.old scratch.old) (S.TreeSource.reading source.old).rows }
    ensures source { S.TreeSource.reading source.new ≡ rewound (S.TreeSource.reading source.old) }
{
    let mut visitor = CollectPromotable {
        innermost: None,
        used: 0,
    };
    walk(source, &mut visitor, &mut FixedStack::new(), env, scratch);
}
