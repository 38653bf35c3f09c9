ghost use Rattle.std.specs.Prelude.{◌≡◌};
ghost use Rattle.hir.specs.Environments.{model, tag_of};
ghost use Rattle.std.specs.List.{fold};
ghost use Rattle.hir.specs.Scratches.{tables};
ghost use Rattle.hir.specs.Sound.{Sound, Known, KnownIn};
ghost use Rattle.hir.specs.Spans.{identifiers_in};
ghost use Rattle.promote.specs.Identifier.{promoted, promote_unnamed};

use hir::environment::Environment;
use hir::ids::IdentifierId;
use hir::scratch::Scratch;
use hir::span::Span;
use hir::tables::{JournalRow, Reason};
use hir::tag::Tag;

// Names an identifier that has no name: `#T` where its declaration is that of a JSX tag, else `#t`.
pub fn promote_identifier(
    env: &mut Environment,
    scratch: &mut Scratch,
    id: IdentifierId,
    reason: Reason,
)
    requires unnamed { tag_of (model env.old) id.0 ≡ 0 }
    requires known { Known (model env.old) id }
    requires sound { Sound (tables env.old scratch.old) }
    ensures { tables env.new scratch.new ≡ promoted reason (tables env.old scratch.old) id }
{
    let d = env.declaration(id).0 as usize;
    let tag = if scratch.work[d].tag {
        Tag::Upper
    } else {
        Tag::Lower
    };
    scratch.work[d].promoted = true;
    env.identifiers[id.0 as usize].tag = tag as u8;
    env.journal[env.count] = JournalRow {
        identifier: id,
        reason,
    };
    env.count += 1;
}

// Names an identifier, unless it has a name.
pub fn promote_unnamed(
    env: &mut Environment,
    scratch: &mut Scratch,
    id: IdentifierId,
    reason: Reason,
)
    requires known { Known (model env.old) id }
    requires sound { Sound (tables env.old scratch.old) }
    ensures { tables env.new scratch.new ≡ promote_unnamed reason (tables env.old scratch.old) id }
{
    if env.is_unnamed(id) {
        promote_identifier(env, scratch, id, reason);
    }
}

// Names the identifiers of a list that have no name. Every pass loops over its lists itself: a rule of this project.
pub fn promote_list(env: &mut Environment, scratch: &mut Scratch, list: Span, reason: Reason)
    requires known { KnownIn (model env.old) list }
    requires sound { Sound (tables env.old scratch.old) }
    ensures { tables env.new scratch.new ≡ fold (promote_unnamed reason) (tables env.old scratch.old) (identifiers_in env.old.pool.now list) }
{
    for n in list.of(env.pool) {
        promote_unnamed(env, scratch, IdentifierId(*n), reason);
    }
}
