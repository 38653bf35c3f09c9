// Links of the trail, from an active scope to those around it.
ghost use Rattle.std.specs.Prelude.{◌≡◌};
ghost use Rattle.collect.specs.Links.{Leads, is_along};

use hir::ids::ScopeId;
use hir::packed::Link;
use hir::scratch::Trail;

// Whether a scope is among those along a link. By a loop: it ends since links go down, which a chain of successors does not show.
pub fn is_along(trail: &[Trail], link: Link, scope: ScopeId) -> bool
    requires { Leads trail.now link }
    ensures { result ≡ is_along trail.now link scope.0 }
{
    let mut at = link;
    while let Some(row) = at {
        let active = trail[row as usize];
        if active.scope == scope {
            return true;
        }
        at = active.link.get();
    }
    false
}
