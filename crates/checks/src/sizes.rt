// How many rows the tables have.
ghost use Rattle.std.specs.Prelude.{◌≡◌};
ghost use Rattle.hir.specs.Environments.{model};
ghost use Rattle.checks.specs.Rows.{sizes};

use hir::environment::Environment;

// How many identifiers, scopes and functions there are.
#[derive(Clone, Copy)]
pub struct Sizes {
    pub identifiers: usize,
    pub scopes: usize,
    pub functions: usize,
}

// The sizes of these tables.
impl<'a, 'b> From<&'a Environment<'b>> for Sizes {
    ghost from_gives = { λ env r. r ≡ sizes (model env.now) };

    fn from(env: &'a Environment<'b>) -> Sizes {
        Sizes {
            identifiers: env.identifiers.len(),
            scopes: env.scopes.len(),
            functions: env.functions.len(),
        }
    }
}
