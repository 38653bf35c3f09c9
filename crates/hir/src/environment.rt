ghost use Rattle.std.specs.Prelude.{◌≡◌, ◌==◌};
ghost use Rattle.hir.specs.Environments.{model, fresh, declaration_of, tag_of};
ghost use Rattle.hir.specs.Sound.{Known};

use crate::ids::{DeclarationId, IdentifierId};
use crate::tables::{Function, Identifier, JournalRow, Scope};

// The most identifiers of an environment on which a call is not refused.
pub const MOST_IDENTIFIERS: usize = 65536;

// The tables that calls read and write, all lent, and how many journal rows are in use.
// The journal is no Vec, since it is lent memory.
#[derive(Drop)]
pub struct Environment<'a> {
    pub identifiers: &'a mut [Identifier],
    pub scopes: &'a [Scope],
    pub functions: &'a [Function],
    pub pool: &'a [u32],
    pub journal: &'a mut [JournalRow],
    pub count: usize,
}

impl<'a> Environment<'a> {
    // An environment of these tables, with an empty journal.
    pub fn new(
        identifiers: &'a mut [Identifier],
        scopes: &'a [Scope],
        functions: &'a [Function],
        pool: &'a [u32],
        journal: &'a mut [JournalRow],
    ) -> Environment<'a>
        ensures { model result ≡ fresh identifiers.old scopes.now functions.now pool.now journal.old }
    {
        Environment {
            identifiers,
            scopes,
            functions,
            pool,
            journal,
            count: 0,
        }
    }

    // The declaration of an identifier.
    pub fn declaration(&self, id: IdentifierId) -> DeclarationId
        requires { Known (model self.now) id }
        ensures { result.0 ≡ declaration_of (model self.now) id.0 }
    {
        self.identifiers[id.0 as usize].declaration
    }

    // Whether an identifier has no name.
    pub fn is_unnamed(&self, id: IdentifierId) -> bool
        requires { Known (model self.now) id }
        ensures { result ≡ (tag_of (model self.now) id.0 == 0) }
    {
        let identifier = self.identifiers[id.0 as usize];
        identifier.is_unnamed()
    }

    // Whether an identifier lacks a name; one without a row has none either.
    pub fn lacks_name(&self, id: IdentifierId) -> bool
        ensures { result ≡ (tag_of (model self.now) id.0 == 0) }
    {
        match self.identifiers.get(id.0 as usize) {
            Some(identifier) => identifier.is_unnamed(),
            None => true,
        }
    }
}
