ghost use Rattle.std.specs.Prelude.{◌≡◌, ◌==◌, Some};
ghost use Rattle.reactive.specs.Codes.{code_number, used_in};
ghost use Rattle.reactive.specs.Kinds.{kind_number};
ghost use Rattle.reactive.specs.Numbers.{scope_in, function_in};

use crate::code::Code;
use crate::kind::Kind;
use hir::ids::{FunctionId, IdentifierId, ScopeId};

// The number of a row: its scope, or the function that it names.
#[derive(Clone, Copy)]
pub enum Number {
    Scope(ScopeId),
    Function(FunctionId),
}

impl Number {
    // The scope, where it is one.
    fn scope(self) -> Option<ScopeId>
        ensures { result ≡ scope_in (Some self) }
    {
        match self {
            Number::Scope(scope) => Some(scope),
            Number::Function(_) => None,
        }
    }

    // The function, where it is one.
    fn function(self) -> Option<FunctionId>
        ensures { result ≡ function_in (Some self) }
    {
        match self {
            Number::Scope(_) => None,
            Number::Function(function) => Some(function),
        }
    }
}

// A row without its two lists, of which it has the lengths. Its bytes are unchecked.
#[derive(Clone, Copy, Default)]
pub struct RowHead {
    pub depth: u32,
    pub code: u8,
    pub identifier: Option<IdentifierId>,
    pub number: Option<Number>,
    pub kind: u8,
    pub mode: u8,
    pub operands: usize,
    pub marks: usize,
}

impl RowHead {
    // Whether the row has this code.
    pub fn is(&self, code: Code) -> bool
        ensures { result ≡ (self.now.code == code_number code) }
    {
        self.code == code as u8
    }

    // Whether the row has this kind.
    pub fn is_kind(&self, kind: Kind) -> bool
        ensures { result ≡ (self.now.kind == kind_number kind) }
    {
        self.kind == kind as u8
    }

    // The identifier, where the row uses it: in a Return, a Throw, a Switch, a Case, an If or a Handler.
    pub fn used(&self) -> Option<IdentifierId>
        ensures { result ≡ used_in self.now.code self.now.identifier }
    {
        match Code::try_from(self.code) {
            Ok(Code::Return | Code::Throw | Code::Switch | Code::Case | Code::If | Code::Handler) =>
                self.identifier,
            _ => None,
        }
    }

    // The scope that the row names.
    pub fn scope(&self) -> Option<ScopeId>
        ensures { result ≡ scope_in self.now.number }
    {
        self.number?.scope()
    }

    // The function that the row names.
    pub fn function(&self) -> Option<FunctionId>
        ensures { result ≡ function_in self.now.number }
    {
        self.number?.function()
    }
}
