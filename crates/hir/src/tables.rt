ghost use Rattle.std.specs.Prelude.{◌≡◌, ◌==◌};
ghost use Rattle.hir.specs.Reasons.{reason_number};

use crate::ids::{DeclarationId, IdentifierId};
use crate::span::Span;
use crate::tag::Tag;

// An identifier's declaration, and the number of its tag, which is unchecked.
#[derive(Clone, Copy, PartialEq)]
pub struct Identifier {
    pub declaration: DeclarationId,
    pub tag: u8,
}

impl Identifier {
    // Whether the identifier has no name.
    pub fn is_unnamed(self) -> bool
        ensures { result ≡ (self.tag == 0) }
    {
        self.tag == Tag::Unnamed as u8
    }
}

// The identifiers of a reactive scope.
#[derive(Clone, Copy, PartialEq)]
pub struct Scope {
    pub dependencies: Span,
    pub declarations: Span,
    pub reassignments: Span,
}

// A function's parameters, and the functions nested in it.
#[derive(Clone, Copy, PartialEq)]
pub struct Function {
    pub parameters: Span,
    pub nested: Span,
}

// Why a run named an identifier.
#[derive(Clone, Copy, PartialEq)]
pub enum Reason {
    OwnParameter = 1,
    Scope = 2,
    Escape = 3,
    InnerParameter = 4,
    Interposed = 5,
    SameDeclaration = 6,
}

impl Reason {
    // A method and no From: the name says what the byte is.
    pub fn number(self) -> u8
        ensures { result ≡ reason_number self }
    {
        self as u8
    }
}

// An identifier that a run named, and why.
#[derive(Clone, Copy, PartialEq)]
pub struct JournalRow {
    pub identifier: IdentifierId,
    pub reason: Reason,
}
