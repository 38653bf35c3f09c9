// Tables that own their rows, and the trees of an image.
ghost use Rattle.std.specs.Prelude.{◌≡◌, [], vec_len};
ghost use Rattle.image_tables.specs.Tables.{Holds};

use hir::span::Span;
use hir::tables::{Function, Identifier, Scope};
use std::alloc::Global;

// A T section: its own parameters, and its part of the image behind the letter.
#[derive(Clone, Copy)]
pub struct Panel<'a> {
    pub parameters: Span,
    pub content: &'a [u8],
}

// The tables of an image, and its trees in order.
#[derive(Drop)]
pub struct Tables<'a> {
    pub identifiers: Vec<Identifier>,
    pub scopes: Vec<Scope>,
    pub functions: Vec<Function>,
    pub pool: Vec<u32>,
    pub panels: Vec<Panel<'a>>,
}

impl<'a> Tables<'a> {
    // Tables without rows.
    pub fn new(heap: Global) -> Tables<'a>
        ensures rows { Holds [] result }
        ensures pool { vec_len result.pool ≡ 0 }
    {
        Tables {
            identifiers: Vec::new(heap),
            scopes: Vec::new(heap),
            functions: Vec::new(heap),
            pool: Vec::new(heap),
            panels: Vec::new(heap),
        }
    }
}
