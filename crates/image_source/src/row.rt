// A row of an image, as a source gives it.
ghost use Rattle.std.specs.Prelude.{◌≡◌};
ghost use Rattle.reactive.specs.Rows.{head};
ghost use Rattle.image.specs.Steps.{see_fields};
ghost use Rattle.image_source.specs.Trees.{identifier_of, number_of, row_of};

use hir::ids::{FunctionId, IdentifierId, ScopeId};
use image::fields::RowFields;
use reactive::code::Code;
use reactive::row::{Number, RowHead};

// A number of all ones stands for an absent one. No From: neither type is of this crate.
fn identifier_of(number: u32) -> Option<IdentifierId>
    ensures { result ≡ identifier_of number }
{
    match number {
        u32::MAX => None,
        _ => Some(IdentifierId(number)),
    }
}

// The number of a Scope or Pruned row is a scope, that of any other a function. The code is unchecked.
fn number_of(code: u8, number: u32) -> Option<Number>
    ensures { result ≡ number_of code number }
{
    match (number, Code::try_from(code)) {
        (u32::MAX, _) => None,
        (_, Ok(code)) if code.has_scope() => Some(Number::Scope(ScopeId(number))),
        _ => Some(Number::Function(FunctionId(number))),
    }
}

// The row of these fields, without its lists. No From: the depth is not among them.
pub fn row_head<'a>(depth: u32, fields: RowFields<'a>) -> RowHead
    ensures { result ≡ head (row_of depth (see_fields fields.entry)) }
{
    RowHead {
        depth,
        code: fields.code,
        identifier: identifier_of(fields.identifier),
        number: number_of(fields.code, fields.number),
        kind: fields.kind,
        mode: fields.mode,
        operands: fields.operands.len(),
        marks: fields.marks.len(),
    }
}
