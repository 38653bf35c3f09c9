// The fields of a row as bytes.
ghost use Rattle.std.specs.Prelude.{◌≡◌, ◌^◌, ◌≤◌, map, length, IfErr, OnOk};
ghost use Rattle.image.specs.Layouts.{numbers};
ghost use Rattle.image.specs.Format.{fields};
ghost use Rattle.image_encode.specs.declared.fault.EncodeFault.TheVariants.{Unfit};
ghost use Rattle.image_encode.specs.Puts.{Put};
ghost use Rattle.image_encode.specs.Fields.{plain, identifier_word, number_word, fits_in, fields_of, LongList};

use crate::bytes::{write_numbers, write_u32};
use crate::fault::EncodeFault;
use hir::ids::IdentifierId;
use reactive::code::Code;
use reactive::given::{GivenRow, Identifiers};
use reactive::row::{Number, RowHead};
use reactive::source::TreeSource;

// The word that stands for an optional identifier. No From: neither type is of this crate.
fn identifier_word(identifier: Option<IdentifierId>) -> u32
    ensures { result ≡ identifier_word identifier }
{
    identifier.map_or(u32::MAX, |id| id.0)
}

// The word that stands for an optional scope or function. No From: neither type is of this crate.
fn number_word(number: Option<Number>) -> u32
    ensures { result ≡ number_word number }
{
    match number {
        Some(Number::Scope(scope)) => scope.0,
        Some(Number::Function(function)) => function.0,
        None => u32::MAX,
    }
}

// Whether the identifier and the number can be told by four bytes each.
pub fn fits(row: &RowHead) -> bool
    ensures { result ≡ fits_in row.now.code row.now.identifier row.now.number }
{
    let has_scope = Code::try_from(row.code).is_ok_and(|code| code.has_scope());
    let identifier_fits = row.identifier.is_none_or(|id| id.0 != u32::MAX);
    let number_fits = match row.number {
        Some(Number::Scope(scope)) => has_scope && scope.0 != u32::MAX,
        Some(Number::Function(function)) => !has_scope && function.0 != u32::MAX,
        None => true,
    };
    identifier_fits && number_fits
}

// A list of a row, which has `count` identifiers.
fn write_items<S: TreeSource>(
    out: &mut Vec<u8>,
    ids: Identifiers<S>,
    count: usize,
) -> Result<(), EncodeFault>
    requires { count ≡ length ids }
    ensures items { OnOk result (Put numbers (map plain ids.entry) out.old.items out.new.items) }
    ensures fault { IfErr result (λ e. (e ≡ Unfit → 2 ^ 32 ≤ count)) }
{
    write_numbers(out, u32::try_from(count)?, ids.map(|id| id.0))?;
    Ok(())
}

// The fields of a row.
pub fn write_fields<S: TreeSource>(out: &mut Vec<u8>, row: &GivenRow<S>) -> Result<(), EncodeFault>
    ensures items { OnOk result (Put fields (fields_of row.now) out.old.items out.new.items) }
    ensures fault { IfErr result (λ e. (e ≡ Unfit → LongList row.now)) }
{
    let head = row.head();
    out.push(head.code)?;
    write_u32(out, identifier_word(head.identifier))?;
    write_u32(out, number_word(head.number))?;
    out.push(head.kind)?;
    out.push(head.mode)?;
    write_items(out, row.operands(), head.operands)?;
    write_items(out, row.marks(), head.marks)?;
    Ok(())
}
