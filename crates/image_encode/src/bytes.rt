// Numbers, lists and lengths, behind the bytes that are there already.
ghost use Rattle.std.specs.Prelude.{◌≡◌, ℕ, ◌^◌, ◌<◌, ◌≤◌, List, ◌++◌, length, IfErr, OnOk};
ghost use Rattle.std.specs.Iterator.{Drains, IsFinite};
ghost use Rattle.hir.specs.Lists.{Each};
ghost use Rattle.hir.specs.Spans.{part};
ghost use Rattle.image.specs.Bytes.{be, joined};
ghost use Rattle.image.specs.Layouts.{word, numbers};
ghost use Rattle.image_tables.specs.Tables.{Within};
ghost use Rattle.image_encode.specs.declared.fault.EncodeFault.TheVariants.{Unfit};
ghost use Rattle.image_encode.specs.Puts.{Put};

use crate::fault::EncodeFault;
use hir::span::Span;
use std::alloc::AllocError;

// A number of four bytes, the highest first.
pub fn write_u32(out: &mut Vec<u8>, number: u32) -> Result<(), AllocError>
    ensures { OnOk result (Put word number out.old.items out.new.items) }
{
    out.extend_from_slice(&number.to_be_bytes())
}

// A list whose count is told: the count, and the numbers.
pub fn write_numbers<I: Iterator<Item = u32>>(
    out: &mut Vec<u8>,
    count: u32,
    list: I,
) -> Result<(), AllocError>
    requires can { I.can_next list }
    requires ends { IsFinite (I.remaining list) }
    ensures { OnOk result ((xs : List ℕ) × Drains I.next_gives list xs × Each (λ n. n < 2 ^ 32) xs × (out.new.items ≡ out.old.items ++ (be count ++ joined be xs))) }
{
    write_u32(out, count)?;
    for number in list {
        write_u32(out, number)?;
    }
    Ok(())
}

// A list: its count, and its numbers.
pub fn write_list(out: &mut Vec<u8>, list: &[u32]) -> Result<(), EncodeFault>
    ensures items { OnOk result (Put numbers list.now out.old.items out.new.items) }
    ensures fault { IfErr result (λ e. (e ≡ Unfit → 2 ^ 32 ≤ length list.now)) }
{
    write_numbers(out, u32::try_from(list.len())?, list.iter().copied())?;
    Ok(())
}

// The list of a span, which must lie in the pool.
pub fn write_span(out: &mut Vec<u8>, pool: &[u32], span: Span) -> Result<(), EncodeFault>
    ensures items { OnOk result (Within (length pool.now) span × Put numbers (part pool.now span) out.old.items out.new.items) }
    ensures fault { IfErr result (λ e. (e ≡ Unfit → Within (length pool.now) span → ⊥)) }
{
    if span.start as usize + span.count as usize > pool.len() {
        return Err(EncodeFault::Unfit);
    }
    write_list(out, span.of(pool))
}

// Bytes behind their length.
pub fn write_part(out: &mut Vec<u8>, part: &[u8]) -> Result<(), EncodeFault>
    ensures items { OnOk result ((length part.now < 2 ^ 32) × (out.new.items ≡ out.old.items ++ (be (length part.now) ++ part.now))) }
    ensures fault { IfErr result (λ e. (e ≡ Unfit → 2 ^ 32 ≤ length part.now)) }
{
    write_u32(out, u32::try_from(part.len())?)?;
    out.extend_from_slice(part)?;
    Ok(())
}
