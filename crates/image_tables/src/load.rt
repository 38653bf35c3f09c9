// Tables filled from an image, section by section.
ghost use Rattle.std.specs.Prelude.{◌≡◌, ℕ, ◌+◌, ◌*◌, ◌^◌, ◌<◌, ◌≤◌, true, List, [], length, is_ok, IfOk, vec_len, OnOk};
ghost use Rattle.image.specs.Steps.{held};
ghost use Rattle.image_tables.specs.Tables.{SectionReads, AddedSection, Loaded};

use crate::fault::LoadFault;
use crate::lists::{add_identifiers, add_lists};
use crate::tables::{Panel, Tables};
use hir::tables::{Function, Scope};
use image::section::{Reader, Section};
use image_check::check::check_image;
use std::alloc::{AllocError, Global};

// An image has fewer bytes, so that a number of the pool has a place of 32 bits.
const MOST_BYTES: usize = 1 << 32;

// Puts what a section holds, which was checked, behind what the tables hold.
fn add_section<'a>(tables: &mut Tables<'a>, section: Section<'a>) -> Result<(), AllocError>
    requires reads { SectionReads (held section) }
    requires room { 4 * vec_len tables.old.pool + length (held section).bytes < 2 ^ 32 }
    ensures { OnOk result (AddedSection (held section.entry) tables.old tables.new) }
{
    match section {
        Section::Identifiers(content) => add_identifiers(&mut tables.identifiers, content)?,
        Section::Scope(content) => {
            let [dependencies, declarations, reassignments] = add_lists::<3>(
                &mut tables.pool,
                content,
            )?;
            tables.scopes.push(Scope {
                dependencies,
                declarations,
                reassignments,
            })?;
        }
        Section::Function(content) => {
            let [parameters, nested] = add_lists::<2>(&mut tables.pool, content)?;
            tables.functions.push(Function { parameters, nested })?;
        }
        Section::Tree(content) => {
            let [parameters] = add_lists::<1>(&mut tables.pool, content)?;
            tables.panels.push(Panel {
                parameters,
                content,
            })?;
        }
    }
    Ok(())
}

// The tables and trees of an image.
pub fn load<'a>(heap: Global, image: &'a [u8]) -> Result<Tables<'a>, LoadFault>
    ensures { Loaded image.now result }
{
    if image.len() >= MOST_BYTES {
        return Err(LoadFault::Limit);
    }
    check_image(image)?;
    let mut tables = Tables::new(heap);
    let mut reader = Reader::new(image)?;
    while !reader.is_done() {
        let open = reader.open_any()?;
        let section = open.section();
        reader = open.skip();
        add_section(&mut tables, section)?;
    }
    Ok(tables)
}
