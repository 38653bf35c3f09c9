// Sections of an image: their length, their letter and their content.
ghost use Rattle.std.specs.Prelude.{◌≡◌, map, length, IfErr, OnOk};
ghost use Rattle.hir.specs.Spans.{part};
ghost use Rattle.image.specs.Format.{identifier, of_identifiers, of_scope, of_function, section};
ghost use Rattle.image_tables.specs.Tables.{Within, identifier_row, scope_lists, function_lists};
ghost use Rattle.image_encode.specs.declared.fault.EncodeFault.TheVariants.{Unfit};
ghost use Rattle.image_encode.specs.Fits.{ScopeWithin, FunctionWithin, ScopeFits, FunctionFits, PanelFits};
ghost use Rattle.image_encode.specs.Panels.{PutTree, lent, lent_rewound};
ghost use Rattle.image_encode.specs.Puts.{Put};

use crate::bytes::{write_part, write_span, write_u32};
use crate::fault::EncodeFault;
use crate::panel::Panel;
use crate::tree::write_tree;
use hir::tables::{Function, Identifier, Scope};
use reactive::source::TreeSource;
use std::alloc::{AllocError, Global};

// An identifier row.
fn write_identifier(out: &mut Vec<u8>, row: Identifier) -> Result<(), AllocError>
    ensures { OnOk result (Put identifier (identifier_row row) out.old.items out.new.items) }
{
    write_u32(out, row.declaration.0)?;
    out.push(row.tag)?;
    Ok(())
}

// The I section.
pub fn write_identifiers(
    heap: Global,
    out: &mut Vec<u8>,
    identifiers: &[Identifier],
) -> Result<(), EncodeFault>
    ensures items { OnOk result (Put (section 0) (of_identifiers (map identifier_row identifiers.now)) out.old.items out.new.items) }
    ensures fault { IfErr result (λ e. (e ≡ Unfit → (section 0).Fine (of_identifiers (map identifier_row identifiers.now)) → ⊥)) }
{
    let mut content = Vec::new(heap);
    content.push(b'I')?;
    for row in identifiers {
        write_identifier(&mut content, *row)?;
    }
    write_part(out, &content)
}

// An S section.
pub fn write_scope(
    heap: Global,
    out: &mut Vec<u8>,
    pool: &[u32],
    scope: &Scope,
) -> Result<(), EncodeFault>
    ensures items { OnOk result (ScopeWithin (length pool.now) scope.now × Put (section 1) (of_scope (scope_lists pool.now scope.now)) out.old.items out.new.items) }
    ensures fault { IfErr result (λ e. (e ≡ Unfit → ScopeFits pool.now scope.now → ⊥)) }
{
    let mut content = Vec::new(heap);
    content.push(b'S')?;
    write_span(&mut content, pool, scope.dependencies)?;
    write_span(&mut content, pool, scope.declarations)?;
    write_span(&mut content, pool, scope.reassignments)?;
    write_part(out, &content)
}

// An F section.
pub fn write_function(
    heap: Global,
    out: &mut Vec<u8>,
    pool: &[u32],
    function: &Function,
) -> Result<(), EncodeFault>
    ensures items { OnOk result (FunctionWithin (length pool.now) function.now × Put (section 2) (of_function (function_lists pool.now function.now)) out.old.items out.new.items) }
    ensures fault { IfErr result (λ e. (e ≡ Unfit → FunctionFits pool.now function.now → ⊥)) }
{
    let mut content = Vec::new(heap);
    content.push(b'F')?;
    write_span(&mut content, pool, function.parameters)?;
    write_span(&mut content, pool, function.nested)?;
    write_part(out, &content)
}

// A T section.
pub fn write_panel<S: TreeSource>(
    heap: Global,
    out: &mut Vec<u8>,
    pool: &[u32],
    panel: &mut Panel<S>,
) -> Result<(), EncodeFault>
    ensures items { OnOk result (Within (length pool.now) panel.old.parameters × PutTree (part pool.now panel.old.parameters) (S.TreeSource.reading panel.old.tree).rows out.old.items out.new.items) }
    ensures fault { IfErr result (λ e. (e ≡ Unfit → PanelFits pool.now (lent S.TreeSource.reading panel.old) → ⊥)) }
    ensures panel { lent S.TreeSource.reading panel.new ≡ lent_rewound (lent S.TreeSource.reading panel.old) }
{
    let tree = write_tree(heap, &mut panel.tree)?;
    let mut content = Vec::new(heap);
    content.push(b'T')?;
    write_span(&mut content, pool, panel.parameters)?;
    content.extend_from_slice(&tree)?;
    write_part(out, &content)
}
