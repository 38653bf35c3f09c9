// A whole image.
ghost use Rattle.std.specs.Prelude.{◌≡◌, ℕ, List, map, length, IfErr, IfOk, OnOk};
ghost use Rattle.hir.specs.Lists.{Each};
ghost use Rattle.image.specs.Format.{of_scope, of_function, section};
ghost use Rattle.image_tables.specs.Tables.{Within, scope_lists, function_lists};
ghost use Rattle.image_encode.specs.declared.fault.EncodeFault.TheVariants.{Unfit};
ghost use Rattle.image_encode.specs.Fits.{ScopeWithin, FunctionWithin, ScopeFits, FunctionFits, PanelFits};
ghost use Rattle.image_encode.specs.Panels.{PutTrees, lent, lent_rewound, lent_rows};
ghost use Rattle.image_encode.specs.Puts.{PutAll};
ghost use Rattle.image_encode.specs.Values.{Encoded};

use crate::fault::EncodeFault;
use crate::panel::Panel;
use crate::section::{write_function, write_identifiers, write_panel, write_scope};
use hir::tables::{Function, Identifier, Scope};
use reactive::source::TreeSource;
use std::alloc::Global;

// The S sections.
fn write_scopes(
    heap: Global,
    out: &mut Vec<u8>,
    pool: &[u32],
    scopes: &[Scope],
) -> Result<(), EncodeFault>
    ensures items { OnOk result (Each (ScopeWithin (length pool.now)) scopes.now × PutAll (section 1) (map (λ s. of_scope (scope_lists pool.now s)) scopes.now) out.old.items out.new.items) }
    ensures fault { IfErr result (λ e. (e ≡ Unfit → Each (ScopeFits pool.now) scopes.now → ⊥)) }
{
    for scope in scopes {
        write_scope(heap, out, pool, scope)?;
    }
    Ok(())
}

// The F sections.
fn write_functions(
    heap: Global,
    out: &mut Vec<u8>,
    pool: &[u32],
    functions: &[Function],
) -> Result<(), EncodeFault>
    ensures items { OnOk result (Each (FunctionWithin (length pool.now)) functions.now × PutAll (section 2) (map (λ f. of_function (function_lists pool.now f)) functions.now) out.old.items out.new.items) }
    ensures fault { IfErr result (λ e. (e ≡ Unfit → Each (FunctionFits pool.now) functions.now → ⊥)) }
{
    for function in functions {
        write_function(heap, out, pool, function)?;
    }
    Ok(())
}

// The T sections.
fn write_panels<S: TreeSource>(
    heap: Global,
    out: &mut Vec<u8>,
    pool: &[u32],
    panels: &mut [Panel<S>],
) -> Result<(), EncodeFault>
    ensures items { OnOk result (Each (λ l. Within (length pool.now) l.0) (map (lent S.TreeSource.reading) panels.old) × PutTrees pool.now (map (lent S.TreeSource.reading) panels.old) out.old.items out.new.items) }
    ensures fault { IfErr result (λ e. (e ≡ Unfit → Each (PanelFits pool.now) (map (lent S.TreeSource.reading) panels.old) → ⊥)) }
    ensures rewound { OnOk result (map (lent S.TreeSource.reading) panels.new ≡ map lent_rewound (map (lent S.TreeSource.reading) panels.old)) }
    ensures rows { map lent_rows (map (lent S.TreeSource.reading) panels.new) ≡ map lent_rows (map (lent S.TreeSource.reading) panels.old) }
{
    for i in 0..panels.len() {
        write_panel(heap, out, pool, &mut panels[i])?;
    }
    Ok(())
}

// The image of tables whose lists lie in a pool, and of the rows of sources.
pub fn encode<S: TreeSource>(
    heap: Global,
    identifiers: &[Identifier],
    scopes: &[Scope],
    functions: &[Function],
    pool: &[u32],
    panels: &mut [Panel<S>],
) -> Result<Vec<u8>, EncodeFault>
    ensures image { IfOk result (λ v. Encoded identifiers.now scopes.now functions.now pool.now (map (lent S.TreeSource.reading) panels.old) v.items) }
    ensures none { IfErr result (λ e. (e ≡ Unfit → (bs : List ℕ) → Encoded identifiers.now scopes.now functions.now pool.now (map (lent S.TreeSource.reading) panels.old) bs → ⊥)) }
    ensures rewound { IfOk result (λ v. map (lent S.TreeSource.reading) panels.new ≡ map lent_rewound (map (lent S.TreeSource.reading) panels.old)) }
    ensures rows { map lent_rows (map (lent S.TreeSource.reading) panels.new) ≡ map lent_rows (map (lent S.TreeSource.reading) panels.old) }
{
    let mut out = Vec::new(heap);
    out.push(1)?;
    write_identifiers(heap, &mut out, identifiers)?;
    write_scopes(heap, &mut out, pool, scopes)?;
    write_functions(heap, &mut out, pool, functions)?;
    write_panels(heap, &mut out, pool, panels)?;
    Ok(out)
}
