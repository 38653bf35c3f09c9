// The tables of an image as text.
use hir::tag::Tag;
use image_tables::tables::Tables;
use std::io;

// The numbers of a list, each behind a mark, or a dash for none.
pub fn print_list(rt: &HostRuntime, list: &[u32], mark: &str) -> io::Result<()> {
    if list.is_empty() {
        return print!(rt; " -");
    }
    for number in list {
        print!(rt; " {mark}{number}")?;
    }
    Ok(())
}

// The I section: the declaration and the tag of each identifier.
pub fn print_identifiers(rt: &HostRuntime, tables: &Tables) -> io::Result<()> {
    println!(rt; "I: {} identifiers", tables.identifiers.len())?;
    for (i, row) in tables.identifiers.iter().enumerate() {
        print!(rt; "  ${i} declaration {} ", row.declaration.0)?;
        match Tag::try_from(row.tag) {
            Ok(tag) => println!(rt; "{tag:?}")?,
            Err(unknown) => println!(rt; "tag {}", unknown.0)?,
        }
    }
    Ok(())
}

// The S sections.
pub fn print_scopes(rt: &HostRuntime, tables: &Tables) -> io::Result<()> {
    for (i, scope) in tables.scopes.iter().enumerate() {
        print!(rt; "S {i}: dependencies")?;
        print_list(rt, scope.dependencies.of(&tables.pool), "$")?;
        print!(rt; ", declarations")?;
        print_list(rt, scope.declarations.of(&tables.pool), "$")?;
        print!(rt; ", reassignments")?;
        print_list(rt, scope.reassignments.of(&tables.pool), "$")?;
        println!(rt; "")?;
    }
    Ok(())
}

// The F sections.
pub fn print_functions(rt: &HostRuntime, tables: &Tables) -> io::Result<()> {
    for (i, function) in tables.functions.iter().enumerate() {
        print!(rt; "F {i}: parameters")?;
        print_list(rt, function.parameters.of(&tables.pool), "$")?;
        print!(rt; ", nested")?;
        print_list(rt, function.nested.of(&tables.pool), "")?;
        println!(rt; "")?;
    }
    Ok(())
}
