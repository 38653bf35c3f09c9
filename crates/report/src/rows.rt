// The rows of a tree as text.
use hir::unknown::Unknown;
use reactive::code::Code;
use reactive::given::GivenRow;
use reactive::kind::Kind;
use reactive::row::{Number, RowHead};
use reactive::source::TreeSource;
use std::{fmt, io};

// Prints the case that a byte stands for, or `?`.
fn print_case<T: TryFrom<u8, Error = Unknown> + fmt::Debug + Drop>(
    rt: &HostRuntime,
    byte: u8,
) -> io::Result<()> {
    match T::try_from(byte) {
        Ok(case) => print!(rt; "{case:?}"),
        Err(_) => print!(rt; "?"),
    }
}

// Prints what a row has besides its code: identifier, scope or function, kind.
fn print_fields(rt: &HostRuntime, row: &RowHead) -> io::Result<()> {
    if let Some(id) = row.identifier {
        print!(rt; " ${}", id.0)?;
    }
    match row.number {
        Some(Number::Scope(scope)) => print!(rt; " scope {}", scope.0)?,
        Some(Number::Function(function)) => print!(rt; " function {}", function.0)?,
        None => {}
    }
    if row.is(Code::Leaf) {
        print!(rt; " ")?;
        print_case::<Kind>(rt, row.kind)?;
    }
    Ok(())
}

// Prints the operands of a row.
fn print_operands<S: TreeSource>(rt: &HostRuntime, row: &GivenRow<S>) -> io::Result<()> {
    for id in row.operands() {
        print!(rt; " ${}", id.0)?;
    }
    Ok(())
}

// Prints a row, indented by its depth.
fn print_row<S: TreeSource>(rt: &HostRuntime, row: &GivenRow<S>) -> io::Result<()> {
    let head = row.head();
    for _ in 0..head.depth {
        print!(rt; "  ")?;
    }
    print_case::<Code>(rt, head.code)?;
    print_fields(rt, head)?;
    print_operands(rt, row)?;
    println!(rt; "")
}

// Prints all rows.
pub fn print_rows<S: TreeSource>(rt: &HostRuntime, source: &mut S) -> io::Result<()> {
    source.rewind();
    while let Some(row) = source.next() {
        print_row(rt, &GivenRow::new(row, source))?;
    }
    source.rewind();
    Ok(())
}
