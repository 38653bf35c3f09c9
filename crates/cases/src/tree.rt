// Trees, read row by row.
ghost use Rattle.std.specs.Prelude.{◌≡◌};
ghost use Rattle.reactive.specs.Tables.{table_reading, table_source};

use crate::fault::Fault;
use crate::names::Names;
use crate::words::{first_word, list, number};
use hir::ids::{FunctionId, IdentifierId, ScopeId};
use reactive::row::Number;
use reactive::table::{RowEntry, TableSource};
use std::alloc::Global;

// A table of rows, and the pool of their lists.
#[derive(Drop)]
pub struct Tree {
    pub rows: Vec<RowEntry>,
    pub pool: Vec<u32>,
}

impl Tree {
    // No rows.
    pub fn new(heap: Global) -> Tree {
        Tree {
            rows: Vec::new(heap),
            pool: Vec::new(heap),
        }
    }

    // Adds the rows of a line: `DEPTH CODE FIELD..`, with `; ` between two rows.
    pub fn add_rows(&mut self, names: &Names, text: &str) -> Result<(), Fault> {
        for row in text.split("; ") {
            self.add_row(names, row)?;
        }
        Ok(())
    }

    // The rows as a source, from the first on.
    pub fn source(&self) -> TableSource<'_>
        ensures { table_source result ≡ table_reading self.now.rows.items self.now.pool.items 0 }
    {
        TableSource::new(&self.rows, &self.pool)
    }

    // Adds one row.
    fn add_row(&mut self, names: &Names, text: &str) -> Result<(), Fault> {
        let (depth, rest) = first_word(text);
        let (name, fields) = first_word(rest);
        let mut row = bare_row(number(depth)?, names.code(name)?);
        if !fields.is_empty() {
            set_fields(&mut row, &mut self.pool, names, fields)?;
        }
        self.rows.push(row)?;
        Ok(())
    }
}

// A row that has only a depth and a code.
fn bare_row(depth: u32, code: u8) -> RowEntry {
    RowEntry {
        depth,
        code,
        ..RowEntry::default()
    }
}

// Sets the fields `NAME=VALUE` of a row, with a space between two of them.
fn set_fields(
    row: &mut RowEntry,
    pool: &mut Vec<u32>,
    names: &Names,
    fields: &str,
) -> Result<(), Fault> {
    for field in fields.split(' ') {
        let (name, value) = field.split_once('=').ok_or(Fault::Line)?;
        set_field(row, pool, names, name, value)?;
    }
    Ok(())
}

// Sets a field by its name.
fn set_field(
    row: &mut RowEntry,
    pool: &mut Vec<u32>,
    names: &Names,
    name: &str,
    value: &str,
) -> Result<(), Fault> {
    match name {
        "id" => row.identifier = Some(IdentifierId(number(value)?)),
        "scope" => row.number = Some(Number::Scope(ScopeId(number(value)?))),
        "function" => row.number = Some(Number::Function(FunctionId(number(value)?))),
        "kind" => row.kind = names.kind(value)?,
        "mode" => row.mode = number(value)?,
        "operands" => row.operands = list(pool, value)?,
        "marks" => row.marks = list(pool, value)?,
        _ => return Err(Fault::Line),
    }
    Ok(())
}
