//! The tables of the Definition Schema.

ghost use Rattle.std.specs.Prelude.{◌≡◌, All, IfOk};
ghost use Rattle.sql_names.specs.Names.{IsName};
ghost use Rattle.definition_schema.specs.Tables.{AreTables, IsDefinition, IsTableOf, names_of};

use cat_items::{Catalogue, Row};
use schema_tables::{DEFINITION, SchemaTable};
use shown_items::{Viewer, table_rows};
use sql_tree::Name;
use std::alloc::{AllocError, Global};

/// A table of the Definition Schema.
#[derive(Drop)]
pub struct DefTable {
    pub name: Name,
    /// Its rows, in order and each once.
    pub rows: Vec<Row>,
}

/// The tables of the Definition Schema, in their order.
#[derive(Drop)]
pub struct DefRows {
    pub tables: Vec<DefTable>,
}

fn table_name(alloc: Global, name: &[u8]) -> Result<Name, AllocError>
    requires { IsName name.now }
    ensures { IfOk result (λ made. made ≡ name.now) }
{
    match Name::of(alloc, name)? {
        Some(made) => Ok(made),
        None => unreachable!(),
    }
}

fn table(
    alloc: Global,
    c: &Catalogue,
    which: SchemaTable,
    name: &[u8],
) -> Result<DefTable, AllocError>
    requires { IsName name.now }
    ensures { IfOk result (IsTableOf c.now.items which name.now) }
{
    let name = table_name(alloc, name)?;
    let rows = table_rows(alloc, c, Viewer::Whole, which, None)?;
    Ok(DefTable { name, rows })
}

// The tables of these names.
fn tables_of(
    alloc: Global,
    c: &Catalogue,
    entries: &[(SchemaTable, &[u8])],
) -> Result<Vec<DefTable>, AllocError>
    requires { All (λ entry. IsName entry.1) (names_of entries.now) }
    ensures { IfOk result (λ tables. AreTables c.now.items (names_of entries.now) tables.items) }
{
    let mut tables = Vec::new(alloc);
    for (which, name) in entries {
        tables.push(table(alloc, c, *which, name)?)?;
    }
    Ok(tables)
}

/// The tables of the Definition Schema of a catalogue, with nothing hidden. `Err` is want of memory.
pub fn tables(alloc: Global, c: &Catalogue) -> Result<DefRows, AllocError>
    ensures { IfOk result (λ found. IsDefinition c.now.items found.tables.items) }
{
    let tables = tables_of(alloc, c, &DEFINITION)?;
    Ok(DefRows { tables })
}
