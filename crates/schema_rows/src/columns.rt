//! Rows of columns.

ghost use Rattle.std.specs.Prelude.{◌≡◌, ◌++◌, ◌∷◌, [], OnOk, IfOk};
ghost use Rattle.schema_tables.specs.Seen as shown;
ghost use Rattle.schema_tables.specs.TableRows as spec;

use crate::cells::{
    push_default, push_name, push_object, push_optional_object, push_type, push_yes,
};
use cat_items::{Cell, Row};
use schema_tables::{Beside, SchemaTable, SeenColumn};
use sql_tree::Object;
use std::alloc::{AllocError, Global};

/// The first values of a row of COLUMNS.
fn column_front(alloc: Global, column: SeenColumn<'_>) -> Result<Row, AllocError>
    ensures { IfOk result (λ row. row ≡ spec.column_front (shown.column_of column.entry)) }
{
    let mut row = Row::new(alloc);
    push_object(alloc, &mut row, column.table)?;
    push_name(alloc, &mut row, column.name)?;
    row.push(Cell::Number(column.position))?;
    Ok(row)
}

fn column_row(alloc: Global, column: SeenColumn<'_>) -> Result<Row, AllocError>
    ensures { IfOk result (λ row. row ≡ spec.column_row (shown.column_of column.entry)) }
{
    let mut row = column_front(alloc, column)?;
    push_default(alloc, &mut row, column.default)?;
    push_yes(alloc, &mut row, !column.not_null)?;
    push_type(alloc, &mut row, column.sort)?;
    push_optional_object(alloc, &mut row, column.domain)?;
    Ok(row)
}

fn based_row(alloc: Global, column: SeenColumn<'_>, domain: &Object) -> Result<Row, AllocError>
    ensures { IfOk result (λ row. row ≡ spec.based_row (shown.column_of column.entry) domain.now) }
{
    let mut row = Row::new(alloc);
    push_object(alloc, &mut row, domain)?;
    push_object(alloc, &mut row, column.table)?;
    push_name(alloc, &mut row, column.name)?;
    Ok(row)
}

/// COLUMN_DOMAIN_USAGE
fn based_rows(alloc: Global, out: &mut Vec<Row>, column: SeenColumn<'_>) -> Result<(), AllocError>
    ensures { OnOk result (out.new.items ≡ out.old.items ++ spec.based_rows (shown.column_of column.entry) (shown.column_of column.entry).domain) }
{
    match column.domain {
        None => Ok(()),
        Some(domain) => {
            out.push(based_row(alloc, column, domain)?)?;
            Ok(())
        }
    }
}

pub fn column_rows(
    alloc: Global,
    out: &mut Vec<Row>,
    beside: Beside,
    column: SeenColumn<'_>,
    table: SchemaTable,
) -> Result<(), AllocError>
    ensures { OnOk result (out.new.items ≡ out.old.items ++ spec.column_rows (shown.beside_of beside) (shown.column_of column.entry) table) }
{
    match table {
        SchemaTable::Columns => {
            out.push(column_row(alloc, column)?)?;
            Ok(())
        }
        SchemaTable::ColumnDomainUsage => {
            if beside.option {
                based_rows(alloc, out, column)
            } else {
                Ok(())
            }
        }
        _ => Ok(()),
    }
}
