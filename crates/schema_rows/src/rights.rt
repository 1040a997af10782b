//! Rows of privileges.

ghost use Rattle.std.specs.Prelude.{◌≡◌, ◌++◌, ◌∷◌, [], Some, OnOk, IfOk};
ghost use Rattle.std.specs.Option.{option_copied};
ghost use Rattle.cat_items.specs.declared.row.Cell.TheVariants as cell;
ghost use Rattle.schema_tables.specs.Cells as values;
ghost use Rattle.schema_tables.specs.Seen as shown;
ghost use Rattle.schema_tables.specs.TableRows as spec;

use crate::cells::{push_action, push_auth, push_name, push_path, push_words, push_yes};
use cat_items::{Right, Row};
use schema_tables::{Beside, SchemaTable};
use sql_tree::{Action, Name};
use std::alloc::{AllocError, Global};

/// From whom, for whom, and on what.
fn right_front(alloc: Global, right: &Right) -> Result<Row, AllocError>
    ensures { IfOk result (λ row. row ≡ spec.right_front right.now) }
{
    let mut row = Row::new(alloc);
    push_auth(alloc, &mut row, &right.grantor)?;
    push_auth(alloc, &mut row, &right.grantee)?;
    push_path(alloc, &mut row, &right.need.on)?;
    Ok(row)
}

/// The action, and whether it may be granted.
fn push_right_end(
    alloc: Global,
    row: &mut Row,
    right: &Right,
    grantable: bool,
) -> Result<(), AllocError>
    ensures { OnOk result (row.new ≡ row.old ++ spec.right_end right.now grantable) }
{
    push_action(alloc, row, right.need.action)?;
    push_yes(alloc, row, grantable)
}

/// A privilege on a table or a routine.
fn object_row(alloc: Global, right: &Right, grantable: bool) -> Result<Row, AllocError>
    ensures { IfOk result (λ row. row ≡ spec.right_row right.now [] grantable) }
{
    let mut row = right_front(alloc, right)?;
    push_right_end(alloc, &mut row, right, grantable)?;
    Ok(row)
}

fn column_row(
    alloc: Global,
    right: &Right,
    column: &Name,
    grantable: bool,
) -> Result<Row, AllocError>
    ensures { IfOk result (λ row. row ≡ spec.right_row right.now (cell.Words column.now ∷ []) grantable) }
{
    let mut row = right_front(alloc, right)?;
    push_name(alloc, &mut row, column)?;
    push_right_end(alloc, &mut row, right, grantable)?;
    Ok(row)
}

fn domain_row(alloc: Global, right: &Right, grantable: bool) -> Result<Row, AllocError>
    ensures { IfOk result (λ row. row ≡ spec.right_row right.now spec.domain_kind grantable) }
{
    let mut row = right_front(alloc, right)?;
    push_words(alloc, &mut row, b"DOMAIN")?;
    push_right_end(alloc, &mut row, right, grantable)?;
    Ok(row)
}

fn table_right_rows(
    alloc: Global,
    out: &mut Vec<Row>,
    beside: Beside,
    right: &Right,
    table: SchemaTable,
) -> Result<(), AllocError>
    ensures { OnOk result (out.new.items ≡ out.old.items ++ spec.right_rows_of table spec.on_table (shown.beside_of beside) right.now) }
{
    match table {
        SchemaTable::TablePrivileges => {
            out.push(object_row(alloc, right, beside.option)?)?;
            Ok(())
        }
        SchemaTable::RoleTableGrants => {
            if beside.role {
                out.push(object_row(alloc, right, beside.option)?)?;
            }
            Ok(())
        }
        _ => Ok(()),
    }
}

fn column_right_rows(
    alloc: Global,
    out: &mut Vec<Row>,
    beside: Beside,
    right: &Right,
    column: &Name,
    table: SchemaTable,
) -> Result<(), AllocError>
    requires { right.now.need.column ≡ Some column.now }
    ensures { OnOk result (out.new.items ≡ out.old.items ++ spec.right_rows_of table spec.on_column (shown.beside_of beside) right.now) }
{
    match table {
        SchemaTable::ColumnPrivileges => {
            out.push(column_row(alloc, right, column, beside.option)?)?;
            Ok(())
        }
        SchemaTable::RoleColumnGrants => {
            if beside.role {
                out.push(column_row(alloc, right, column, beside.option)?)?;
            }
            Ok(())
        }
        _ => Ok(()),
    }
}

fn domain_right_rows(
    alloc: Global,
    out: &mut Vec<Row>,
    beside: Beside,
    right: &Right,
    table: SchemaTable,
) -> Result<(), AllocError>
    ensures { OnOk result (out.new.items ≡ out.old.items ++ spec.right_rows_of table spec.on_domain (shown.beside_of beside) right.now) }
{
    match table {
        SchemaTable::UsagePrivileges => {
            out.push(domain_row(alloc, right, beside.option)?)?;
            Ok(())
        }
        SchemaTable::RoleUsageGrants => {
            if beside.role {
                out.push(domain_row(alloc, right, beside.option)?)?;
            }
            Ok(())
        }
        _ => Ok(()),
    }
}

fn routine_right_rows(
    alloc: Global,
    out: &mut Vec<Row>,
    beside: Beside,
    right: &Right,
    table: SchemaTable,
) -> Result<(), AllocError>
    ensures { OnOk result (out.new.items ≡ out.old.items ++ spec.right_rows_of table spec.on_routine (shown.beside_of beside) right.now) }
{
    match table {
        SchemaTable::RoutinePrivileges => {
            out.push(object_row(alloc, right, beside.option)?)?;
            Ok(())
        }
        SchemaTable::RoleRoutineGrants => {
            if beside.role {
                out.push(object_row(alloc, right, beside.option)?)?;
            }
            Ok(())
        }
        _ => Ok(()),
    }
}

/// Those of a privilege on a table, or on a column of it.
fn table_action_rows(
    alloc: Global,
    out: &mut Vec<Row>,
    beside: Beside,
    right: &Right,
    table: SchemaTable,
) -> Result<(), AllocError>
    ensures { OnOk result (out.new.items ≡ out.old.items ++ spec.right_rows_of table (spec.table_or_column right.now.need.column) (shown.beside_of beside) right.now) }
{
    match &right.need.column {
        None => table_right_rows(alloc, out, beside, right, table),
        Some(column) => column_right_rows(alloc, out, beside, right, column, table),
    }
}

pub fn right_rows(
    alloc: Global,
    out: &mut Vec<Row>,
    beside: Beside,
    right: &Right,
    table: SchemaTable,
) -> Result<(), AllocError>
    ensures { OnOk result (out.new.items ≡ out.old.items ++ spec.right_rows (shown.beside_of beside) right.now table) }
{
    match right.need.action {
        Action::Usage => domain_right_rows(alloc, out, beside, right, table),
        Action::Execute => routine_right_rows(alloc, out, beside, right, table),
        Action::Admin => Ok(()),
        _ => table_action_rows(alloc, out, beside, right, table),
    }
}
