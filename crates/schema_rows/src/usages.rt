//! Tables and columns that needs are on.

ghost use Rattle.std.specs.Prelude.{◌≡◌, ◌++◌, ◌∷◌, [], OnOk};
ghost use Rattle.schema_tables.specs.Cells.{object_cells};
ghost use Rattle.schema_tables.specs.TableRows as spec;

use crate::cells::{push_name, push_object, push_path};
use cat_items::{Need, Row};
use sql_tree::{Action, Object};
use std::alloc::{AllocError, Global};

/// Whether an action is one on tables.
fn is_on_tables(action: Action) -> bool
    ensures { result ≡ spec.is_on_tables action }
{
    !matches!(action, Action::Usage | Action::Execute | Action::Admin)
}

fn uses_table(
    alloc: Global,
    out: &mut Vec<Row>,
    object: &Object,
    need: &Need,
) -> Result<(), AllocError>
    ensures { OnOk result (out.new.items ≡ out.old.items ++ spec.behind (object_cells object.now) (spec.table_on need.now.on need.now.action)) }
{
    if is_on_tables(need.action) {
        let mut row = Row::new(alloc);
        push_object(alloc, &mut row, object)?;
        push_path(alloc, &mut row, &need.on)?;
        out.push(row)?;
    }
    Ok(())
}

fn uses_column(
    alloc: Global,
    out: &mut Vec<Row>,
    object: &Object,
    need: &Need,
) -> Result<(), AllocError>
    ensures { OnOk result (out.new.items ≡ out.old.items ++ spec.behind (object_cells object.now) (spec.column_on need.now.on need.now.column)) }
{
    if let Some(column) = &need.column {
        let mut row = Row::new(alloc);
        push_object(alloc, &mut row, object)?;
        push_path(alloc, &mut row, &need.on)?;
        push_name(alloc, &mut row, column)?;
        out.push(row)?;
    }
    Ok(())
}

fn table_used(
    alloc: Global,
    out: &mut Vec<Row>,
    object: &Object,
    need: &Need,
) -> Result<(), AllocError>
    ensures { OnOk result (out.new.items ≡ out.old.items ++ spec.in_front (object_cells object.now) (spec.table_on need.now.on need.now.action)) }
{
    if is_on_tables(need.action) {
        let mut row = Row::new(alloc);
        push_path(alloc, &mut row, &need.on)?;
        push_object(alloc, &mut row, object)?;
        out.push(row)?;
    }
    Ok(())
}

fn column_used(
    alloc: Global,
    out: &mut Vec<Row>,
    object: &Object,
    need: &Need,
) -> Result<(), AllocError>
    ensures { OnOk result (out.new.items ≡ out.old.items ++ spec.in_front (object_cells object.now) (spec.column_on need.now.on need.now.column)) }
{
    if let Some(column) = &need.column {
        let mut row = Row::new(alloc);
        push_path(alloc, &mut row, &need.on)?;
        push_name(alloc, &mut row, column)?;
        push_object(alloc, &mut row, object)?;
        out.push(row)?;
    }
    Ok(())
}

pub fn uses_tables(
    alloc: Global,
    out: &mut Vec<Row>,
    object: &Object,
    needs: &[Need],
) -> Result<(), AllocError>
    ensures { OnOk result (out.new.items ≡ out.old.items ++ spec.uses_tables object.now needs.now) }
{
    match needs {
        [] => Ok(()),
        [need, rest @ ..] => {
            uses_table(alloc, out, object, need)?;
            uses_tables(alloc, out, object, rest)
        }
    }
}

pub fn uses_columns(
    alloc: Global,
    out: &mut Vec<Row>,
    object: &Object,
    needs: &[Need],
) -> Result<(), AllocError>
    ensures { OnOk result (out.new.items ≡ out.old.items ++ spec.uses_columns object.now needs.now) }
{
    match needs {
        [] => Ok(()),
        [need, rest @ ..] => {
            uses_column(alloc, out, object, need)?;
            uses_columns(alloc, out, object, rest)
        }
    }
}

pub fn tables_used(
    alloc: Global,
    out: &mut Vec<Row>,
    object: &Object,
    needs: &[Need],
) -> Result<(), AllocError>
    ensures { OnOk result (out.new.items ≡ out.old.items ++ spec.tables_used object.now needs.now) }
{
    match needs {
        [] => Ok(()),
        [need, rest @ ..] => {
            table_used(alloc, out, object, need)?;
            tables_used(alloc, out, object, rest)
        }
    }
}

pub fn columns_used(
    alloc: Global,
    out: &mut Vec<Row>,
    object: &Object,
    needs: &[Need],
) -> Result<(), AllocError>
    ensures { OnOk result (out.new.items ≡ out.old.items ++ spec.columns_used object.now needs.now) }
{
    match needs {
        [] => Ok(()),
        [need, rest @ ..] => {
            column_used(alloc, out, object, need)?;
            columns_used(alloc, out, object, rest)
        }
    }
}
