//! Rows of schemas, tables, views, domains and routines.

ghost use Rattle.std.specs.Prelude.{◌≡◌, ◌++◌, ◌∷◌, [], ◌+◌, ◌≤◌, ◌^◌, ◌-◌, length, map, OnOk, IfOk};
ghost use Rattle.schema_tables.specs.Seen as shown;
ghost use Rattle.schema_tables.specs.TableRows as spec;

use crate::cells::{
    push_body, push_default, push_name, push_object, push_query, push_type, push_type_name,
    push_words, push_yes,
};
use cat_items::{Cell, Row, Schema};
use schema_tables::{SchemaTable, SeenDomain, SeenRoutine, SeenView};
use sql_tree::{Object, Param, SqlType};
use std::alloc::{AllocError, Global};

pub fn schema_rows(
    alloc: Global,
    out: &mut Vec<Row>,
    schema: &Schema,
    table: SchemaTable,
) -> Result<(), AllocError>
    ensures { OnOk result (out.new.items ≡ out.old.items ++ spec.schema_rows schema.now table) }
{
    match table {
        SchemaTable::Schemata => {
            let mut row = Row::new(alloc);
            push_name(alloc, &mut row, &schema.name)?;
            push_name(alloc, &mut row, &schema.owner)?;
            out.push(row)?;
            Ok(())
        }
        _ => Ok(()),
    }
}

/// A row of TABLES.
fn kind_row(alloc: Global, object: &Object, kind: &[u8]) -> Result<Row, AllocError>
    ensures { IfOk result (λ row. row ≡ spec.kind_row object.now kind.now) }
{
    let mut row = Row::new(alloc);
    push_object(alloc, &mut row, object)?;
    push_words(alloc, &mut row, kind)?;
    Ok(row)
}

pub fn table_rows(
    alloc: Global,
    out: &mut Vec<Row>,
    object: &Object,
    table: SchemaTable,
) -> Result<(), AllocError>
    ensures { OnOk result (out.new.items ≡ out.old.items ++ spec.table_rows object.now table) }
{
    match table {
        SchemaTable::Tables => {
            out.push(kind_row(alloc, object, b"BASE TABLE")?)?;
            Ok(())
        }
        _ => Ok(()),
    }
}

fn view_row(alloc: Global, view: SeenView<'_>) -> Result<Row, AllocError>
    ensures { IfOk result (λ row. row ≡ spec.view_row (shown.view_of view.entry)) }
{
    let mut row = Row::new(alloc);
    push_object(alloc, &mut row, view.view)?;
    push_query(alloc, &mut row, view.query)?;
    push_words(alloc, &mut row, b"NONE")?;
    push_yes(alloc, &mut row, view.plain)?;
    Ok(row)
}

pub fn view_rows(
    alloc: Global,
    out: &mut Vec<Row>,
    view: SeenView<'_>,
    table: SchemaTable,
) -> Result<(), AllocError>
    ensures { OnOk result (out.new.items ≡ out.old.items ++ spec.view_rows (shown.view_of view.entry) table) }
{
    match table {
        SchemaTable::Tables => {
            out.push(kind_row(alloc, view.view, b"VIEW")?)?;
            Ok(())
        }
        SchemaTable::Views => {
            out.push(view_row(alloc, view)?)?;
            Ok(())
        }
        _ => Ok(()),
    }
}

fn domain_row(alloc: Global, domain: SeenDomain<'_>) -> Result<Row, AllocError>
    ensures { IfOk result (λ row. row ≡ spec.domain_row (shown.domain_of domain.entry)) }
{
    let mut row = Row::new(alloc);
    push_object(alloc, &mut row, domain.domain)?;
    push_type(alloc, &mut row, domain.sort)?;
    push_default(alloc, &mut row, domain.default)?;
    Ok(row)
}

pub fn domain_rows(
    alloc: Global,
    out: &mut Vec<Row>,
    domain: SeenDomain<'_>,
    table: SchemaTable,
) -> Result<(), AllocError>
    ensures { OnOk result (out.new.items ≡ out.old.items ++ spec.domain_rows (shown.domain_of domain.entry) table) }
{
    match table {
        SchemaTable::Domains => {
            out.push(domain_row(alloc, domain)?)?;
            Ok(())
        }
        _ => Ok(()),
    }
}

/// FUNCTION and the name of the type that it returns, or PROCEDURE and null.
fn push_routine_kind(
    alloc: Global,
    row: &mut Row,
    returns: Option<SqlType>,
) -> Result<(), AllocError>
    ensures { OnOk result (row.new ≡ row.old ++ spec.routine_kind returns) }
{
    match returns {
        None => {
            push_words(alloc, row, b"PROCEDURE")?;
            row.push(Cell::Null)
        }
        Some(sort) => {
            push_words(alloc, row, b"FUNCTION")?;
            push_type_name(alloc, row, sort)
        }
    }
}

fn routine_row(alloc: Global, routine: SeenRoutine<'_>) -> Result<Row, AllocError>
    ensures { IfOk result (λ row. row ≡ spec.routine_row (shown.routine_of routine.entry)) }
{
    let mut row = Row::new(alloc);
    push_object(alloc, &mut row, routine.routine)?;
    push_routine_kind(alloc, &mut row, routine.returns)?;
    push_body(alloc, &mut row, routine.body)?;
    Ok(row)
}

fn parameter_row(
    alloc: Global,
    routine: &Object,
    position: u64,
    param: &Param,
) -> Result<Row, AllocError>
    ensures { IfOk result (λ row. row ≡ spec.parameter_row routine.now (position, param.now)) }
{
    let mut row = Row::new(alloc);
    push_object(alloc, &mut row, routine)?;
    row.push(Cell::Number(position))?;
    push_words(alloc, &mut row, b"IN")?;
    push_name(alloc, &mut row, &param.name)?;
    push_type_name(alloc, &mut row, param.sort)?;
    Ok(row)
}

/// Parameters, with their numbers from `first`.
fn parameters(
    alloc: Global,
    out: &mut Vec<Row>,
    routine: &Object,
    params: &[Param],
    first: u64,
) -> Result<(), AllocError>
    requires { first + length params.now ≤ 2 ^ 64 - 1 }
    ensures { OnOk result (out.new.items ≡ out.old.items ++ map (spec.parameter_row routine.now) (spec.numbered first params.now)) }
{
    match params {
        [] => Ok(()),
        [param, rest @ ..] => {
            out.push(parameter_row(alloc, routine, first, param)?)?;
            parameters(alloc, out, routine, rest, first + 1)
        }
    }
}

pub fn routine_rows(
    alloc: Global,
    out: &mut Vec<Row>,
    routine: SeenRoutine<'_>,
    table: SchemaTable,
) -> Result<(), AllocError>
    ensures { OnOk result (out.new.items ≡ out.old.items ++ spec.routine_rows (shown.routine_of routine.entry) table) }
{
    match table {
        SchemaTable::Routines => {
            out.push(routine_row(alloc, routine)?)?;
            Ok(())
        }
        SchemaTable::Parameters => {
            parameters(alloc, out, routine.routine, routine.params.as_slice(), 1)
        }
        _ => Ok(()),
    }
}
