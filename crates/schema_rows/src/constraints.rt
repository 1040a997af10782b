//! Rows of constraints and assertions.

ghost use Rattle.std.specs.Prelude.{◌≡◌, ◌++◌, ◌∷◌, [], ◌+◌, ◌≤◌, ◌^◌, ◌-◌, length, map, OnOk, IfOk};
ghost use Rattle.schema_tables.specs.TableRows as spec;

use crate::cells::{push_expr, push_matching, push_name, push_object, push_rule, push_words};
use crate::usages::{columns_used, tables_used, uses_columns, uses_tables};
use cat_items::{Assertion, Cell, Check, DomainCheck, Foreign, Key, Need, Row};
use schema_tables::SchemaTable;
use sql_tree::{Expr, Name, Object};
use std::alloc::{AllocError, Global};

/// The names of two objects.
fn pair_row(alloc: Global, first: &Object, second: &Object) -> Result<Row, AllocError>
    ensures { IfOk result (λ row. row ≡ spec.pair_row first.now second.now) }
{
    let mut row = Row::new(alloc);
    push_object(alloc, &mut row, first)?;
    push_object(alloc, &mut row, second)?;
    Ok(row)
}

/// A row of CHECK_CONSTRAINTS.
fn check_row(alloc: Global, name: &Object, condition: &Expr) -> Result<Row, AllocError>
    ensures { IfOk result (λ row. row ≡ spec.check_row name.now condition.now) }
{
    let mut row = Row::new(alloc);
    push_object(alloc, &mut row, name)?;
    push_expr(alloc, &mut row, condition)?;
    Ok(row)
}

/// The rows of a check, a domain check or an assertion of this condition and these needs.
fn check_rows(
    alloc: Global,
    out: &mut Vec<Row>,
    name: &Object,
    condition: &Expr,
    needs: &[Need],
    table: SchemaTable,
) -> Result<(), AllocError>
    ensures { OnOk result (out.new.items ≡ out.old.items ++ spec.check_rows name.now condition.now needs.now table) }
{
    match table {
        SchemaTable::CheckConstraints => {
            out.push(check_row(alloc, name, condition)?)?;
            Ok(())
        }
        SchemaTable::CheckTableUsage => uses_tables(alloc, out, name, needs),
        SchemaTable::CheckColumnUsage => uses_columns(alloc, out, name, needs),
        SchemaTable::ConstraintTableUsage => tables_used(alloc, out, name, needs),
        SchemaTable::ConstraintColumnUsage => columns_used(alloc, out, name, needs),
        _ => Ok(()),
    }
}

/// A row of TABLE_CONSTRAINTS.
fn constraint_row(
    alloc: Global,
    name: &Object,
    table: &Object,
    kind: &[u8],
) -> Result<Row, AllocError>
    ensures { IfOk result (λ row. row ≡ spec.table_constraint name.now table.now kind.now) }
{
    let mut row = Row::new(alloc);
    push_object(alloc, &mut row, name)?;
    push_object(alloc, &mut row, table)?;
    push_words(alloc, &mut row, kind)?;
    Ok(row)
}

fn key_row(
    alloc: Global,
    name: &Object,
    table: &Object,
    column: &Name,
    position: u64,
) -> Result<Row, AllocError>
    ensures { IfOk result (λ row. row ≡ spec.key_usage_row name.now table.now (position, column.now)) }
{
    let mut row = Row::new(alloc);
    push_object(alloc, &mut row, name)?;
    push_object(alloc, &mut row, table)?;
    push_name(alloc, &mut row, column)?;
    row.push(Cell::Number(position))?;
    Ok(row)
}

/// The columns of a key or a foreign key, with their numbers from `first`.
fn key_usage(
    alloc: Global,
    out: &mut Vec<Row>,
    name: &Object,
    table: &Object,
    columns: &[Name],
    first: u64,
) -> Result<(), AllocError>
    requires { first + length columns.now ≤ 2 ^ 64 - 1 }
    ensures { OnOk result (out.new.items ≡ out.old.items ++ map (spec.key_usage_row name.now table.now) (spec.numbered first columns.now)) }
{
    match columns {
        [] => Ok(()),
        [column, rest @ ..] => {
            out.push(key_row(alloc, name, table, column, first)?)?;
            key_usage(alloc, out, name, table, rest, first + 1)
        }
    }
}

fn named_column_row(
    alloc: Global,
    name: &Object,
    table: &Object,
    column: &Name,
) -> Result<Row, AllocError>
    ensures { IfOk result (λ row. row ≡ spec.constraint_column name.now table.now column.now) }
{
    let mut row = Row::new(alloc);
    push_object(alloc, &mut row, table)?;
    push_name(alloc, &mut row, column)?;
    push_object(alloc, &mut row, name)?;
    Ok(row)
}

/// The columns that a key or a foreign key names.
fn constraint_columns(
    alloc: Global,
    out: &mut Vec<Row>,
    name: &Object,
    table: &Object,
    columns: &[Name],
) -> Result<(), AllocError>
    ensures { OnOk result (out.new.items ≡ out.old.items ++ spec.constraint_columns name.now table.now columns.now) }
{
    match columns {
        [] => Ok(()),
        [column, rest @ ..] => {
            out.push(named_column_row(alloc, name, table, column)?)?;
            constraint_columns(alloc, out, name, table, rest)
        }
    }
}

pub fn domain_check_rows(
    alloc: Global,
    out: &mut Vec<Row>,
    check: &DomainCheck,
    table: SchemaTable,
) -> Result<(), AllocError>
    ensures { OnOk result (out.new.items ≡ out.old.items ++ spec.domain_check_rows check.now table) }
{
    match table {
        SchemaTable::DomainConstraints => {
            out.push(pair_row(alloc, &check.name, &check.domain)?)?;
            Ok(())
        }
        _ => check_rows(
            alloc,
            out,
            &check.name,
            &check.cond,
            check.needs.as_slice(),
            table,
        ),
    }
}

fn key_kind(primary: bool) -> &'static [u8]
    ensures { result.now ≡ spec.key_kind primary }
{
    if primary { b"PRIMARY KEY" } else { b"UNIQUE" }
}

pub fn key_rows(
    alloc: Global,
    out: &mut Vec<Row>,
    key: &Key,
    table: SchemaTable,
) -> Result<(), AllocError>
    ensures { OnOk result (out.new.items ≡ out.old.items ++ spec.key_rows key.now table) }
{
    match table {
        SchemaTable::TableConstraints => {
            out.push(constraint_row(alloc, &key.name, &key.table, key_kind(key.primary))?)?;
            Ok(())
        }
        SchemaTable::KeyColumnUsage => {
            key_usage(alloc, out, &key.name, &key.table, key.columns.as_slice(), 1)
        }
        SchemaTable::ConstraintTableUsage => {
            out.push(pair_row(alloc, &key.table, &key.name)?)?;
            Ok(())
        }
        SchemaTable::ConstraintColumnUsage => {
            constraint_columns(alloc, out, &key.name, &key.table, key.columns.as_slice())
        }
        _ => Ok(()),
    }
}

fn referential_row(alloc: Global, key: &Foreign) -> Result<Row, AllocError>
    ensures { IfOk result (λ row. row ≡ spec.referential_row key.now) }
{
    let mut row = Row::new(alloc);
    push_object(alloc, &mut row, &key.name)?;
    push_object(alloc, &mut row, &key.key)?;
    push_matching(alloc, &mut row, key.matching)?;
    push_rule(alloc, &mut row, key.on_update)?;
    push_rule(alloc, &mut row, key.on_delete)?;
    Ok(row)
}

pub fn foreign_rows(
    alloc: Global,
    out: &mut Vec<Row>,
    key: &Foreign,
    table: SchemaTable,
) -> Result<(), AllocError>
    ensures { OnOk result (out.new.items ≡ out.old.items ++ spec.foreign_rows key.now table) }
{
    match table {
        SchemaTable::TableConstraints => {
            out.push(constraint_row(alloc, &key.name, &key.table, b"FOREIGN KEY")?)?;
            Ok(())
        }
        SchemaTable::ReferentialConstraints => {
            out.push(referential_row(alloc, key)?)?;
            Ok(())
        }
        SchemaTable::KeyColumnUsage => {
            key_usage(alloc, out, &key.name, &key.table, key.columns.as_slice(), 1)
        }
        SchemaTable::ConstraintTableUsage => {
            out.push(pair_row(alloc, &key.target, &key.name)?)?;
            Ok(())
        }
        SchemaTable::ConstraintColumnUsage => {
            constraint_columns(
                alloc,
                out,
                &key.name,
                &key.target,
                key.target_columns.as_slice(),
            )
        }
        _ => Ok(()),
    }
}

pub fn table_check_rows(
    alloc: Global,
    out: &mut Vec<Row>,
    check: &Check,
    table: SchemaTable,
) -> Result<(), AllocError>
    ensures { OnOk result (out.new.items ≡ out.old.items ++ spec.table_check_rows check.now table) }
{
    match table {
        SchemaTable::TableConstraints => {
            out.push(constraint_row(alloc, &check.name, &check.table, b"CHECK")?)?;
            Ok(())
        }
        _ => check_rows(
            alloc,
            out,
            &check.name,
            &check.cond,
            check.needs.as_slice(),
            table,
        ),
    }
}

pub fn assertion_rows(
    alloc: Global,
    out: &mut Vec<Row>,
    assertion: &Assertion,
    table: SchemaTable,
) -> Result<(), AllocError>
    ensures { OnOk result (out.new.items ≡ out.old.items ++ spec.assertion_rows assertion.now table) }
{
    match table {
        SchemaTable::Assertions => {
            let mut row = Row::new(alloc);
            push_object(alloc, &mut row, &assertion.name)?;
            out.push(row)?;
            Ok(())
        }
        _ => check_rows(
            alloc,
            out,
            &assertion.name,
            &assertion.cond,
            assertion.needs.as_slice(),
            table,
        ),
    }
}
