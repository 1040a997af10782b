//! The rows that pass the tests, and of these the columns that are asked for.

ghost use Rattle.std.specs.Prelude.{◌≡◌, ◌++◌, ◌∷◌, [], map, IfOk, OnOk, unwrap_or};
ghost use Rattle.std.specs.List.{list_all};
ghost use Rattle.std.specs.Option.{option_copied};
ghost use Rattle.cat_items.specs.declared.row.Cell.TheVariants.{Null};
ghost use Rattle.information_schema.specs.Queries as spec;
ghost use Rattle.information_schema.specs.Views.{columns_of};

use crate::numbers::is_worth;
use crate::views::column_named;
use cat_items::{Cell, Row};
use schema_tables::Sort;
use sql_tree::{InfoColumns, InfoQuery, InfoTest, InfoValue, Name};
use std::alloc::{AllocError, Global};

/// The value of a row in a column; none for null where there is no such value.
fn value<'a>(columns: &[(&[u8], Sort)], row: &'a [Cell], name: &Name) -> Option<&'a Cell>
    ensures { unwrap_or (option_copied result) Null ≡ spec.value (columns_of columns.now) row.now name.now }
{
    match column_named(columns, name.bytes()) {
        None => None,
        Some((at, _)) => row.get(at),
    }
}

fn fits(cell: Option<&Cell>, wanted: &InfoValue) -> bool
    ensures { result ≡ spec.fits (unwrap_or (option_copied cell.entry) Null) wanted.now }
{
    match (cell, wanted) {
        (Some(Cell::Words(text)), InfoValue::Literal(literal)) => text.bytes() == literal.bytes(),
        (Some(Cell::Number(n)), InfoValue::Number(text)) => is_worth(text.bytes(), *n),
        _ => false,
    }
}

fn is_null(cell: Option<&Cell>) -> bool
    ensures { result ≡ spec.is_null (unwrap_or (option_copied cell.entry) Null) }
{
    matches!(cell, None | Some(Cell::Null))
}

fn passes(columns: &[(&[u8], Sort)], row: &[Cell], test: &InfoTest) -> bool
    ensures { result ≡ spec.passes (columns_of columns.now) row.now test.now }
{
    match test {
        InfoTest::Equals {
            column,
            value: wanted,
        } => fits(value(columns, row, column), wanted),
        InfoTest::IsNull(column) => is_null(value(columns, row, column)),
    }
}

fn passes_all(columns: &[(&[u8], Sort)], row: &[Cell], tests: &[InfoTest]) -> bool
    ensures { result ≡ spec.passes_all (columns_of columns.now) tests.now row.now }
{
    match tests {
        [] => true,
        [test, rest @ ..] => passes(columns, row, test) && passes_all(columns, row, rest),
    }
}

fn copy_cell(cell: Option<&Cell>) -> Result<Cell, AllocError>
    ensures { IfOk result (λ copy. copy ≡ unwrap_or (option_copied cell.entry) Null) }
{
    match cell {
        None => Ok(Cell::Null),
        Some(Cell::Null) => Ok(Cell::Null),
        Some(Cell::Number(n)) => Ok(Cell::Number(*n)),
        Some(Cell::Words(text)) => Ok(Cell::Words(text.copy()?)),
    }
}

fn push_values(
    columns: &[(&[u8], Sort)],
    out: &mut Row,
    row: &[Cell],
    names: &[Name],
) -> Result<(), AllocError>
    ensures { OnOk result (out.new ≡ out.old ++ map (spec.value (columns_of columns.now) row.now) names.now) }
{
    match names {
        [] => Ok(()),
        [name, rest @ ..] => {
            out.push(copy_cell(value(columns, row, name))?)?;
            push_values(columns, out, row, rest)
        }
    }
}

fn push_cells(out: &mut Row, row: &[Cell]) -> Result<(), AllocError>
    ensures { OnOk result (out.new ≡ out.old ++ row.now) }
{
    match row {
        [] => Ok(()),
        [cell, rest @ ..] => {
            out.push(copy_cell(Some(cell))?)?;
            push_cells(out, rest)
        }
    }
}

fn chosen(
    alloc: Global,
    columns: &[(&[u8], Sort)],
    row: &[Cell],
    asked: &InfoColumns,
) -> Result<Row, AllocError>
    ensures { IfOk result (λ chosen. chosen ≡ spec.chosen (columns_of columns.now) asked.now row.now) }
{
    let mut out = Row::new(alloc);
    match asked {
        InfoColumns::All => push_cells(&mut out, row)?,
        InfoColumns::Named(names) => push_values(columns, &mut out, row, names.as_slice())?,
    }
    Ok(out)
}

/// Puts what is selected of a row behind the rows of `out`.
fn push_selected(
    alloc: Global,
    out: &mut Vec<Row>,
    columns: &[(&[u8], Sort)],
    query: &InfoQuery,
    row: &Row,
) -> Result<(), AllocError>
    ensures { OnOk result (out.new.items ≡ out.old.items ++ spec.selected (columns_of columns.now) query.now (row.now ∷ [])) }
{
    if passes_all(columns, row.as_slice(), query.tests.as_slice()) {
        out.push(chosen(alloc, columns, row.as_slice(), &query.columns)?)?;
    }
    Ok(())
}

/// The rows that pass each test, and of each the columns that are asked for.
pub fn selected(
    alloc: Global,
    columns: &[(&[u8], Sort)],
    query: &InfoQuery,
    rows: &Vec<Row>,
) -> Result<Vec<Row>, AllocError>
    ensures { IfOk result (λ all. all.items ≡ spec.selected (columns_of columns.now) query.now rows.now.items) }
{
    let mut out = Vec::new(alloc);
    for row in rows {
        push_selected(alloc, &mut out, columns, query, row)?;
    }
    Ok(out)
}
