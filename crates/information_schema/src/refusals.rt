//! Why a query has no answer.

ghost use Rattle.std.specs.Prelude.{◌≡◌, ◌∷◌, [], Some, map, IfOk};
ghost use Rattle.information_schema.specs.Answers.{Answers};
ghost use Rattle.information_schema.specs.Queries as spec;
ghost use Rattle.information_schema.specs.Views.{columns_of};
ghost use Rattle.information_schema.specs.declared.answers.InfoError.TheVariants.{UnknownName};

use crate::answers::InfoError;
use crate::views::column_named;
use schema_tables::Sort;
use shown_items::fixed_name;
use sql_tree::{InfoColumns, InfoQuery, InfoTest, InfoValue, Name, Path};
use std::alloc::{AllocError, Global};

/// The name of a view, with the schema that it is in.
fn view_path(alloc: Global, view: &Name) -> Result<Path, AllocError>
    ensures { IfOk result (λ path. path ≡ spec.information_schema ∷ view.now ∷ []) }
{
    Ok(Path::two(fixed_name(alloc, b"INFORMATION_SCHEMA")?, view.copy()?))
}

fn column_path(alloc: Global, view: &Name, column: &Name) -> Result<Path, AllocError>
    ensures { IfOk result (λ path. path ≡ spec.information_schema ∷ view.now ∷ column.now ∷ []) }
{
    Ok(Path::three(
        fixed_name(alloc, b"INFORMATION_SCHEMA")?,
        view.copy()?,
        column.copy()?,
    ))
}

/// That there is no such view.
pub fn no_view<T>(alloc: Global, view: &Name) -> Result<T, InfoError>
    ensures { Answers result (Some (UnknownName (spec.information_schema ∷ view.now ∷ []))) (λ x. ⊥) }
{
    Err(InfoError::UnknownName(view_path(alloc, view)?))
}

fn test_column(
    alloc: Global,
    view: &Name,
    columns: &[(&[u8], Sort)],
    name: &Name,
) -> Result<(), InfoError>
    ensures { Answers result (spec.unknown_column view.now (columns_of columns.now) (name.now ∷ [])) (λ x. Unit {0}) }
{
    match column_named(columns, name.bytes()) {
        Some(_) => Ok(()),
        None => Err(InfoError::UnknownName(column_path(alloc, view, name)?)),
    }
}

fn test_names(
    alloc: Global,
    view: &Name,
    columns: &[(&[u8], Sort)],
    names: &[Name],
) -> Result<(), InfoError>
    ensures { Answers result (spec.unknown_column view.now (columns_of columns.now) names.now) (λ x. Unit {0}) }
{
    match names {
        [] => Ok(()),
        [name, rest @ ..] => {
            test_column(alloc, view, columns, name)?;
            test_names(alloc, view, columns, rest)
        }
    }
}

fn test_chosen(
    alloc: Global,
    view: &Name,
    columns: &[(&[u8], Sort)],
    asked: &InfoColumns,
) -> Result<(), InfoError>
    ensures { Answers result (spec.unknown_column view.now (columns_of columns.now) (spec.chosen_names asked.now)) (λ x. Unit {0}) }
{
    match asked {
        InfoColumns::All => Ok(()),
        InfoColumns::Named(names) => test_names(alloc, view, columns, names.as_slice()),
    }
}

fn tested_name(test: &InfoTest) -> &Name
    ensures { result.now ≡ spec.tested_name test.now }
{
    match test {
        InfoTest::Equals { column, .. } => column,
        InfoTest::IsNull(column) => column,
    }
}

fn test_tested(
    alloc: Global,
    view: &Name,
    columns: &[(&[u8], Sort)],
    tests: &[InfoTest],
) -> Result<(), InfoError>
    ensures { Answers result (spec.unknown_column view.now (columns_of columns.now) (map spec.tested_name tests.now)) (λ x. Unit {0}) }
{
    match tests {
        [] => Ok(()),
        [test, rest @ ..] => {
            test_column(alloc, view, columns, tested_name(test))?;
            test_tested(alloc, view, columns, rest)
        }
    }
}

fn fits_sort(column: Option<(usize, Sort)>, value: &InfoValue) -> bool
    ensures { result ≡ spec.fits_sort column value.now }
{
    match (column, value) {
        (Some((_, Sort::Text)), InfoValue::Literal(_)) => true,
        (Some((_, Sort::Number)), InfoValue::Number(_)) => true,
        _ => false,
    }
}

fn is_proper(columns: &[(&[u8], Sort)], test: &InfoTest) -> bool
    ensures { result ≡ spec.is_proper (columns_of columns.now) test.now }
{
    match test {
        InfoTest::Equals { column, value } => {
            fits_sort(column_named(columns, column.bytes()), value)
        }
        InfoTest::IsNull(_) => true,
    }
}

fn test_sorts(columns: &[(&[u8], Sort)], tests: &[InfoTest]) -> Result<(), InfoError>
    ensures { Answers result (spec.mismatch (columns_of columns.now) tests.now) (λ x. Unit {0}) }
{
    match tests {
        [] => Ok(()),
        [test, rest @ ..] => {
            if is_proper(columns, test) {
                test_sorts(columns, rest)
            } else {
                Err(InfoError::TypeMismatch)
            }
        }
    }
}

/// Tests the columns that are chosen, those that are tested, and then what they are compared with.
pub fn test_query(
    alloc: Global,
    columns: &[(&[u8], Sort)],
    query: &InfoQuery,
) -> Result<(), InfoError>
    ensures { Answers result (spec.refusal_of (columns_of columns.now) query.now) (λ x. Unit {0}) }
{
    test_chosen(alloc, &query.view, columns, &query.columns)?;
    test_tested(alloc, &query.view, columns, query.tests.as_slice())?;
    test_sorts(columns, query.tests.as_slice())
}
