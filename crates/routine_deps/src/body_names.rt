//! The names of a routine's body, in the order in which they are tried.

ghost use Rattle.std.specs.Prelude.{◌≡◌, [], IfOk};
ghost use Rattle.name_scopes.specs.Outcomes.{Answers};
ghost use Rattle.query_names.specs.Names as names;
ghost use Rattle.routine_deps.specs.BodyNames as spec;

use crate::scopes::with_own;
use name_scopes::{Dictionary, Frames, ResolveError, Scope, resolve_procedure, resolve_table};
use query_names::{resolve_expr, resolve_query};
use sql_tree::{
    Act, AssignedValue, Assignment, Body, Expr, InsertSource, Items, Name, Object, ObjectName,
    Path, Query,
};
use std::alloc::{AllocError, Global};

fn resolve_argument<D: Dictionary>(
    alloc: Global,
    dictionary: &D,
    scope: &Scope,
    expr: &Expr,
) -> Result<Expr, ResolveError>
    ensures { Answers (spec.argument (D.known dictionary.now) scope.now expr.now) result }
{
    let mut frames = Frames::new(alloc);
    resolve_expr(alloc, dictionary, scope, &mut frames, expr)
}

fn resolve_value<D: Dictionary>(
    alloc: Global,
    dictionary: &D,
    scope: &Scope,
    value: &AssignedValue,
) -> Result<AssignedValue, ResolveError>
    ensures { Answers (spec.value (D.known dictionary.now) scope.now value.now) result }
{
    match value {
        AssignedValue::Null => Ok(AssignedValue::Null),
        AssignedValue::Default => Ok(AssignedValue::Default),
        AssignedValue::Expr(expr) => Ok(AssignedValue::Expr(resolve_argument(
            alloc, dictionary, scope, expr,
        )?)),
    }
}

fn resolve_optional<D: Dictionary>(
    alloc: Global,
    dictionary: &D,
    scope: &Scope,
    expr: &Option<Expr>,
) -> Result<Option<Expr>, ResolveError>
    ensures { Answers (spec.optional (D.known dictionary.now) scope.now expr.now) result }
{
    match expr {
        None => Ok(None),
        Some(expr) => Ok(Some(resolve_argument(alloc, dictionary, scope, expr)?)),
    }
}

fn resolve_values<D: Dictionary>(
    alloc: Global,
    dictionary: &D,
    scope: &Scope,
    all: &[AssignedValue],
) -> Result<Items<AssignedValue>, ResolveError>
    ensures { Answers (spec.in_order (spec.value (D.known dictionary.now) scope.now) [] all.now) result }
{
    let mut out = Items::new(alloc);
    for one in all {
        out.push(resolve_value(alloc, dictionary, scope, one)?)?;
    }
    Ok(out)
}

fn resolve_arguments<D: Dictionary>(
    alloc: Global,
    dictionary: &D,
    scope: &Scope,
    all: &[Expr],
) -> Result<Items<Expr>, ResolveError>
    ensures { Answers (spec.in_order (spec.argument (D.known dictionary.now) scope.now) [] all.now) result }
{
    let mut out = Items::new(alloc);
    for one in all {
        out.push(resolve_argument(alloc, dictionary, scope, one)?)?;
    }
    Ok(out)
}

fn column_path(table: &Object, column: &Name) -> Result<Path, AllocError>
    ensures { IfOk result (λ path. path ≡ spec.column_path table.now column.now) }
{
    Ok(Path::three(table.schema.copy()?, table.name.copy()?, column.copy()?))
}

/// A column after INSERT INTO or SET.
fn resolve_column<D: Dictionary>(
    dictionary: &D,
    table: &Object,
    column: &Name,
) -> Result<Name, ResolveError>
    ensures { Answers (spec.target_column (D.known dictionary.now) table.now column.now) result }
{
    if dictionary.sort_of(table, column).is_some() {
        Ok(column.copy()?)
    } else {
        Err(ResolveError::UnknownName(column_path(table, column)?))
    }
}

fn resolve_listed<D: Dictionary>(
    alloc: Global,
    dictionary: &D,
    table: &Object,
    columns: &[Name],
) -> Result<Items<Name>, ResolveError>
    ensures { Answers (spec.in_order (spec.target_column (D.known dictionary.now) table.now) [] columns.now) result }
{
    let mut out = Items::new(alloc);
    for one in columns {
        out.push(resolve_column(dictionary, table, one)?)?;
    }
    Ok(out)
}

fn resolve_columns<D: Dictionary>(
    alloc: Global,
    dictionary: &D,
    table: &Object,
    columns: &[Name],
) -> Result<Items<Name>, ResolveError>
    ensures { Answers (spec.insert_columns (D.known dictionary.now) table.now columns.now) result }
{
    match columns {
        [] => Ok(dictionary.column_names(alloc, table)?),
        _ => resolve_listed(alloc, dictionary, table, columns),
    }
}

fn resolve_rows<D: Dictionary>(
    alloc: Global,
    dictionary: &D,
    scope: &Scope,
    query: &Query,
) -> Result<Query, ResolveError>
    ensures { Answers (names.query (D.known dictionary.now) scope.now query.now []) result }
{
    let mut frames = Frames::new(alloc);
    resolve_query(alloc, dictionary, scope, &mut frames, query)
}

fn resolve_source<D: Dictionary>(
    alloc: Global,
    dictionary: &D,
    scope: &Scope,
    source: &InsertSource,
) -> Result<InsertSource, ResolveError>
    ensures { Answers (spec.source (D.known dictionary.now) scope.now source.now) result }
{
    match source {
        InsertSource::Values(all) => Ok(InsertSource::Values(resolve_values(
            alloc,
            dictionary,
            scope,
            all.as_slice(),
        )?)),
        InsertSource::Query(query) => Ok(InsertSource::Query(resolve_rows(
            alloc, dictionary, scope, query,
        )?)),
    }
}

fn resolve_assignment<D: Dictionary>(
    alloc: Global,
    dictionary: &D,
    scope: &Scope,
    table: &Object,
    one: &Assignment,
) -> Result<Assignment, ResolveError>
    ensures { Answers (spec.assignment (D.known dictionary.now) scope.now table.now one.now) result }
{
    let column = resolve_column(dictionary, table, &one.column)?;
    let value = resolve_value(alloc, dictionary, scope, &one.value)?;
    Ok(Assignment { column, value })
}

fn resolve_assignments<D: Dictionary>(
    alloc: Global,
    dictionary: &D,
    scope: &Scope,
    table: &Object,
    all: &[Assignment],
) -> Result<Items<Assignment>, ResolveError>
    ensures { Answers (spec.in_order (spec.assignment (D.known dictionary.now) scope.now table.now) [] all.now) result }
{
    let mut out = Items::new(alloc);
    for one in all {
        out.push(resolve_assignment(alloc, dictionary, scope, table, one)?)?;
    }
    Ok(out)
}

fn resolve_inserted<D: Dictionary>(
    alloc: Global,
    dictionary: &D,
    scope: &Scope,
    columns: &[Name],
    source: &InsertSource,
    table: Object,
) -> Result<Act, ResolveError>
    ensures { Answers (spec.inserted (D.known dictionary.now) scope.now columns.now source.now table) result }
{
    let columns = resolve_columns(alloc, dictionary, &table, columns)?;
    let source = resolve_source(alloc, dictionary, scope, source)?;
    Ok(Act::Insert {
        table: ObjectName::Qualified(table),
        columns,
        source,
    })
}

fn resolve_updated<D: Dictionary>(
    alloc: Global,
    dictionary: &D,
    scope: &Scope,
    assignments: &[Assignment],
    filter: &Option<Expr>,
    table: Object,
) -> Result<Act, ResolveError>
    ensures { Answers (spec.updated (D.known dictionary.now) scope.now assignments.now filter.now table) result }
{
    let inner = with_own(alloc, dictionary, &table, scope)?;
    let assignments = resolve_assignments(alloc, dictionary, &inner, &table, assignments)?;
    let filter = resolve_optional(alloc, dictionary, &inner, filter)?;
    Ok(Act::Update {
        table: ObjectName::Qualified(table),
        assignments,
        filter,
    })
}

fn resolve_deleted<D: Dictionary>(
    alloc: Global,
    dictionary: &D,
    scope: &Scope,
    filter: &Option<Expr>,
    table: Object,
) -> Result<Act, ResolveError>
    ensures { Answers (spec.deleted (D.known dictionary.now) scope.now filter.now table) result }
{
    let inner = with_own(alloc, dictionary, &table, scope)?;
    let filter = resolve_optional(alloc, dictionary, &inner, filter)?;
    Ok(Act::Delete {
        table: ObjectName::Qualified(table),
        filter,
    })
}

fn resolve_called<D: Dictionary>(
    alloc: Global,
    dictionary: &D,
    scope: &Scope,
    arguments: &[Expr],
    routine: ObjectName,
) -> Result<Act, ResolveError>
    ensures { Answers (spec.called (D.known dictionary.now) scope.now arguments.now routine) result }
{
    let arguments = resolve_arguments(alloc, dictionary, scope, arguments)?;
    Ok(Act::Call { routine, arguments })
}

fn resolve_act<D: Dictionary>(
    alloc: Global,
    dictionary: &D,
    scope: &Scope,
    act: &Act,
) -> Result<Act, ResolveError>
    ensures { Answers (spec.act (D.known dictionary.now) scope.now act.now) result }
{
    match act {
        Act::Insert {
            table,
            columns,
            source,
        } => {
            let table = resolve_table(dictionary, scope, table)?;
            resolve_inserted(alloc, dictionary, scope, columns.as_slice(), source, table)
        }
        Act::Update {
            table,
            assignments,
            filter,
        } => {
            let table = resolve_table(dictionary, scope, table)?;
            resolve_updated(
                alloc,
                dictionary,
                scope,
                assignments.as_slice(),
                filter,
                table,
            )
        }
        Act::Delete { table, filter } => {
            let table = resolve_table(dictionary, scope, table)?;
            resolve_deleted(alloc, dictionary, scope, filter, table)
        }
        Act::Call { routine, arguments } => {
            let routine = resolve_procedure(dictionary, scope, routine)?;
            resolve_called(alloc, dictionary, scope, arguments.as_slice(), routine)
        }
    }
}

fn resolve_acts<D: Dictionary>(
    alloc: Global,
    dictionary: &D,
    scope: &Scope,
    all: &[Act],
) -> Result<Items<Act>, ResolveError>
    ensures { Answers (spec.in_order (spec.act (D.known dictionary.now) scope.now) [] all.now) result }
{
    let mut out = Items::new(alloc);
    for one in all {
        out.push(resolve_act(alloc, dictionary, scope, one)?)?;
    }
    Ok(out)
}

/// The names of a body (SQL:2003 part 2, 14.8 to 14.11 and 15.1): the resolved body, or the first name in reading order that
/// doesn't stand or is ambiguous; of an INSERT without a column list all columns are put in. Never `TypeMismatch`. `Memory` is
/// want of memory.
pub fn resolve_body_names<D: Dictionary>(
    alloc: Global,
    dictionary: &D,
    scope: &Scope,
    body: &Body,
) -> Result<Body, ResolveError>
    ensures { Answers (spec.body (D.known dictionary.now) scope.now body.now) result }
{
    match body {
        Body::Return { security, expr } => {
            let expr = resolve_argument(alloc, dictionary, scope, expr)?;
            Ok(Body::Return {
                security: *security,
                expr,
            })
        }
        Body::Atomic { security, acts } => {
            let acts = resolve_acts(alloc, dictionary, scope, acts.as_slice())?;
            Ok(Body::Atomic {
                security: *security,
                acts,
            })
        }
    }
}
