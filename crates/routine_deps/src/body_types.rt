//! Whether the values, conditions and arguments of a resolved body have the types that they must have.

ghost use Rattle.std.specs.Prelude.{◌≡◌, map, IfOk};
ghost use Rattle.sql_names.specs.declared.sort.Param.{Param};
ghost use Rattle.name_scopes.specs.Known as known;
ghost use Rattle.type_rules.specs.TypeParts as part;
ghost use Rattle.routine_deps.specs.BodyTypes as spec;

use crate::scopes::with_own;
use name_scopes::{Dictionary, Scope, Signature, full_name, same_object};
use query_types::{expr_type, query_types};
use sql_tree::{
    Act, AssignedValue, Assignment, Body, Expr, InsertSource, Items, Name, Object, ObjectName,
    Param, SqlType,
};
use std::alloc::{AllocError, Global};
use type_rules::{boolean, one_class};

fn fits(wanted: Option<SqlType>, sort: Option<SqlType>) -> bool
    ensures { result ≡ spec.fits wanted sort }
{
    match (wanted, sort) {
        (Some(wanted), Some(sort)) => one_class(wanted, sort),
        _ => false,
    }
}

fn value_fits<D: Dictionary>(
    alloc: Global,
    dictionary: &D,
    scope: &Scope,
    wanted: Option<SqlType>,
    value: &AssignedValue,
) -> Result<bool, AllocError>
    ensures { IfOk result (λ r. r ≡ spec.value_fits (D.known dictionary.now) scope.now wanted value.now) }
{
    match value {
        AssignedValue::Null => Ok(true),
        AssignedValue::Default => Ok(true),
        AssignedValue::Expr(expr) => {
            Ok(fits(wanted, expr_type(alloc, dictionary, scope, expr)?))
        }
    }
}

#[tactic(auto, unfolding(crate::specs::BodyTypes::values_fit))]
fn values_fit<D: Dictionary>(
    alloc: Global,
    dictionary: &D,
    scope: &Scope,
    table: &Object,
    columns: &[Name],
    values: &[AssignedValue],
) -> Result<bool, AllocError>
    ensures { IfOk result (λ r. r ≡ spec.values_fit (D.known dictionary.now) scope.now table.now columns.now values.now) }
{
    if columns.len() != values.len() {
        return Ok(false);
    }
    for at in 0..columns.len() {
        let wanted = dictionary.sort_of(table, &columns[at]);
        if !value_fits(alloc, dictionary, scope, wanted, &values[at])? {
            return Ok(false);
        }
    }
    Ok(true)
}

#[tactic(auto, unfolding(crate::specs::BodyTypes::columns_fit))]
fn columns_fit<D: Dictionary>(
    dictionary: &D,
    table: &Object,
    columns: &[Name],
    sorts: &[SqlType],
) -> bool
    ensures { result ≡ spec.columns_fit (D.known dictionary.now) table.now columns.now sorts.now }
{
    if columns.len() != sorts.len() {
        return false;
    }
    for at in 0..columns.len() {
        if !fits(dictionary.sort_of(table, &columns[at]), Some(sorts[at])) {
            return false;
        }
    }
    true
}

fn query_fits<D: Dictionary>(
    dictionary: &D,
    table: &Object,
    columns: &[Name],
    sorts: Option<Items<SqlType>>,
) -> bool
    ensures { result ≡ spec.query_fits (D.known dictionary.now) table.now columns.now sorts }
{
    match sorts {
        None => false,
        Some(sorts) => columns_fit(dictionary, table, columns, sorts.as_slice()),
    }
}

fn source_fits<D: Dictionary>(
    alloc: Global,
    dictionary: &D,
    scope: &Scope,
    table: &Object,
    columns: &[Name],
    source: &InsertSource,
) -> Result<bool, AllocError>
    ensures { IfOk result (λ r. r ≡ spec.source_fits (D.known dictionary.now) scope.now table.now columns.now source.now) }
{
    match source {
        InsertSource::Values(all) => {
            values_fit(alloc, dictionary, scope, table, columns, all.as_slice())
        }
        InsertSource::Query(query) => {
            let sorts = query_types(alloc, dictionary, scope, query)?;
            Ok(query_fits(dictionary, table, columns, sorts))
        }
    }
}

fn assignments_fit<D: Dictionary>(
    alloc: Global,
    dictionary: &D,
    scope: &Scope,
    table: &Object,
    all: &[Assignment],
) -> Result<bool, AllocError>
    ensures { IfOk result (λ r. r ≡ spec.assignments_fit (D.known dictionary.now) scope.now table.now all.now) }
{
    for one in all {
        let wanted = dictionary.sort_of(table, &one.column);
        if !value_fits(alloc, dictionary, scope, wanted, &one.value)? {
            return Ok(false);
        }
    }
    Ok(true)
}

fn condition_fits<D: Dictionary>(
    alloc: Global,
    dictionary: &D,
    scope: &Scope,
    filter: &Option<Expr>,
) -> Result<bool, AllocError>
    ensures { IfOk result (λ r. r ≡ spec.condition_fits (D.known dictionary.now) scope.now filter.now) }
{
    match filter {
        None => Ok(true),
        Some(filter) => Ok(boolean(expr_type(alloc, dictionary, scope, filter)?)),
    }
}

#[tactic(auto, unfolding(crate::specs::BodyTypes::arguments_fit))]
fn arguments_fit<D: Dictionary>(
    alloc: Global,
    dictionary: &D,
    scope: &Scope,
    params: &[Param],
    all: &[Expr],
) -> Result<bool, AllocError>
    ensures { IfOk result (λ r. r ≡ spec.arguments_fit (D.known dictionary.now) scope.now (map (λ (p : Param). p.sort) params.now) all.now) }
{
    if params.len() != all.len() {
        return Ok(false);
    }
    for at in 0..params.len() {
        let sort = expr_type(alloc, dictionary, scope, &all[at])?;
        if !fits(Some(params[at].sort), sort) {
            return Ok(false);
        }
    }
    Ok(true)
}

/// A call of a routine that stands.
fn known_call_fits<D: Dictionary>(
    alloc: Global,
    dictionary: &D,
    scope: &Scope,
    routine: &Object,
    all: &[Expr],
) -> Result<bool, AllocError>
    ensures { IfOk result (λ r. r ≡ spec.called_fits (D.known dictionary.now) scope.now ((D.known dictionary.now).routine routine.now) all.now) }
{
    match dictionary.params(routine) {
        None => Ok(false),
        Some(params) => arguments_fit(alloc, dictionary, scope, params, all),
    }
}

/// A call of the routine that is being made.
fn own_call_fits<D: Dictionary>(
    alloc: Global,
    dictionary: &D,
    scope: &Scope,
    itself: &Signature,
    all: &[Expr],
) -> Result<bool, AllocError>
    ensures { IfOk result (λ r. r ≡ spec.arguments_fit (D.known dictionary.now) scope.now (part.param_sorts itself.now) all.now) }
{
    arguments_fit(alloc, dictionary, scope, itself.params.as_slice(), all)
}

fn call_fits<D: Dictionary>(
    alloc: Global,
    dictionary: &D,
    scope: &Scope,
    routine: &Object,
    all: &[Expr],
) -> Result<bool, AllocError>
    ensures { IfOk result (λ r. r ≡ spec.called_fits (D.known dictionary.now) scope.now (known.routine_of (D.known dictionary.now) scope.now routine.now) all.now) }
{
    match &scope.itself {
        None => known_call_fits(alloc, dictionary, scope, routine, all),
        Some(itself) => {
            if same_object(&itself.routine, routine) {
                own_call_fits(alloc, dictionary, scope, itself, all)
            } else {
                known_call_fits(alloc, dictionary, scope, routine, all)
            }
        }
    }
}

fn updated_fits<D: Dictionary>(
    alloc: Global,
    dictionary: &D,
    scope: &Scope,
    table: &Object,
    assignments: &[Assignment],
    filter: &Option<Expr>,
) -> Result<bool, AllocError>
    ensures { IfOk result (λ r. r ≡ spec.updated_fits (D.known dictionary.now) scope.now table.now assignments.now filter.now) }
{
    if !assignments_fit(alloc, dictionary, scope, table, assignments)? {
        return Ok(false);
    }
    condition_fits(alloc, dictionary, scope, filter)
}

fn act_fits<D: Dictionary>(
    alloc: Global,
    dictionary: &D,
    scope: &Scope,
    act: &Act,
) -> Result<bool, AllocError>
    ensures { IfOk result (λ r. r ≡ spec.act_fits (D.known dictionary.now) scope.now act.now) }
{
    match act {
        Act::Insert {
            table,
            columns,
            source,
        } => {
            let table = full_name(scope, table)?;
            source_fits(alloc, dictionary, scope, &table, columns.as_slice(), source)
        }
        Act::Update {
            table,
            assignments,
            filter,
        } => {
            let table = full_name(scope, table)?;
            let inner = with_own(alloc, dictionary, &table, scope)?;
            updated_fits(
                alloc,
                dictionary,
                &inner,
                &table,
                assignments.as_slice(),
                filter,
            )
        }
        Act::Delete { table, filter } => {
            let table = full_name(scope, table)?;
            let inner = with_own(alloc, dictionary, &table, scope)?;
            condition_fits(alloc, dictionary, &inner, filter)
        }
        Act::Call { routine, arguments } => {
            let routine = full_name(scope, routine)?;
            call_fits(alloc, dictionary, scope, &routine, arguments.as_slice())
        }
    }
}

fn all_fit<D: Dictionary>(
    alloc: Global,
    dictionary: &D,
    scope: &Scope,
    all: &[Act],
) -> Result<bool, AllocError>
    ensures { IfOk result (λ r. r ≡ spec.all_fit (D.known dictionary.now) scope.now all.now) }
{
    for one in all {
        if !act_fits(alloc, dictionary, scope, one)? {
            return Ok(false);
        }
    }
    Ok(true)
}

fn returned(itself: &Option<Signature>) -> Option<SqlType>
    ensures { result ≡ spec.returned itself.now }
{
    match itself {
        None => None,
        Some(itself) => itself.returns,
    }
}

/// Whether a resolved body has the types that it must have. `Err` is want of memory.
pub fn body_fits<D: Dictionary>(
    alloc: Global,
    dictionary: &D,
    scope: &Scope,
    body: &Body,
) -> Result<bool, AllocError>
    ensures { IfOk result (λ r. r ≡ spec.body_fits (D.known dictionary.now) scope.now body.now) }
{
    match body {
        Body::Return { expr, .. } => {
            let sort = expr_type(alloc, dictionary, scope, expr)?;
            Ok(fits(returned(&scope.itself), sort))
        }
        Body::Atomic { acts, .. } => all_fit(alloc, dictionary, scope, acts.as_slice()),
    }
}
