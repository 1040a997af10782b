//! Types of parts of a tree, where the types of their own parts are known.

ghost use Rattle.std.specs.Prelude.{◌≡◌, map, IfOk, option_and_then};
ghost use Rattle.name_scopes.specs.Known as known;
ghost use Rattle.type_rules.specs.Rules as rule;
ghost use Rattle.type_rules.specs.TypeParts as spec;
ghost use Rattle.sql_names.specs.declared.sort.Param.{Param};

use crate::rules::{
    additive, aggregate, arithmetic, cast, is_boolean, is_text, joined, negative, one_class,
};
use name_scopes::{
    Dictionary, Frames, OwnTable, Scope, Signature, full_name, is_name, same_object,
};
use sql_tree::{Additive, Aggregate, Items, Name, Object, ObjectName, Param, Reference, SqlType};
use std::alloc::{AllocError, Global};
/// Whether there is a type, and it is BOOLEAN.

pub fn boolean(sort: Option<SqlType>) -> bool
    ensures { result ≡ spec.boolean sort }
{
    match sort {
        None => false,
        Some(sort) => is_boolean(sort),
    }
}

fn only_if(holds: bool) -> Option<SqlType>
    ensures { result ≡ spec.only_if holds }
{
    if holds { Some(SqlType::Boolean) } else { None }
}
/// The type of a test of anything: IS NULL.

pub fn tested(sort: Option<SqlType>) -> Option<SqlType>
    ensures { result ≡ spec.tested sort }
{
    match sort {
        None => None,
        Some(_) => Some(SqlType::Boolean),
    }
}
/// The type of a comparison: BOOLEAN, within one class.

pub fn compared(a: Option<SqlType>, b: Option<SqlType>) -> Option<SqlType>
    ensures { result ≡ spec.compared a b }
{
    match (a, b) {
        (Some(a), Some(b)) => only_if(one_class(a, b)),
        _ => None,
    }
}
/// The type of BETWEEN.

pub fn between(a: Option<SqlType>, b: Option<SqlType>, c: Option<SqlType>) -> Option<SqlType>
    ensures { result ≡ spec.between a b c }
{
    match (a, b, c) {
        (Some(a), Some(b), Some(c)) => only_if(one_class(a, b) && one_class(a, c)),
        _ => None,
    }
}

fn all_of_class(a: SqlType, all: &[SqlType]) -> bool
    ensures { result ≡ rule.all_of_class a all.now }
{
    for one in all {
        if !one_class(a, *one) {
            return false;
        }
    }
    true
}
/// The type of IN with a list.

pub fn listed(a: Option<SqlType>, all: Option<Items<SqlType>>) -> Option<SqlType>
    ensures { result ≡ spec.listed a all }
{
    match a {
        None => None,
        Some(a) => match all {
            None => None,
            Some(all) => only_if(all_of_class(a, all.as_slice())),
        },
    }
}
/// The type of LIKE: of texts alone.

pub fn like(a: Option<SqlType>, b: Option<SqlType>) -> Option<SqlType>
    ensures { result ≡ spec.like a b }
{
    match (a, b) {
        (Some(a), Some(b)) => only_if(is_text(a) && is_text(b)),
        _ => None,
    }
}

fn all_boolean(all: &[SqlType]) -> bool
    ensures { result ≡ spec.all_boolean all.now }
{
    for one in all {
        if !is_boolean(*one) {
            return false;
        }
    }
    true
}

/// One operand is itself; more of them are boolean.
pub fn logical(all: Option<Items<SqlType>>) -> Option<SqlType>
    ensures { result ≡ spec.logical all }
{
    match all {
        None => None,
        Some(all) => match all.as_slice() {
            [] => Some(SqlType::Boolean),
            [one] => Some(*one),
            [_, _, ..] => only_if(all_boolean(all.as_slice())),
        },
    }
}
/// The type with or without NOT in front.

pub fn unless_negated(negated: bool, sort: Option<SqlType>) -> Option<SqlType>
    ensures { result ≡ spec.unless_negated negated sort }
{
    if negated {
        only_if(boolean(sort))
    } else {
        sort
    }
}
/// The type with or without a minus in front.

pub fn negated(minus: bool, sort: Option<SqlType>) -> Option<SqlType>
    ensures { result ≡ option_and_then (rule.negative minus) sort }
{
    match sort {
        None => None,
        Some(sort) => negative(minus, sort),
    }
}
/// The type of a set function.

pub fn aggregated(by: Aggregate, sort: Option<SqlType>) -> Option<SqlType>
    ensures { result ≡ option_and_then (rule.aggregate by) sort }
{
    match sort {
        None => None,
        Some(sort) => aggregate(by, sort),
    }
}
/// The type of an arm of CASE, whose condition has to be BOOLEAN.

pub fn guarded(condition: Option<SqlType>, value: Option<SqlType>) -> Option<SqlType>
    ensures { result ≡ spec.guarded condition value }
{
    if boolean(condition) { value } else { None }
}

fn joined_all(first: SqlType, all: &[SqlType]) -> Option<SqlType>
    ensures { result ≡ spec.joined_all first all.now }
{
    let mut sort = first;
    for one in all {
        match joined(sort, *one) {
            None => return None,
            Some(joined) => sort = joined,
        }
    }
    Some(sort)
}
/// The type that all arms of a CASE have together.

pub fn case_arms(all: Option<Items<SqlType>>) -> Option<SqlType>
    ensures { result ≡ spec.case_arms all }
{
    match all {
        None => None,
        Some(all) => match all.as_slice() {
            [] => None,
            [first, rest @ ..] => joined_all(*first, rest),
        },
    }
}
/// The type of a CASE with an ELSE.

pub fn with_else(a: Option<SqlType>, b: Option<SqlType>) -> Option<SqlType>
    ensures { result ≡ spec.with_else a b }
{
    match (a, b) {
        (Some(a), Some(b)) => joined(a, b),
        _ => None,
    }
}
/// The type of CAST.

pub fn cast_to(a: Option<SqlType>, sort: SqlType) -> Option<SqlType>
    ensures { result ≡ option_and_then (λ a. rule.cast a sort) a }
{
    match a {
        None => None,
        Some(a) => cast(a, sort),
    }
}
/// The type of EXISTS, whose query has to have types.

pub fn there(all: Option<Items<SqlType>>) -> Option<SqlType>
    ensures { result ≡ spec.there all }
{
    match all {
        None => None,
        Some(_) => Some(SqlType::Boolean),
    }
}
/// The type of a query with one column.

pub fn single(all: Option<Items<SqlType>>) -> Option<SqlType>
    ensures { result ≡ spec.single all }
{
    match all {
        None => None,
        Some(all) => match all.as_slice() {
            [one] => Some(*one),
            _ => None,
        },
    }
}
/// The type of a sum with one more term.

pub fn added_to(by: Additive, a: Option<SqlType>, b: Option<SqlType>) -> Option<SqlType>
    ensures { result ≡ spec.added_to by a b }
{
    match (a, b) {
        (Some(a), Some(b)) => additive(by, a, b),
        _ => None,
    }
}
/// The type of a product with one more factor.

pub fn multiplied_by(a: Option<SqlType>, b: Option<SqlType>) -> Option<SqlType>
    ensures { result ≡ spec.multiplied_by a b }
{
    match (a, b) {
        (Some(a), Some(b)) => arithmetic(a, b),
        _ => None,
    }
}
/// The types of a SELECT, where the conditions of its FROM and its WHERE are BOOLEAN.

pub fn selected_where(
    from: bool,
    filter: bool,
    all: Option<Items<SqlType>>,
) -> Option<Items<SqlType>>
    ensures { result ≡ spec.selected_where from filter all }
{
    if from && filter { all } else { None }
}

/// Joined types, column by column, where both have equally many.
#[tactic(auto, unfolding(crate::specs::Rules::joined_columns))]
pub fn joined_columns(
    alloc: Global,
    a: &[SqlType],
    b: &[SqlType],
) -> Result<Option<Items<SqlType>>, AllocError>
    ensures { IfOk result (λ r. r ≡ rule.joined_columns a.now b.now) }
{
    if a.len() != b.len() {
        return Ok(None);
    }
    let mut out = Items::new(alloc);
    for at in 0..a.len() {
        match joined(a[at], b[at]) {
            None => return Ok(None),
            Some(sort) => out.push(sort)?,
        }
    }
    Ok(Some(out))
}

/// As many values as parameters, each of its class.
#[tactic(auto, unfolding(crate::specs::Rules::all_fit))]
fn all_fit(params: &[Param], sorts: &[SqlType]) -> bool
    ensures { result ≡ rule.all_fit (map (λ (p : Param). p.sort) params.now) sorts.now }
{
    if params.len() != sorts.len() {
        return false;
    }
    for at in 0..params.len() {
        if !one_class(params[at].sort, sorts[at]) {
            return false;
        }
    }
    true
}

fn returned(
    params: &[Param],
    returns: Option<SqlType>,
    sorts: Option<Items<SqlType>>,
) -> Option<SqlType>
    ensures { result ≡ spec.returned (map (λ (p : Param). p.sort) params.now) returns sorts }
{
    match sorts {
        None => None,
        Some(sorts) => {
            if all_fit(params, sorts.as_slice()) {
                returns
            } else {
                None
            }
        }
    }
}

#[tactic(auto, using(crate::proofs::Calls::called_parts))]
fn called_known<D: Dictionary>(
    dictionary: &D,
    routine: &Object,
    sorts: Option<Items<SqlType>>,
) -> Option<SqlType>
    ensures { result ≡ spec.called ((D.known dictionary.now).routine routine.now) sorts }
{
    match dictionary.params(routine) {
        None => None,
        Some(params) => match dictionary.returns(routine) {
            None => None,
            Some(returns) => returned(params, returns, sorts),
        },
    }
}

/// A call of the routine that is being made.
fn called_itself(itself: &Signature, sorts: Option<Items<SqlType>>) -> Option<SqlType>
    ensures { result ≡ spec.returned (spec.param_sorts itself.now) itself.now.returns sorts }
{
    returned(itself.params.as_slice(), itself.returns, sorts)
}

fn called_by<D: Dictionary>(
    dictionary: &D,
    scope: &Scope,
    routine: &Object,
    sorts: Option<Items<SqlType>>,
) -> Option<SqlType>
    ensures { result ≡ spec.called (known.routine_of (D.known dictionary.now) scope.now routine.now) sorts }
{
    match &scope.itself {
        None => called_known(dictionary, routine, sorts),
        Some(itself) => {
            if same_object(&itself.routine, routine) {
                called_itself(itself, sorts)
            } else {
                called_known(dictionary, routine, sorts)
            }
        }
    }
}

/// The type of a call.
pub fn called<D: Dictionary>(
    dictionary: &D,
    scope: &Scope,
    routine: &ObjectName,
    sorts: Option<Items<SqlType>>,
) -> Result<Option<SqlType>, AllocError>
    ensures { IfOk result (λ r. r ≡ spec.called (spec.routine (D.known dictionary.now) scope.now routine.now) sorts) }
{
    match full_name(scope, routine) {
        Ok(object) => Ok(called_by(dictionary, scope, &object, sorts)),
        Err(error) => Err(error),
    }
}

fn own_sort(name: &Name, names: &[Name], sorts: &[SqlType]) -> Option<SqlType>
    ensures { result ≡ spec.own_sort name.now names.now sorts.now }
{
    match names {
        [] => None,
        [one, names @ ..] => match sorts {
            [] => None,
            [sort, sorts @ ..] => {
                if is_name(one, name) {
                    Some(*sort)
                } else {
                    own_sort(name, names, sorts)
                }
            }
        },
    }
}

fn param_sort(name: &Name, params: &[Param]) -> Option<SqlType>
    ensures { result ≡ known.column_in name.now params.now }
{
    for one in params {
        if is_name(&one.name, name) {
            return Some(one.sort);
        }
    }
    None
}

fn own_column(name: &Name, own: &Option<OwnTable>) -> Option<SqlType>
    ensures { result ≡ spec.own name.now own.now }
{
    match own {
        None => None,
        Some(own) => own_sort(name, own.names.as_slice(), own.sorts.as_slice()),
    }
}

fn cell<D: Dictionary>(
    dictionary: &D,
    frames: &Frames,
    up: usize,
    at: usize,
    name: &Name,
) -> Option<SqlType>
    ensures { result ≡ spec.cell (D.known dictionary.now) up at name.now frames.now }
{
    match frames.tab(up, at) {
        None => None,
        Some(tab) => dictionary.sort_of(&tab.table, name),
    }
}

/// The type of a resolved reference.
pub fn type_reference<D: Dictionary>(
    dictionary: &D,
    scope: &Scope,
    frames: &Frames,
    reference: &Reference,
) -> Option<SqlType>
    ensures { result ≡ spec.reference (D.known dictionary.now) scope.now reference.now frames.now }
{
    match reference {
        Reference::Unqualified(_) => None,
        Reference::Qualified { .. } => None,
        Reference::Cell { up, at, name, .. } => cell(dictionary, frames, *up, *at, name),
        Reference::Own { name, .. } => own_column(name, &scope.own),
        Reference::Param { name } => param_sort(name, scope.params.as_slice()),
    }
}
