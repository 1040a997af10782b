//! What a single name stands for.

ghost use Rattle.std.specs.Prelude.{◌≡◌, [], ◌∷◌, ◌++◌, IfOk, OnOk, drop, unwrap_or, option_map};
ghost use Rattle.std.specs.Option.{option_copied};
ghost use Rattle.name_scopes.specs.Known as known;
ghost use Rattle.name_scopes.specs.declared.scope.Signature.{Signature};
ghost use Rattle.name_scopes.specs.Outcomes.{Answers, Extends};
ghost use Rattle.name_scopes.specs.Single as spec;

use crate::dictionary::Dictionary;
use crate::error::ResolveError;
use crate::frames::{Frames, Tab};
use crate::look::{By, Fitting, Found, fit_in, is_name, seek};
use crate::scope::{OwnTable, Scope};
use sql_tree::{
    Conjunction, Expr, Factor, Items, Name, Negation, Object, ObjectName, Operand, Param, Path,
    Predicate, Reference, SelectItem, SqlType, Sum, TableReference, Term,
};
use std::alloc::{AllocError, Global};

/// The path of an object.
fn path_of(object: &Object) -> Result<Path, AllocError>
    ensures { IfOk result (λ path. path ≡ known.path_of object.now) }
{
    Ok(Path::two(object.schema.copy()?, object.name.copy()?))
}

/// An object name without a schema is in the current one.
pub fn full_name(scope: &Scope, name: &ObjectName) -> Result<Object, AllocError>
    ensures { IfOk result (λ object. object ≡ known.full scope.now name.now) }
{
    match name {
        ObjectName::Unqualified(name) => Ok(Object {
            schema: scope.schema.copy()?,
            name: name.copy()?,
        }),
        ObjectName::Qualified(object) => object.copy(),
    }
}

/// The table or view of this name.
#[tactic(auto, unfolding(crate::specs::Single::table))]
pub fn resolve_table<D: Dictionary>(
    dictionary: &D,
    scope: &Scope,
    name: &ObjectName,
) -> Result<Object, ResolveError>
    ensures { Answers (spec.table (D.known dictionary.now) scope.now name.now) result }
{
    let object = full_name(scope, name)?;
    if dictionary.is_table(scope.views, &object) {
        Ok(object)
    } else {
        Err(ResolveError::UnknownName(path_of(&object)?))
    }
}

/// The name, or else the other.
fn name_or(name: &Option<Name>, other: &Name) -> Result<Name, AllocError>
    ensures { IfOk result (λ n. n ≡ unwrap_or name.now other.now) }
{
    match name {
        None => other.copy(),
        Some(name) => name.copy(),
    }
}

fn tab_of(table: &TableReference, object: Object) -> Result<Tab, AllocError>
    ensures { IfOk result (λ tab. tab ≡ spec.tab table.now object) }
{
    let known = name_or(&table.correlation, &object.name)?;
    Ok(Tab {
        table: object,
        known,
    })
}

/// The table of a resolved FROM.
pub fn tab_in(scope: &Scope, table: &TableReference) -> Result<Tab, AllocError>
    ensures { IfOk result (λ tab. tab ≡ spec.tab table.now (known.full scope.now table.now.table)) }
{
    let object = full_name(scope, &table.table)?;
    tab_of(table, object)
}

fn as_table(tab: &Tab) -> Result<TableReference, AllocError>
    ensures { IfOk result (λ table. table ≡ spec.as_table tab.now) }
{
    let table = ObjectName::Qualified(tab.table.copy()?);
    Ok(TableReference {
        table,
        correlation: Some(tab.known.copy()?),
    })
}

/// Adds a table to the nearest FROM.
#[tactic(auto, using(crate::proofs::Tails::tails), unfolding(crate::specs::Single::joined))]
pub fn resolve_joined<D: Dictionary>(
    dictionary: &D,
    scope: &Scope,
    frames: &mut Frames,
    table: &TableReference,
) -> Result<TableReference, ResolveError>
    ensures answer { Extends (spec.joined (D.known dictionary.now) scope.now table.now frames.old) result frames.new }
    ensures kept { OnOk result (drop 1 frames.new ≡ drop 1 frames.old) }
{
    let object = resolve_table(dictionary, scope, &table.table)?;
    let tab = tab_of(table, object)?;
    let resolved = as_table(&tab)?;
    frames.add(tab)?;
    Ok(resolved)
}

/// Whether the two are one object.
pub fn same_object(a: &Object, b: &Object) -> bool
    ensures { result ≡ known.same_object a.now b.now }
{
    is_name(&a.schema, &b.schema) && is_name(&a.name, &b.name)
}

/// What a routine returns: the one that is being made hides another one of its name.
fn returns_of<D: Dictionary>(
    dictionary: &D,
    scope: &Scope,
    routine: &Object,
) -> Option<Option<SqlType>>
    ensures { result ≡ option_map (λ (s : Signature). s.returns) (known.routine_of (D.known dictionary.now) scope.now routine.now) }
{
    match &scope.itself {
        None => dictionary.returns(routine),
        Some(itself) => {
            if same_object(&itself.routine, routine) {
                Some(itself.returns)
            } else {
                dictionary.returns(routine)
            }
        }
    }
}

/// The function of this name.
#[tactic(auto, unfolding(crate::specs::Single::function))]
pub fn resolve_function<D: Dictionary>(
    dictionary: &D,
    scope: &Scope,
    name: &ObjectName,
) -> Result<ObjectName, ResolveError>
    ensures { Answers (spec.function (D.known dictionary.now) scope.now name.now) result }
{
    let object = full_name(scope, name)?;
    match returns_of(dictionary, scope, &object) {
        Some(Some(_)) => Ok(ObjectName::Qualified(object)),
        _ => Err(ResolveError::UnknownName(path_of(&object)?)),
    }
}

/// The procedure of this name.
#[tactic(auto, unfolding(crate::specs::Single::procedure))]
pub fn resolve_procedure<D: Dictionary>(
    dictionary: &D,
    scope: &Scope,
    name: &ObjectName,
) -> Result<ObjectName, ResolveError>
    ensures { Answers (spec.procedure (D.known dictionary.now) scope.now name.now) result }
{
    let object = full_name(scope, name)?;
    match returns_of(dictionary, scope, &object) {
        Some(None) => Ok(ObjectName::Qualified(object)),
        _ => Err(ResolveError::UnknownName(path_of(&object)?)),
    }
}

fn has_name(name: &Name, names: &[Name]) -> bool
    ensures { result ≡ spec.has_name name.now names.now }
{
    for one in names {
        if is_name(one, name) {
            return true;
        }
    }
    false
}

fn has_param(name: &Name, params: &[Param]) -> bool
    ensures { result ≡ spec.has_param name.now params.now }
{
    for one in params {
        if is_name(&one.name, name) {
            return true;
        }
    }
    false
}

fn resolve_param(scope: &Scope, name: &Name) -> Result<Reference, ResolveError>
    ensures { Answers (spec.param scope.now name.now) result }
{
    if has_param(name, scope.params.as_slice()) {
        Ok(Reference::Param { name: name.copy()? })
    } else {
        Err(ResolveError::UnknownName(Path::one(name.copy()?)))
    }
}

/// Behind all FROM clauses: a column of the own table, then a parameter.
fn resolve_beyond(scope: &Scope, name: &Name) -> Result<Reference, ResolveError>
    ensures { Answers (spec.beyond scope.now name.now scope.now.own) result }
{
    match &scope.own {
        Some(own) if has_name(name, own.names.as_slice()) => Ok(Reference::Own {
            table: own.table.copy()?,
            name: name.copy()?,
        }),
        _ => resolve_param(scope, name),
    }
}

fn cell(up: usize, at: usize, qualifier: &Name, name: &Name) -> Result<Reference, AllocError>
    ensures { IfOk result (λ r. r ≡ Reference.Cell up at qualifier.now name.now) }
{
    Ok(Reference::Cell {
        up,
        at,
        qualifier: qualifier.copy()?,
        name: name.copy()?,
    })
}

#[tactic(auto, unfolding(crate::specs::Single::column))]
fn resolve_column<D: Dictionary>(
    dictionary: &D,
    scope: &Scope,
    frames: &Frames,
    name: &Name,
) -> Result<Reference, ResolveError>
    ensures { Answers (spec.column (D.known dictionary.now) scope.now name.now frames.now) result }
{
    match seek(dictionary, By::Column, name, frames) {
        Found::Missing => resolve_beyond(scope, name),
        Found::Twice => Err(ResolveError::Ambiguous(name.copy()?)),
        Found::At(up, at) => match frames.tab(up, at) {
            None => Err(ResolveError::UnknownName(Path::one(name.copy()?))),
            Some(tab) => Ok(cell(up, at, &tab.known, name)?),
        },
    }
}

fn path_of_two(first: &Name, second: &Name) -> Result<Path, AllocError>
    ensures { IfOk result (λ path. path ≡ first.now ∷ second.now ∷ []) }
{
    Ok(Path::two(first.copy()?, second.copy()?))
}

fn resolve_own_column(
    qualifier: &Name,
    name: &Name,
    own: &Option<OwnTable>,
) -> Result<Reference, ResolveError>
    ensures { Answers (spec.own_column qualifier.now name.now own.now) result }
{
    match own {
        Some(own) if is_name(&own.table.name, qualifier) && has_name(name, own.names.as_slice()) =>
            {
                Ok(Reference::Own {
                    table: own.table.copy()?,
                    name: name.copy()?,
                })
            }
        _ => Err(ResolveError::UnknownName(path_of_two(qualifier, name)?)),
    }
}

fn has_column<D: Dictionary>(dictionary: &D, name: &Name, tab: Option<&Tab>) -> bool
    ensures { result ≡ spec.has_column (D.known dictionary.now) name.now (option_copied tab.entry) }
{
    match tab {
        None => false,
        Some(tab) => dictionary.sort_of(&tab.table, name).is_some(),
    }
}

#[tactic(auto, unfolding(crate::specs::Single::qualified))]
fn resolve_qualified<D: Dictionary>(
    dictionary: &D,
    scope: &Scope,
    frames: &Frames,
    qualifier: &Name,
    name: &Name,
) -> Result<Reference, ResolveError>
    ensures { Answers (spec.qualified (D.known dictionary.now) scope.now qualifier.now name.now frames.now) result }
{
    match seek(dictionary, By::Known, qualifier, frames) {
        Found::Missing => resolve_own_column(qualifier, name, &scope.own),
        Found::Twice => Err(ResolveError::Ambiguous(qualifier.copy()?)),
        Found::At(up, at) => {
            if has_column(dictionary, name, frames.tab(up, at)) {
                Ok(cell(up, at, qualifier, name)?)
            } else {
                Err(ResolveError::UnknownName(path_of_two(qualifier, name)?))
            }
        }
    }
}

/// The column or the parameter that a reference stands for.
pub fn resolve_reference<D: Dictionary>(
    dictionary: &D,
    scope: &Scope,
    frames: &Frames,
    reference: &Reference,
) -> Result<Reference, ResolveError>
    ensures { Answers (spec.reference (D.known dictionary.now) scope.now reference.now frames.now) result }
{
    match reference {
        Reference::Unqualified(name) => resolve_column(dictionary, scope, frames, name),
        Reference::Qualified { qualifier, name } => {
            resolve_qualified(dictionary, scope, frames, qualifier, name)
        }
        _ => Ok(reference.copy()?),
    }
}
