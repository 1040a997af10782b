//! What surrounds the body of a routine, and what UPDATE and DELETE see behind their FROM clauses.

ghost use Rattle.std.specs.Prelude.{◌≡◌, IfOk};
ghost use Rattle.routine_deps.specs.Bodies as bodies;
ghost use Rattle.routine_deps.specs.BodyNames as spec;

use name_scopes::{Dictionary, OwnTable, Scope, Signature};
use sql_names::EqualCopy;
use sql_tree::{Items, Name, Object, SqlType};
use std::alloc::{AllocError, Global};

fn sorts_of<D: Dictionary>(
    alloc: Global,
    dictionary: &D,
    table: &Object,
    names: &[Name],
) -> Result<Items<SqlType>, AllocError>
    ensures { IfOk result (λ sorts. sorts ≡ spec.sorts_of (D.known dictionary.now) table.now names.now) }
{
    let mut out = Items::new(alloc);
    for name in names {
        if let Some(sort) = dictionary.sort_of(table, name) {
            out.push(sort)?;
        }
    }
    Ok(out)
}

fn own_table<D: Dictionary>(
    alloc: Global,
    dictionary: &D,
    table: &Object,
) -> Result<OwnTable, AllocError>
    ensures { IfOk result (λ own. own ≡ spec.own_table (D.known dictionary.now) table.now) }
{
    let names = dictionary.column_names(alloc, table)?;
    let sorts = sorts_of(alloc, dictionary, table, names.as_slice())?;
    Ok(OwnTable {
        table: table.copy()?,
        names,
        sorts,
    })
}

/// An equal value. `Err` is want of memory.
pub fn copy_signature(alloc: Global, signature: &Signature) -> Result<Signature, AllocError>
    ensures { IfOk result (λ copy. copy ≡ signature.now) }
{
    Ok(Signature {
        routine: signature.routine.copy()?,
        params: signature.params.equal_copy(alloc)?,
        returns: signature.returns,
    })
}

fn copy_itself(alloc: Global, itself: &Option<Signature>) -> Result<Option<Signature>, AllocError>
    ensures { IfOk result (λ copy. copy ≡ itself.now) }
{
    match itself {
        None => Ok(None),
        Some(signature) => Ok(Some(copy_signature(alloc, signature)?)),
    }
}

/// The scope of what stands in an UPDATE or a DELETE of this table. `Err` is want of memory.
pub fn with_own<D: Dictionary>(
    alloc: Global,
    dictionary: &D,
    table: &Object,
    scope: &Scope,
) -> Result<Scope, AllocError>
    ensures { IfOk result (λ r. r ≡ spec.with_own (D.known dictionary.now) table.now scope.now) }
{
    let own = own_table(alloc, dictionary, table)?;
    Ok(Scope {
        schema: scope.schema.copy()?,
        own: Some(own),
        params: scope.params.equal_copy(alloc)?,
        value: scope.value,
        itself: copy_itself(alloc, &scope.itself)?,
        views: scope.views,
    })
}

/// What surrounds the body of a routine that is made in a session with this schema: its parameters and itself (SQL:2003 part 2, 11.50).
/// `Err` is want of memory.
pub fn body_scope(alloc: Global, schema: &Name, itself: &Signature) -> Result<Scope, AllocError>
    ensures { IfOk result (λ scope. scope ≡ bodies.body_scope schema.now itself.now) }
{
    Ok(Scope {
        schema: schema.copy()?,
        own: None,
        params: itself.params.equal_copy(alloc)?,
        value: None,
        itself: Some(copy_signature(alloc, itself)?),
        views: true,
    })
}
