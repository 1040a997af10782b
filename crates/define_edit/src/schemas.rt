//! CREATE SCHEMA.

ghost use Rattle.std.specs.Prelude.{◌≡◌, ◌⊎◌, ◌↔◌, ◌∷◌, [], IfOk, IsTrue};
ghost use Rattle.cat_items.specs.Good.{IsGood};
ghost use Rattle.edit_rules.specs.First.{HasPassed, IsTested};
ghost use Rattle.edit_rules.specs.Owners.{IsCurrentRole};
ghost use Rattle.edit_laws.specs.Sound.{IsSound};
ghost use Rattle.define_edit.specs.CreatedSchemas as spec;

use cat_items::{Catalogue, Edit, EditError, Item, Refusal, Schema, Shared, Who};
use edit_rules::{current_role, is_schema, test_authorization};
use sql_tree::{Items, Name, Path, SchemaNameClause};
use std::alloc::{AllocError, Global};

/// Whether a schema of this name stands by itself.
fn is_reserved(name: &Name) -> bool
    ensures { IsTrue result ↔ spec.IsReserved name.now }
{
    name.bytes() == b"INFORMATION_SCHEMA".as_slice()
        || name.bytes() == b"DEFINITION_SCHEMA".as_slice()
}

/// The name of the schema that is made.
fn name_in(clause: &SchemaNameClause) -> &Name
    ensures { result.now ≡ spec.schema_name clause.now }
{
    match clause {
        SchemaNameClause::Named { schema, .. } => schema,
        SchemaNameClause::Authorization(owner) => owner,
    }
}

/// Its owner.
fn owner_in<'a>(clause: &'a SchemaNameClause, who: &'a Who) -> &'a Name
    ensures { result.now ≡ spec.schema_owner clause.now who.now }
{
    match clause {
        SchemaNameClause::Named {
            owner: Some(owner),
            ..
        }
        | SchemaNameClause::Authorization(owner) => owner,
        SchemaNameClause::Named { owner: None, .. } => &who.user,
    }
}

/// Whether the session may make a schema for this owner: for its user and for its current role.
fn may_own(alloc: Global, c: &Catalogue, who: &Who, owner: &Name) -> Result<bool, AllocError>
    ensures { IfOk result (λ may. IsTrue may ↔ ((owner.now ≡ who.now.user) ⊎ IsCurrentRole c.now.items who.now owner.now)) }
{
    if owner.same(&who.user) {
        return Ok(true);
    }
    match current_role(alloc, c, who)? {
        Some(role) => Ok(owner.same(&role)),
        None => Ok(false),
    }
}

/// Refuses the name of a schema that stands by itself.
fn test_reserved(name: &Name) -> Result<(), EditError>
    ensures { HasPassed (spec.reserved_schema name.now ∷ []) result }
{
    if is_reserved(name) {
        return Err(EditError::Refused(Refusal::NameReserved));
    }
    Ok(())
}

/// Refuses an owner for whom the session may make no schema.
fn test_owner_to_be(
    alloc: Global,
    c: &Catalogue,
    who: &Who,
    schema: &Name,
    owner: &Name,
) -> Result<(), EditError>
    ensures { HasPassed (spec.not_owner_to_be c.now.items who.now schema.now owner.now ∷ []) result }
{
    if may_own(alloc, c, who, owner)? {
        return Ok(());
    }
    let schema = schema.copy()?;
    Err(EditError::Refused(Refusal::NotOwner { schema }))
}

/// Refuses the name of a schema that stands.
fn test_new(c: &Catalogue, name: &Name) -> Result<(), EditError>
    ensures { HasPassed (spec.schema_exists c.now.items name.now ∷ []) result }
{
    if !is_schema(c, name) {
        return Ok(());
    }
    let path = Path::one(name.copy()?);
    Err(EditError::Refused(Refusal::NameExists { path }))
}

/// All tests, in their order.
pub fn test_schema(
    alloc: Global,
    c: &Catalogue,
    who: &Who,
    schema: &Name,
    owner: &Name,
) -> Result<(), EditError>
    ensures { HasPassed (spec.schema_refusals c.now.items who.now schema.now owner.now) result }
{
    test_reserved(schema)?;
    test_authorization(c, owner)?;
    test_owner_to_be(alloc, c, who, schema, owner)?;
    test_new(c, schema)
}

/// The edit that adds a schema and does nothing else.
pub fn adding_schema(alloc: Global, schema: Schema) -> Result<Edit, AllocError>
    ensures { IfOk result (λ edit. edit ≡ spec.adding_schema schema) }
{
    let mut added = Items::new(alloc);
    added.push(Item::Schema(Shared::new(alloc, schema)?))?;
    Ok(Edit {
        target: Items::new(alloc),
        changed: Items::new(alloc),
        added,
    })
}

/// The edit of CREATE SCHEMA without elements.
pub fn create_schema(
    alloc: Global,
    c: &Catalogue,
    who: &Who,
    clause: &SchemaNameClause,
) -> Result<Edit, EditError>
    requires { IsGood c.now.items }
    ensures tested { IsTested (spec.create_schema_refusals c.now.items who.now clause.now) (λ edit. edit ≡ spec.create_schema_edit who.now clause.now) result }
    ensures sound { IfOk result (IsSound c.now.items) }
{
    let name = name_in(clause);
    let owner = owner_in(clause, who);
    test_schema(alloc, c, who, name, owner)?;
    let schema = Schema {
        name: name.copy()?,
        owner: owner.copy()?,
    };
    Ok(adding_schema(alloc, schema)?)
}
