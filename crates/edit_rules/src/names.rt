//! The names of a statement.

ghost use Rattle.std.specs.Prelude.{◌≡◌, ◌↔◌, ◌∷◌, [], IfOk, IsTrue};
ghost use Rattle.std.specs.List.{Contains};
ghost use Rattle.cat_items.specs.declared.item.Item.TheVariants as item;
ghost use Rattle.cat_items.specs.Ranges.{IsIn, IsObjectIn};
ghost use Rattle.cat_items.specs.Reach.{Has};
ghost use Rattle.cat_items.specs.Rights.{IsAuthorization, IsRole, IsSchema, IsBaseTable, IsTable, IsColumn};
ghost use Rattle.cat_items.specs.Rights as rights;
ghost use Rattle.edit_rules.specs.First.{HasPassed};
ghost use Rattle.edit_rules.specs.Names as spec;

use cat_items::{
    Catalogue, EditError, Item, ObjectKind, Part, Refusal, columns_of, objects_of, owner_of, places,
};
use sql_tree::{Name, Object, ObjectName, Path};
use std::alloc::AllocError;

/// The object that a name stands for: in this schema, the session's, where it names none (SQL:2003 part 2, 5.4).
/// `Err` is want of memory.
pub fn object_in(schema: &Name, name: &ObjectName) -> Result<Object, AllocError>
    ensures { IfOk result (λ object. object ≡ spec.object_in schema.now name.now) }
{
    match name {
        ObjectName::Unqualified(name) => Ok(Object {
            schema: schema.copy()?,
            name: name.copy()?,
        }),
        ObjectName::Qualified(object) => object.copy(),
    }
}

/// The path of an object: its schema and its name. `Err` is want of memory.
pub fn path_of(object: &Object) -> Result<Path, AllocError>
    ensures { IfOk result (λ path. path ≡ rights.path_of object.now) }
{
    Ok(Path::two(object.schema.copy()?, object.name.copy()?))
}

/// Whether an item is in this part.
fn any_in(c: &Catalogue, part: Part<'_>) -> bool
    ensures { IsTrue result ↔ Has c.now.items (IsIn part.entry) }
{
    !places(c, part).is_empty()
}

/// Whether a user has this name. It takes no memory.
pub fn is_user(c: &Catalogue, name: &Name) -> bool
    ensures { IsTrue result ↔ Contains c.now.items (item.User name.now) }
{
    any_in(c, Part::User(name))
}

/// Whether a role has this name. It takes no memory.
pub fn is_role(c: &Catalogue, name: &Name) -> bool
    ensures { IsTrue result ↔ Has c.now.items (IsRole name.now) }
{
    any_in(c, Part::Role(name))
}

/// Whether a user or a role has this name. It takes no memory.
pub fn is_authorization(c: &Catalogue, name: &Name) -> bool
    ensures { IsTrue result ↔ Has c.now.items (IsAuthorization name.now) }
{
    is_user(c, name) || is_role(c, name)
}

/// Whether a schema has this name. It takes no memory.
pub fn is_schema(c: &Catalogue, name: &Name) -> bool
    ensures { IsTrue result ↔ Has c.now.items (IsSchema name.now) }
{
    owner_of(c, name).is_some()
}

/// Whether a base table has this name. It takes no memory.
pub fn is_base_table(c: &Catalogue, table: &Object) -> bool
    ensures { IsTrue result ↔ Has c.now.items (IsBaseTable table.now) }
{
    any_in(c, Part::Table(table.into()))
}

/// Whether a base table or a view has this name. It takes no memory.
pub fn is_table(c: &Catalogue, table: &Object) -> bool
    ensures { IsTrue result ↔ Has c.now.items (IsTable (rights.path_of table.now)) }
{
    is_base_table(c, table) || any_in(c, Part::View(table.into()))
}

/// Whether an item is a column of this name.
fn is_column(x: &Item, table: &Object, name: &Name) -> bool
    ensures { IsTrue result ↔ IsColumn (rights.path_of table.now) name.now x.now }
{
    match x {
        Item::Column(column) => {
            let column = column.get();
            column.table.same(table) && column.name.same(name)
        }
        _ => false,
    }
}

/// Whether a table or a view has a column of this name. It takes no memory, and looks at the columns in turn.
pub fn has_column(c: &Catalogue, table: &Object, name: &Name) -> bool
    ensures { IsTrue result ↔ Has c.now.items (IsColumn (rights.path_of table.now) name.now) }
{
    let items = c.items();
    let all = columns_of(c, table);
    for at in all.start..all.end {
        if is_column(&items[at], table, name) {
            return true;
        }
    }
    false
}

/// Whether an item is a constraint, or an assertion, of this name.
fn is_constraint_named(x: &Item, name: &Object) -> bool
    ensures { IsTrue result ↔ spec.IsConstraint name.now x.now }
{
    match x {
        Item::DomainCheck(check) => check.get().name.same(name),
        Item::Key(key) => key.get().name.same(name),
        Item::Foreign(foreign) => foreign.get().name.same(name),
        Item::Check(check) => check.get().name.same(name),
        Item::Assertion(assertion) => assertion.get().name.same(name),
        _ => false,
    }
}

/// Whether a constraint of this kind has this name.
fn is_constraint_of(c: &Catalogue, kind: ObjectKind, name: &Object) -> bool
    ensures { IsTrue result ↔ Has c.now.items (λ x. IsObjectIn kind name.now.schema x × spec.IsConstraint name.now x) }
{
    let items = c.items();
    let all = objects_of(c, kind, &name.schema);
    for at in all.start..all.end {
        if is_constraint_named(&items[at], name) {
            return true;
        }
    }
    false
}

/// Whether a constraint, of a table or of a domain, or an assertion has this name: they have one set of names. It takes
/// no memory.
pub fn is_constraint(c: &Catalogue, name: &Object) -> bool
    ensures { IsTrue result ↔ Has c.now.items (spec.IsConstraint name.now) }
{
    let kinds = [
        ObjectKind::DomainCheck,
        ObjectKind::Key,
        ObjectKind::Foreign,
        ObjectKind::Check,
        ObjectKind::Assertion,
    ];
    for kind in kinds {
        if is_constraint_of(c, kind, name) {
            return true;
        }
    }
    false
}

/// Refuses a name that no user and no role has (SQL:2003 part 2, 5.4): `UnknownName` of that name. `Memory` is want of memory.
pub fn test_authorization(c: &Catalogue, name: &Name) -> Result<(), EditError>
    ensures { HasPassed (spec.unknown_authorization c.now.items name.now ∷ []) result }
{
    if is_authorization(c, name) {
        return Ok(());
    }
    let path = Path::one(name.copy()?);
    Err(EditError::Refused(Refusal::UnknownName { path }))
}

/// Refuses a name that no role has, also a user's: `UnknownName` of that name. `Memory` is want of memory.
pub fn test_role(c: &Catalogue, name: &Name) -> Result<(), EditError>
    ensures { HasPassed (spec.unknown_role c.now.items name.now ∷ []) result }
{
    if is_role(c, name) {
        return Ok(());
    }
    let path = Path::one(name.copy()?);
    Err(EditError::Refused(Refusal::UnknownName { path }))
}

/// Refuses a name that no schema has: `UnknownName` of that name. `Memory` is want of memory.
pub fn test_schema(c: &Catalogue, name: &Name) -> Result<(), EditError>
    ensures { HasPassed (spec.unknown_schema c.now.items name.now ∷ []) result }
{
    if is_schema(c, name) {
        return Ok(());
    }
    let path = Path::one(name.copy()?);
    Err(EditError::Refused(Refusal::UnknownName { path }))
}

/// Refuses a name that no base table has, also a view's: `UnknownName` of its schema and its name. `Memory` is want of memory.
pub fn test_base_table(c: &Catalogue, table: &Object) -> Result<(), EditError>
    ensures { HasPassed (spec.unknown_base_table c.now.items table.now ∷ []) result }
{
    if is_base_table(c, table) {
        return Ok(());
    }
    let path = path_of(table)?;
    Err(EditError::Refused(Refusal::UnknownName { path }))
}

/// Refuses a name that no column of the table or view has, also where that doesn't stand: `UnknownName` of its schema, its
/// name and the column. `Memory` is want of memory.
pub fn test_column(c: &Catalogue, table: &Object, name: &Name) -> Result<(), EditError>
    ensures { HasPassed (spec.unknown_column c.now.items table.now name.now ∷ []) result }
{
    if has_column(c, table, name) {
        return Ok(());
    }
    let path = Path::three(table.schema.copy()?, table.name.copy()?, name.copy()?);
    Err(EditError::Refused(Refusal::UnknownName { path }))
}

/// Refuses a name that a constraint, of a table or of a domain, or an assertion has (SQL:2003 part 2, 10.8): `NameExists` of
/// its schema and its name. `Memory` is want of memory.
pub fn test_new_constraint(c: &Catalogue, name: &Object) -> Result<(), EditError>
    ensures { HasPassed (spec.constraint_exists c.now.items name.now ∷ []) result }
{
    if !is_constraint(c, name) {
        return Ok(());
    }
    let path = path_of(name)?;
    Err(EditError::Refused(Refusal::NameExists { path }))
}

/// Refuses a name that a base table or a view has (SQL:2003 part 2, 11.3): `NameExists` of its schema and its name. `Memory`
/// is want of memory.
pub fn test_new_table(c: &Catalogue, table: &Object) -> Result<(), EditError>
    ensures { HasPassed (spec.table_exists c.now.items table.now ∷ []) result }
{
    if !is_table(c, table) {
        return Ok(());
    }
    let path = path_of(table)?;
    Err(EditError::Refused(Refusal::NameExists { path }))
}
