//! What an ADD is refused for: names that are taken, and a second PRIMARY KEY.

ghost use Rattle.std.specs.Prelude.{◌≡◌, ◌↔◌, ◌∷◌, [], ◌++◌, map, Contains, IsTrue};
ghost use Rattle.std.specs.List.{Any};
ghost use Rattle.cat_items.specs.declared.item.Item.{Item as AnyItem};
ghost use Rattle.edit_rules.specs.First.{HasPassed, IsTested, tests_of};
ghost use Rattle.table_names.specs.Given.{given_names};
ghost use Rattle.table_names.specs.Refusals.{exists_in};
ghost use Rattle.table_elements.specs.Found.{AreFoundFor};
ghost use Rattle.table_constraints.specs.Made.{IsConstraintMade};
ghost use Rattle.table_additions.specs.Additions as spec;

use crate::columns::last_place;
use crate::new_parts::FoundParts;
use cat_items::{Catalogue, EditError, Item, Key, Refusal, Shared, Who};
use edit_rules::{has_column, path_of};
use sql_tree::{Items, Name, Object, Path};
use std::alloc::Global;
use table_constraints::{constraints_made, test_types};
use table_names::{NamedConstraint, given_names as names_given, test_new_constraints};
use table_parts::Part;
use table_types::test_places;
use table_work::own_keys;

/// Refuses the name of a column of the table: `NameExists` of its schema, its name and the column.
fn test_new_column(c: &Catalogue, table: &Object, name: &Name) -> Result<(), EditError>
    ensures { HasPassed (spec.column_exists c.now.items table.now name.now ∷ []) result }
{
    if !has_column(c, table, name) {
        return Ok(());
    }
    let path = Path::three(table.schema.copy()?, table.name.copy()?, name.copy()?);
    Err(EditError::Refused(Refusal::NameExists { path }))
}

fn test_new_part(c: &Catalogue, table: &Object, part: &Part) -> Result<(), EditError>
    ensures { HasPassed (spec.column_taken c.now.items table.now part.now) result }
{
    match part {
        Part::Column(definition) => test_new_column(c, table, &definition.column),
        Part::Constraint(_) => Ok(()),
    }
}

/// Refuses the first new column that the table has already.
fn test_new_columns(c: &Catalogue, table: &Object, parts: &Items<Part>) -> Result<(), EditError>
    ensures { HasPassed (tests_of (spec.column_taken c.now.items table.now) parts.now) result }
{
    for part in parts.as_slice() {
        test_new_part(c, table, part)?;
    }
    Ok(())
}

/// Refuses names that are taken: those of columns, and then those given to constraints.
pub fn test_taken_names(
    alloc: Global,
    c: &Catalogue,
    table: &Object,
    parts: &Items<Part>,
) -> Result<(), EditError>
    ensures { HasPassed (tests_of (spec.column_taken c.now.items table.now) parts.now ++ map (exists_in c.now.items table.now.schema) (given_names parts.now)) result }
{
    test_new_columns(c, table, parts)?;
    let names = names_given(alloc, parts)?;
    test_new_constraints(c, &table.schema, &names)
}

/// Whether one of these keys is a primary key.
fn has_primary(keys: &Items<Shared<Key>>) -> bool
    ensures { IsTrue result ↔ Any spec.IsPrimaryKey keys.now }
{
    for key in keys.as_slice() {
        if key.get().primary {
            return true;
        }
    }
    false
}

/// Whether there is a primary key among the new keys, and one among those that stand.
fn is_second(own: &Items<Shared<Key>>, keys: &Items<Shared<Key>>) -> bool
    ensures { IsTrue result ↔ (Any spec.IsPrimaryKey own.now × Any spec.IsPrimaryKey keys.now) }
{
    has_primary(own) && has_primary(keys)
}

/// Refuses a PRIMARY KEY where there is one: `Repeated` of the table.
fn test_second_primary(
    alloc: Global,
    table: &Object,
    named: &Items<NamedConstraint>,
    keys: &Items<Shared<Key>>,
) -> Result<(), EditError>
    ensures { HasPassed (spec.second_primary table.now named.now keys.now ∷ []) result }
{
    let own = own_keys(alloc, table, named)?;
    if !is_second(&own, keys) {
        return Ok(());
    }
    let path = path_of(table)?;
    Err(EditError::Refused(Refusal::Repeated { path }))
}

/// What the constraints make, or the first refusal by types, keys and places.
pub fn made_by(
    alloc: Global,
    c: &Catalogue,
    who: &Who,
    parts: &Items<Part>,
    found: &FoundParts,
    named: &Items<NamedConstraint>,
) -> Result<Items<Item>, EditError>
    requires work { found.now.work ≡ spec.added_work c.now.items who.now found.now.work.table parts.now }
    requires found { AreFoundFor c.now.items who.now found.now.work named.now found.now.found }
    ensures { IsTested (spec.addition_rules c.now.items who.now found.now.work.table parts.now named.now) (λ made. (x : AnyItem) → Contains made x ↔ IsConstraintMade c.now.items who.now found.now.work named.now x) result }
{
    let work = &found.work;
    test_types(alloc, c, who, work, parts, named, &found.found)?;
    let made = constraints_made(alloc, c, who, work, named, &found.found)?;
    test_second_primary(alloc, &work.table, named, &work.keys)?;
    test_places(last_place(c, &work.table), parts)?;
    Ok(made)
}
