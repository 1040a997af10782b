//! Constraints of a table that is made.

ghost use Rattle.std.specs.Prelude.{◌≡◌, ◌↔◌, Contains, IfOk};
ghost use Rattle.cat_items.specs.declared.item.Item.{Item as AnyItem};
ghost use Rattle.edit_rules.specs.First.{IsTested};
ghost use Rattle.table_constraints.specs.Made.{IsConstraintMade};
ghost use Rattle.table_elements.specs.Found.{AreFoundFor};
ghost use Rattle.table_creation.specs.Tables as spec;

use crate::new_table::NewTable;
use cat_items::{Catalogue, EditError, Item, Key, Shared, Who};
use sql_tree::Items;
use std::alloc::{AllocError, Global};
use table_constraints::{constraints_made, test_types};
use table_names::NamedConstraint;
use table_parts::Part;
use table_types::test_places;
use table_work::{Work, columns_described};
use view_deps::ResolvedExpr;

/// What the statement sees of its own table: all its columns, and these keys. `Err` is want of memory.
pub fn work_with(
    alloc: Global,
    c: &Catalogue,
    who: &Who,
    new: &NewTable,
    keys: Items<Shared<Key>>,
) -> Result<Work, AllocError>
    ensures { IfOk result (λ w. w ≡ spec.work_with c.now.items who.now new.now.table new.now.parts keys) }
{
    Ok(Work {
        table: new.table.copy()?,
        columns: columns_described(alloc, c, who, &new.parts)?,
        keys,
    })
}

/// What these constraints make, or the first refusal by types, keys and places: `TypeMismatch`, `NoSuchKey` or `CatalogFull`. `Memory` is
/// want of memory.
pub fn tested_constraints(
    alloc: Global,
    c: &Catalogue,
    who: &Who,
    w: &Work,
    parts: &Items<Part>,
    named: &Items<NamedConstraint>,
    found: &Items<Option<ResolvedExpr>>,
) -> Result<Items<Item>, EditError>
    requires { AreFoundFor c.now.items who.now w.now named.now found.now }
    ensures { IsTested (spec.rules_over c.now.items who.now w.now parts.now named.now) (λ made. (x : AnyItem) → Contains made x ↔ IsConstraintMade c.now.items who.now w.now named.now x) result }
{
    test_types(alloc, c, who, w, parts, named, found)?;
    let made = constraints_made(alloc, c, who, w, named, found)?;
    test_places(0, parts)?;
    Ok(made)
}
