//! A view with its columns.

ghost use Rattle.std.specs.Prelude.{◌≡◌, ◌≤◌, ◌<◌, ◌↔◌, ◌⊎◌, IfOk, OnOk, Some, Contains, length, slice_get};
ghost use Rattle.cat_items.specs.declared.item.Column.{Column};
ghost use Rattle.cat_items.specs.declared.item.Item.{Item};
ghost use Rattle.cat_items.specs.declared.item.Item.TheVariants as item;
ghost use Rattle.edit_rules.specs.Chosen.{AreAll};
ghost use Rattle.object_edits.specs.CreatedViews as spec;
ghost use Rattle.object_edits.specs.ViewSteps as steps;

use cat_items::{Catalogue, Column, Item, Shared, View};
use edit_rules::put;
use sql_tree::{Items, Name, Object, SqlType};
use std::alloc::{AllocError, Global};

/// A column of a view.
fn column_of(view: &Object, name: &Name, sort: SqlType, place: u32) -> Result<Column, AllocError>
    ensures { IfOk result (λ x. x ≡ spec.column_of view.now name.now sort place) }
{
    Ok(Column {
        table: view.copy()?,
        place,
        name: name.copy()?,
        sort,
        domain: None,
        default: None,
        not_null: false,
    })
}

/// The type at a place.
fn sort_at(sorts: &[SqlType], at: usize) -> SqlType
    requires { at < length sorts.now }
    ensures { slice_get sorts.now at ≡ Some result }
{
    sorts[at]
}

/// Puts in a column behind those of the places before it.
fn put_column(
    alloc: Global,
    added: &mut Catalogue,
    view: &Object,
    name: &Name,
    sort: SqlType,
    place: u32,
) -> Result<(), AllocError>
    requires { (x : Column) → Contains added.old.items (item.Column x) → x.place < place }
    ensures { OnOk result ((x : Item) → Contains added.new.items x ↔ (Contains added.old.items x ⊎ (x ≡ item.Column (spec.column_of view.now name.now sort place)))) }
{
    let column = column_of(view, name, sort, place)?;
    put(added, Item::Column(Shared::new(alloc, column)?))
}

/// Puts in the columns, with places from 1 in their order.
fn put_columns(
    alloc: Global,
    added: &mut Catalogue,
    view: &Object,
    names: &Items<Name>,
    sorts: &Items<SqlType>,
) -> Result<(), AllocError>
    requires count { length names.now ≡ length sorts.now }
    requires few { length names.now ≤ 4294967295 }
    requires new { (x : Column) → ¬ (Contains added.old.items (item.Column x)) }
    ensures { OnOk result ((x : Item) → Contains added.new.items x ↔ (Contains added.old.items x ⊎ steps.IsColumnAmong view.now names.now sorts.now x)) }
{
    let names = names.as_slice();
    let sorts = sorts.as_slice();
    let mut place = 0;
    for at in 0..names.len() {
        let name = &names[at];
        let sort = sort_at(sorts, at);
        place += 1;
        put_column(alloc, added, view, name, sort, place)?;
    }
    Ok(())
}

/// A view and its columns, in order. `Err` is want of memory.
pub fn items_of(
    alloc: Global,
    view: View,
    names: &Items<Name>,
    sorts: &Items<SqlType>,
) -> Result<Items<Item>, AllocError>
    requires count { length names.now ≡ length sorts.now }
    requires few { length names.now ≤ 4294967295 }
    ensures { IfOk result (AreAll (steps.IsAmong view names.now sorts.now)) }
{
    let table = view.view.copy()?;
    let mut added = Catalogue::of_sorted(Vec::new(alloc));
    put(&mut added, Item::View(Shared::new(alloc, view)?))?;
    put_columns(alloc, &mut added, &table, names, sorts)?;
    Ok(Items::from_vec(added.into_items()))
}
