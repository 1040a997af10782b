//! The descriptors that ADD adds.

ghost use Rattle.std.specs.Prelude.{◌≡◌, ◌≤◌, ◌+◌, ◌↔◌, ◌++◌, flat_map, length, map, Contains, IfOk, List, OnOk};
ghost use Rattle.std.specs.declared.cmp.Ordering.TheVariants.{Equal};
ghost use Rattle.cat_items.specs.declared.item.Item.{Item as AnyItem};
ghost use Rattle.cat_items.specs.declared.item.Item.TheVariants as item;
ghost use Rattle.cat_items.specs.Order.{item_cmp};
ghost use Rattle.edit_rules.specs.Chosen.{AreAll};
ghost use Rattle.table_names.specs.declared.named.NamedConstraint.{NamedConstraint};
ghost use Rattle.table_parts.specs.Parts.{columns_of};
ghost use Rattle.table_constraints.specs.Made.{IsConstraintMade};
ghost use Rattle.table_additions.specs.Additions as spec;
ghost use Rattle.table_additions.specs.Lists as lists;

use crate::columns::{last_place, with_not_null};
use crate::rights::push_parts;
use cat_items::{Catalogue, Column, Item, Shared, Who};
use sql_tree::{Items, Object};
use std::alloc::{AllocError, Global};
use table_constraints::put_all;
use table_parts::Part;
use table_work::columns_made;

/// Puts a column behind others, with NOT NULL.
fn push_with_not_null(alloc: Global, all: &mut Items<Item>, x: &Item) -> Result<(), AllocError>
    ensures { OnOk result (all.new ≡ all.old ++ lists.with_not_null x.now) }
{
    match x {
        Item::Column(column) => {
            let column = with_not_null(column.get())?;
            all.push(Item::Column(Shared::new(alloc, column)?))
        }
        _ => Ok(()),
    }
}

/// Puts columns behind others, with NOT NULL.
fn push_back(alloc: Global, all: &mut Items<Item>, columns: &Items<Item>) -> Result<(), AllocError>
    ensures { OnOk result (all.new ≡ all.old ++ flat_map lists.with_not_null columns.now) }
{
    for x in columns.as_slice() {
        push_with_not_null(alloc, all, x)?;
    }
    Ok(())
}

fn push_columns(all: &mut Items<Item>, columns: &Items<Shared<Column>>) -> Result<(), AllocError>
    ensures { OnOk result (all.new ≡ all.old ++ map item.Column columns.now) }
{
    for column in columns.as_slice() {
        all.push(Item::Column(column.share()?))?;
    }
    Ok(())
}

/// Puts the new columns behind others.
fn push_new(
    alloc: Global,
    all: &mut Items<Item>,
    c: &Catalogue,
    who: &Who,
    table: &Object,
    parts: &Items<Part>,
) -> Result<(), AllocError>
    requires { spec.last_place c.now.items table.now + length (columns_of parts.now) ≤ 4294967295 }
    ensures { OnOk result (all.new ≡ all.old ++ map item.Column (spec.added_columns c.now.items who.now table.now parts.now)) }
{
    let last = last_place(c, table);
    let columns = columns_made(alloc, c, who, table, parts, last)?;
    push_columns(all, &columns)
}

/// All that is added beside the constraints that are made: the new columns, those that are put back with NOT NULL, and the rights.
/// `Err` is want of memory.
pub fn all_added(
    alloc: Global,
    c: &Catalogue,
    who: &Who,
    table: &Object,
    parts: &Items<Part>,
    target: &Items<Item>,
    made: Items<Item>,
) -> Result<Items<Item>, AllocError>
    requires places { spec.last_place c.now.items table.now + length (columns_of parts.now) ≤ 4294967295 }
    requires target { (x : AnyItem) → Contains target.now x ↔ (Contains c.now.items x × spec.IsMadeNotNull table.now parts.now x) }
    ensures { IfOk result (λ all. (named : List NamedConstraint) → ((x : AnyItem) → Contains made x ↔ IsConstraintMade c.now.items who.now (spec.added_work c.now.items who.now table.now parts.now) named x)
        → (x : AnyItem) → Contains all x ↔ spec.IsAdded c.now.items who.now table.now parts.now named x) }
{
    let mut all = made;
    push_back(alloc, &mut all, target)?;
    push_new(alloc, &mut all, c, who, table, parts)?;
    push_parts(alloc, &mut all, c, table, parts)?;
    Ok(all)
}

/// The same descriptors in order. `Err` is want of memory.
pub fn in_order(alloc: Global, items: &Items<Item>) -> Result<Items<Item>, AllocError>
    requires { (x y : AnyItem) → Contains items.now x → Contains items.now y → item_cmp x y ≡ Equal → x ≡ y }
    ensures { IfOk result (AreAll (Contains items.now)) }
{
    let mut sorted = Catalogue::of_sorted(Vec::new(alloc));
    put_all(&mut sorted, items)?;
    Ok(Items::from_vec(sorted.into_items()))
}
