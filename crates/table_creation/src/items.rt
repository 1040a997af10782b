//! Descriptors of a table that is made.

ghost use Rattle.std.specs.Prelude.{◌≡◌, ◌≤◌, ◌∷◌, [], ◌++◌, map, length, IfOk, OnOk};
ghost use Rattle.cat_items.specs.declared.item.Item.TheVariants as item;
ghost use Rattle.table_parts.specs.Parts.{columns_of};
ghost use Rattle.table_creation.specs.Tables as spec;

use crate::new_table::NewTable;
use cat_items::{Catalogue, Column, Item, Shared, Who};
use sql_tree::Items;
use std::alloc::{AllocError, Global};
use table_work::columns_made;

/// Puts the columns behind the items.
fn push_columns(items: &mut Items<Item>, columns: &Items<Shared<Column>>) -> Result<(), AllocError>
    ensures { OnOk result (items.new ≡ items.old ++ map item.Column columns.now) }
{
    for column in columns.as_slice() {
        items.push(Item::Column(column.share()?))?;
    }
    Ok(())
}

/// The table and its columns, behind these items. `Err` is want of memory.
pub fn with_table(
    alloc: Global,
    c: &Catalogue,
    who: &Who,
    new: &NewTable,
    items: Items<Item>,
) -> Result<Items<Item>, AllocError>
    requires { length (columns_of new.now.parts) ≤ 4294967295 }
    ensures { IfOk result (λ all. all ≡ (items ++ item.Table new.now.table ∷ []) ++ map item.Column (spec.new_columns c.now.items who.now new.now.table new.now.parts)) }
{
    let mut all = items;
    let columns = columns_made(alloc, c, who, &new.table, &new.parts, 0)?;
    all.push(Item::Table(Shared::new(alloc, new.table.copy()?)?))?;
    push_columns(&mut all, &columns)?;
    Ok(all)
}
