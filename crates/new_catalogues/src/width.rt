//! Tables and views with many columns.

ghost use Rattle.std.specs.Prelude.{◌≡◌, ℕ, IfSome, IfNone};
ghost use Rattle.std.specs.Option.{option_copied};
ghost use Rattle.cat_items.specs.declared.item.Item.{Item};
ghost use Rattle.cat_items.specs.Catalogues.{IsInOrder};
ghost use Rattle.new_catalogues.specs.Width.{HasColumnCount, HasMoreColumns, IsLeastWide, table_name};

use cat_items::{Catalogue, Item, columns_of};
use sql_tree::Object;

/// The name of a base table or a view.
fn table_of(x: &Item) -> Option<&Object>
    ensures { option_copied result ≡ table_name x.now }
{
    match x {
        Item::Table(table) => Some(table.get()),
        Item::View(view) => Some(&view.get().view),
        _ => None,
    }
}

/// How many columns a table or a view has.
fn column_count(c: &Catalogue, table: &Object) -> u64
    requires { IsInOrder c.now.items }
    ensures { HasColumnCount c.now.items table.now result }
{
    columns_of(c, table).len() as u64
}

/// How many columns the least table or view has, in the order of items, that has more than `most`; `None` where
/// none has. It takes no memory.
pub fn columns_beyond(c: &Catalogue, most: u32) -> Option<u64>
    ensures least { IfSome result (IsLeastWide c.now.items most) }
    ensures none { IfNone result ((count : ℕ) (x : Item) → HasMoreColumns c.now.items most count x → ⊥) }
{
    for x in c.items() {
        let Some(table) = table_of(x) else {
            continue;
        };
        let count = column_count(c, table);
        if count > most as u64 {
            return Some(count);
        }
    }
    None
}
