//! Tables and views that have many columns after a change.

ghost use Rattle.std.specs.Prelude.{◌≡◌, ◌<◌, ◌^◌, ◌↔◌, ℕ, List, IfSome, IfNone, IsTrue};
ghost use Rattle.std.specs.Option.{option_copied};
ghost use Rattle.sql_names.specs.declared.object.Object.{Object};
ghost use Rattle.cat_items.specs.declared.item.Item.{Item};
ghost use Rattle.cat_items.specs.Good.{IsGood};
ghost use Rattle.cat_items.specs.Ranges.{IsIn};
ghost use Rattle.cat_items.specs.Reach.{Has};
ghost use Rattle.new_catalogues.specs.Width.{HasColumnCount, IsLeastWide};
ghost use Rattle.catalogue_changes.specs.Changes.{IsChange};
ghost use Rattle.catalogue_changes.specs.Widths.{IsFirstWide, IsNarrow, IsOf, IsWideAs, column_table};

use crate::change::Change;
use cat_items::{Catalogue, Item, Part, columns_of, places};
use sql_tree::Object;

/// Base tables, or views.
#[derive(Clone, Copy)]
pub enum TableKind {
    BaseTable,
    View,
}

/// The table or view of a column.
fn table_of(x: &Item) -> Option<&Object>
    ensures { option_copied result ≡ column_table x.now }
{
    match x {
        Item::Column(column) => Some(&column.get().table),
        _ => None,
    }
}

/// The base table, or the view, of this name.
fn part_of<'a>(kind: TableKind, name: &'a Object) -> Part<'a>
    ensures { (x : Item) → IsIn result x ↔ IsOf kind name.now x }
{
    match kind {
        TableKind::BaseTable => Part::Table(name.into()),
        TableKind::View => Part::View(name.into()),
    }
}

/// Whether it stands.
fn has(c: &Catalogue, kind: TableKind, name: &Object) -> bool
    ensures { IsTrue result ↔ Has c.now.items (IsOf kind name.now) }
{
    let places = places(c, part_of(kind, name));
    places.start < places.end
}

/// Whether it stands after a change.
fn has_after(c: &Catalogue, change: &Change, kind: TableKind, name: &Object) -> bool
    ensures { (new : List Item) → IsChange c.now.items new change.now → (IsTrue result ↔ Has new (IsOf kind name.now)) }
{
    let _ = c.items();
    has(&change.coming, kind, name) || (has(c, kind, name) && !has(&change.leaving, kind, name))
}

/// How many columns a table or a view has.
fn count_columns(c: &Catalogue, table: &Object) -> usize
    ensures counted { HasColumnCount c.now.items table.now result }
    ensures few { result < 2 ^ 63 }
{
    c.items()[columns_of(c, table)].len()
}

/// How many columns a table or a view has after a change.
fn count_columns_after(c: &Catalogue, change: &Change, table: &Object) -> u64
    requires { (new : List Item) × IsChange c.now.items new change.now }
    ensures { (new : List Item) → IsChange c.now.items new change.now → HasColumnCount new table.now result }
{
    let _ = c.items();
    let stay = count_columns(c, table) - count_columns(&change.leaving, table);
    (stay + count_columns(&change.coming, table)) as u64
}

/// How many columns a base table, or a view, has after a change, where these are more than `most`.
fn count_beyond(
    c: &Catalogue,
    change: &Change,
    most: u32,
    kind: TableKind,
    table: &Object,
) -> Option<u64>
    requires { (new : List Item) × IsChange c.now.items new change.now }
    ensures some { IfSome result (λ count. (new : List Item) → IsChange c.now.items new change.now → IsWideAs kind table.now new most count) }
    ensures none { IfNone result ((new : List Item) → IsChange c.now.items new change.now → (count : ℕ) → IsWideAs kind table.now new most count → ⊥) }
{
    let count = count_columns_after(c, change, table);
    if count > most as u64 && has_after(c, change, kind, table) {
        Some(count)
    } else {
        None
    }
}

/// How many columns the first base table, or the first view, has after a change that has more than `most`.
fn first_beyond(c: &Catalogue, change: &Change, most: u32, kind: TableKind) -> Option<u64>
    requires change { (new : List Item) × IsChange c.now.items new change.now }
    requires good { IsGood c.now.items }
    requires narrow { IsNarrow c.now.items most }
    ensures some { IfSome result (λ count. (new : List Item) → IsChange c.now.items new change.now → IsFirstWide kind new most count) }
    ensures none { IfNone result ((new : List Item) → IsChange c.now.items new change.now → (o : Object) (count : ℕ) → IsWideAs kind o new most count → ⊥) }
{
    let _ = c.items();
    let items = change.coming.items();
    let mut at = 0;
    while at < items.len() {
        let Some(table) = table_of(&items[at]) else {
            at += 1;
            continue;
        };
        if let Some(count) = count_beyond(c, change, most, kind, table) {
            return Some(count);
        }
        at = columns_of(&change.coming, table).end;
    }
    None
}

/// How many columns the least table or view has, in the order of items, that has more than `most` after the change
/// of a catalogue where none has more; `None` where none has. It takes no memory.
///
/// It looks only at the tables and views that get columns.
pub fn columns_beyond_after(c: &Catalogue, change: &Change, most: u32) -> Option<u64>
    requires change { (new : List Item) × IsChange c.now.items new change.now }
    requires good { IsGood c.now.items }
    requires narrow { IsNarrow c.now.items most }
    ensures least { IfSome result (λ count. (new : List Item) → IsChange c.now.items new change.now → IsLeastWide new most count) }
    ensures none { IfNone result ((new : List Item) → IsChange c.now.items new change.now → IsNarrow new most) }
{
    match first_beyond(c, change, most, TableKind::BaseTable) {
        Some(count) => Some(count),
        None => first_beyond(c, change, most, TableKind::View),
    }
}
