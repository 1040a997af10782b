//! Which key REFERENCES means.

ghost use Rattle.std.specs.Prelude.{◌≡◌, ◌↔◌, IfNone, IfSome, IsTrue, Contains};
ghost use Rattle.std.specs.Option.{option_copied};
ghost use Rattle.sql_names.specs.NameBytes.{NameBytes};
ghost use Rattle.cat_items.specs.declared.item.Key.{Key as AnyKey};
ghost use Rattle.table_work.specs.Keys as spec;

use cat_items::{Key, Shared};
use sql_tree::{Items, Name};
use table_parts::is_among;

/// Whether all of these names are among others.
fn are_among(names: &Items<Name>, others: &Items<Name>) -> bool
    ensures { IsTrue result ↔ ((name : NameBytes) → Contains names.now name → Contains others.now name) }
{
    for name in names.as_slice() {
        if !is_among(others, name) {
            return false;
        }
    }
    true
}

/// Whether a key may be meant by these columns; none are written for a primary key.
fn fits_columns(columns: &Items<Name>, key: &Key) -> bool
    ensures { IsTrue result ↔ spec.FitsColumns columns.now key.now }
{
    if columns.is_empty() {
        return key.primary;
    }
    are_among(&key.columns, columns) && are_among(columns, &key.columns)
}

/// Whether a key comes before another one, if there is another.
fn is_before(key: &Key, other: Option<&Key>) -> bool
    ensures { IsTrue result ↔ spec.IsBefore key.now (option_copied other.entry) }
{
    match other {
        None => true,
        Some(other) => key.name.cmp(&other.name).is_lt(),
    }
}

/// The key that REFERENCES means with these columns, of which none are written for the primary key, among the keys of its target: the
/// least by its name (SQL:2003 part 2, 11.8). It takes no memory.
pub fn meant_key<'a>(keys: &'a Items<Shared<Key>>, columns: &Items<Name>) -> Option<&'a Key>
    ensures found { IfSome (option_copied result) (spec.IsMeant keys.now columns.now) }
    ensures none { IfNone (option_copied result) ((k : AnyKey) → ¬ (spec.IsMeant keys.now columns.now k)) }
{
    let mut first: Option<&Key> = None;
    for key in keys.as_slice() {
        let key = key.get();
        if fits_columns(columns, key) && is_before(key, first) {
            first = Some(key);
        }
    }
    first
}

/// The columns of a target: those that are written, or those of the key that is meant.
pub fn columns_meant<'a>(columns: &'a Items<Name>, key: &'a Key) -> &'a Items<Name>
    ensures { result.now ≡ spec.columns_meant columns.now key.now }
{
    if columns.is_empty() {
        &key.columns
    } else {
        columns
    }
}

/// The key to which a foreign key of these columns is bound, if there is one: the key that its REFERENCES means with the columns that it
/// writes, where it has as many. It takes no memory.
pub fn bound_key<'a>(
    keys: &'a Items<Shared<Key>>,
    columns: &Items<Name>,
    written: &Items<Name>,
) -> Option<&'a Key>
    ensures found { IfSome (option_copied result) (spec.IsBound keys.now columns.now written.now) }
    ensures none { IfNone (option_copied result) ((k : AnyKey) → ¬ (spec.IsBound keys.now columns.now written.now k)) }
{
    let key = meant_key(keys, written)?;
    if columns_meant(written, key).len() == columns.len() {
        Some(key)
    } else {
        None
    }
}
