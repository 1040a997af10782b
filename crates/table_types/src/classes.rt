//! Classes of the columns of foreign keys.

ghost use Rattle.std.specs.Prelude.{◌↔◌, List, IfNone, IfSome, IsTrue};
ghost use Rattle.std.specs.List.{Any};
ghost use Rattle.std.specs.Option.{option_copied};
ghost use Rattle.sql_names.specs.NameBytes.{NameBytes as AnyName};
ghost use Rattle.table_types.specs.Types as spec;

use cat_items::{Key, Shared};
use sql_tree::{Items, Name, Param};
use table_parts::{Class, class_of};
use table_work::meant_key;

/// Whether a column has a name, and another class.
fn is_another(column: &Param, name: &Name, class: Class) -> bool
    ensures { IsTrue result ↔ spec.IsAnother name.now class column.now }
{
    column.name.same(name) && class_of(column.sort) != class
}

/// Whether one of these columns has a name, and another class.
fn has_another(columns: &Items<Param>, name: &Name, class: Class) -> bool
    ensures { IsTrue result ↔ Any (spec.IsAnother name.now class) columns.now }
{
    for column in columns.as_slice() {
        if is_another(column, name, class) {
            return true;
        }
    }
    false
}

/// Whether a column has the first name, and one of the others the second and another class.
fn differs_from(others: &Items<Param>, x: &Param, column: &Name, name: &Name) -> bool
    ensures { IsTrue result ↔ spec.DiffersFrom others.now column.now name.now x.now }
{
    x.name.same(column) && has_another(others, name, class_of(x.sort))
}

/// Whether columns of these names are of two classes.
fn are_of_two_classes(own: &Items<Param>, others: &Items<Param>, column: &Name, name: &Name) -> bool
    ensures { IsTrue result ↔ spec.AreOfTwoClasses own.now others.now column.now name.now }
{
    for x in own.as_slice() {
        if differs_from(others, x, column, name) {
            return true;
        }
    }
    false
}

/// Whether the columns at this place of two lists are of two classes.
fn differ_at(
    own: &Items<Param>,
    others: &Items<Param>,
    columns: &Items<Name>,
    names: &Items<Name>,
    at: usize,
) -> bool
    ensures { IsTrue result ↔ spec.DifferAt own.now others.now columns.now names.now at }
{
    match (columns.get(at), names.get(at)) {
        (Some(column), Some(name)) => are_of_two_classes(own, others, column, name),
        _ => false,
    }
}

/// Whether the columns at one place of two lists are of two classes.
fn are_of_two_classes_at(
    own: &Items<Param>,
    others: &Items<Param>,
    columns: &Items<Name>,
    names: &Items<Name>,
) -> bool
    ensures { IsTrue result ↔ spec.AreOfTwoClassesAt own.now others.now columns.now names.now }
{
    for at in 0..columns.len() {
        if differ_at(own, others, columns, names, at) {
            return true;
        }
    }
    false
}

/// The columns that REFERENCES means: those that are written, else those of the primary key.
fn names_meant<'a>(
    keys: &'a Items<Shared<Key>>,
    written: &'a Items<Name>,
) -> Option<&'a Items<Name>>
    ensures found { IfSome (option_copied result) (spec.AreMeant keys.now written.now) }
    ensures none { IfNone (option_copied result) ((names : List AnyName) → ¬ (spec.AreMeant keys.now written.now names)) }
{
    if !written.is_empty() {
        return Some(written);
    }
    let key = meant_key(keys, written)?;
    Some(&key.columns)
}

/// Whether as many columns as are meant have other classes.
pub fn are_misfits(
    own: &Items<Param>,
    others: &Items<Param>,
    keys: &Items<Shared<Key>>,
    columns: &Items<Name>,
    written: &Items<Name>,
) -> bool
    ensures { IsTrue result ↔ spec.AreMisfits own.now others.now keys.now columns.now written.now }
{
    match names_meant(keys, written) {
        None => false,
        Some(names) => {
            names.len() == columns.len() && are_of_two_classes_at(own, others, columns, names)
        }
    }
}
