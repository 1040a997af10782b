//! Names of objects, paths and needs whose parts are lent.

ghost use Rattle.std.specs.Prelude.{◌≡◌};
ghost use Rattle.std.specs.Option.{option_cmp, option_copied};
ghost use Rattle.std.specs.Cmp.Lexicographic.{slice_cmp};
ghost use Rattle.cat_items.specs.Keys.{object_of, path_in, need_of};
ghost use Rattle.cat_items.specs.Order.{name_cmp, object_cmp, need_cmp, target_cmp};
ghost use Rattle.cat_items.specs.Rights.{path_of};

use crate::need::Need;
use sql_tree::{Action, Name, Object, Path};
use std::cmp::Ordering;

/// The full name of an object, whose parts are lent: for calls that take no memory and have no [`Object`] at hand.
#[derive(Clone, Copy)]
pub struct ObjectKey<'a> {
    pub schema: &'a Name,
    pub name: &'a Name,
}

impl<'a> From<&'a Object> for ObjectKey<'a> {
    ghost from_gives = { λ object key. object_of key ≡ object.now };

    fn from(object: &'a Object) -> ObjectKey<'a> {
        ObjectKey {
            schema: &object.schema,
            name: &object.name,
        }
    }
}

/// A path that is lent, or the one of an object.
#[derive(Clone, Copy)]
pub enum PathKey<'a> {
    Path(&'a Path),
    Object(ObjectKey<'a>),
}

/// A need whose parts are lent: for calls that take no memory and have no [`Need`] at hand.
#[derive(Clone, Copy)]
pub struct NeedKey<'a> {
    pub action: Action,
    pub on: PathKey<'a>,
    pub column: Option<&'a Name>,
}

impl<'a> From<&'a Need> for NeedKey<'a> {
    ghost from_gives = { λ need key. need_of key ≡ need.now };

    fn from(need: &'a Need) -> NeedKey<'a> {
        NeedKey {
            action: need.action,
            on: PathKey::Path(&need.on),
            column: need.column.as_ref(),
        }
    }
}

/// Compares the full name of an object with another.
pub fn compare_object(x: &Object, key: ObjectKey<'_>) -> Ordering
    ensures { result ≡ object_cmp x.now (object_of key.entry) }
{
    x.schema.cmp(key.schema).then_with(|| x.name.cmp(key.name))
}

/// Compares a path with the one of an object.
fn compare_with_object(x: &Path, key: ObjectKey<'_>) -> Ordering
    ensures { result ≡ slice_cmp name_cmp x.now (path_of (object_of key.entry)) }
{
    match (x.get(0), x.get(1), x.get(2)) {
        (Some(schema), Some(name), Some(_)) => {
            let name = name.cmp(key.name);
            schema.cmp(key.schema).then(name.then(Ordering::Greater))
        }
        (Some(schema), Some(name), None) => schema.cmp(key.schema).then(name.cmp(key.name)),
        (Some(schema), None, _) => schema.cmp(key.schema).then(Ordering::Less),
        (None, _, _) => Ordering::Less,
    }
}

/// Compares a path with another.
fn compare_path(x: &Path, key: PathKey<'_>) -> Ordering
    ensures { result ≡ slice_cmp name_cmp x.now (path_in key.entry) }
{
    match key {
        PathKey::Path(path) => x.cmp(path),
        PathKey::Object(object) => compare_with_object(x, object),
    }
}

/// Compares the column of a need with another, where none comes first.
fn compare_column(x: &Option<Name>, key: Option<&Name>) -> Ordering
    ensures { result ≡ option_cmp name_cmp x.now (option_copied key.entry) }
{
    match (x, key) {
        (None, None) => Ordering::Equal,
        (None, Some(_)) => Ordering::Less,
        (Some(_), None) => Ordering::Greater,
        (Some(name), Some(other)) => name.cmp(other),
    }
}

/// Compares the action and the path of a need with others.
pub fn compare_target(x: &Need, action: Action, on: PathKey<'_>) -> Ordering
    ensures { result ≡ target_cmp x.now action (path_in on.entry) }
{
    let on = compare_path(&x.on, on);
    let action = x.action.cmp(&action);
    action.then(on)
}

/// Compares a need with another.
pub fn compare_need(x: &Need, key: NeedKey<'_>) -> Ordering
    ensures { result ≡ need_cmp x.now (need_of key.entry) }
{
    let on = compare_path(&x.on, key.on);
    let column = compare_column(&x.column, key.column);
    let rest = on.then(column);
    let action = x.action.cmp(&key.action);
    action.then(rest)
}
