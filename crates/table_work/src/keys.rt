//! The keys of a table.

ghost use Rattle.std.specs.Prelude.{◌≡◌, ◌++◌, flat_map, IfOk, OnOk};
ghost use Rattle.std.specs.Option.{option_to_list};
ghost use Rattle.table_work.specs.Keys as keys;
ghost use Rattle.table_work.specs.Seen as spec;

use crate::work::Work;
use cat_items::{Catalogue, Item, Key, ObjectKind, Shared, objects_of};
use name_scopes::{is_name, same_object};
use sql_tree::{Items, Name, Object, TableConstraintKind};
use std::alloc::{AllocError, Global};
use table_names::NamedConstraint;

/// The descriptors of the keys in the schema of a table.
fn descriptors<'a>(c: &'a Catalogue, table: &Object) -> &'a [Item]
    ensures { spec.keys_in c.now.items table.now ≡ flat_map (spec.key_here table.now) result.now }
{
    &c.items()[objects_of(c, ObjectKind::Key, &table.schema)]
}

fn is_key_of(table: &Object, key: &Key) -> bool
    ensures { result ≡ spec.is_key_of table.now key.now }
{
    same_object(&key.table, table) && is_name(&key.name.schema, &table.schema)
}

fn push_key_here(out: &mut Items<Shared<Key>>, table: &Object, x: &Item) -> Result<(), AllocError>
    ensures { OnOk result (out.new ≡ out.old ++ spec.key_here table.now x.now) }
{
    match x {
        Item::Key(key) if is_key_of(table, key.get()) => out.push(key.share()?),
        _ => Ok(()),
    }
}

fn push_keys(out: &mut Items<Shared<Key>>, table: &Object, items: &[Item]) -> Result<(), AllocError>
    ensures { OnOk result (out.new ≡ out.old ++ flat_map (spec.key_here table.now) items.now) }
{
    for x in items {
        push_key_here(out, table, x)?;
    }
    Ok(())
}

/// The keys of a table of the catalogue, in the order of their names. It looks at the keys of the table's schema. `Err` is want of memory.
pub fn keys_in(
    alloc: Global,
    c: &Catalogue,
    table: &Object,
) -> Result<Items<Shared<Key>>, AllocError>
    ensures { IfOk result (λ keys. keys ≡ spec.keys_in c.now.items table.now) }
{
    let mut keys = Items::new(alloc);
    push_keys(&mut keys, table, descriptors(c, table))?;
    Ok(keys)
}

fn share_keys(alloc: Global, keys: &Items<Shared<Key>>) -> Result<Items<Shared<Key>>, AllocError>
    ensures { IfOk result (λ copy. copy ≡ keys.now) }
{
    let mut copy = Items::new(alloc);
    for key in keys.as_slice() {
        copy.push(key.share()?)?;
    }
    Ok(copy)
}

/// The keys of a table that a statement sees: of the table that it makes or alters those that it may refer to. `Err` is want of memory.
pub fn keys_seen(
    alloc: Global,
    c: &Catalogue,
    w: &Work,
    table: &Object,
) -> Result<Items<Shared<Key>>, AllocError>
    ensures { IfOk result (λ keys. keys ≡ spec.keys_seen c.now.items w.now table.now) }
{
    if same_object(table, &w.table) {
        share_keys(alloc, &w.keys)
    } else {
        keys_in(alloc, c, table)
    }
}

/// An equal list of names, which shares their bytes. `Err` is want of memory.
pub fn copy_names(alloc: Global, names: &Items<Name>) -> Result<Items<Name>, AllocError>
    ensures { IfOk result (λ copy. copy ≡ names.now) }
{
    let mut copies = Items::new(alloc);
    for name in names.as_slice() {
        copies.push(name.copy()?)?;
    }
    Ok(copies)
}

/// A key of a table, whose constraint has this name.
fn key_with(
    alloc: Global,
    table: &Object,
    name: &Name,
    primary: bool,
    columns: &Items<Name>,
) -> Result<Shared<Key>, AllocError>
    ensures { IfOk result (λ key. key ≡ record { name = keys.beside table.now name.now; table = table.now; primary = primary; columns = columns.now }) }
{
    let name = Object {
        schema: table.schema.copy()?,
        name: name.copy()?,
    };
    let table = table.copy()?;
    let columns = copy_names(alloc, columns)?;
    Shared::new(
        alloc,
        Key {
            name,
            table,
            primary,
            columns,
        },
    )
}

/// The key that a constraint of a table makes, if it makes one. `Err` is want of memory.
pub fn own_key(
    alloc: Global,
    table: &Object,
    constraint: &NamedConstraint,
) -> Result<Option<Shared<Key>>, AllocError>
    ensures { IfOk result (λ key. key ≡ keys.own_key table.now constraint.now) }
{
    let name = &constraint.name;
    match &constraint.kind {
        TableConstraintKind::PrimaryKey(columns) => {
            Ok(Some(key_with(alloc, table, name, true, columns)?))
        }
        TableConstraintKind::Unique(columns) => {
            Ok(Some(key_with(alloc, table, name, false, columns)?))
        }
        TableConstraintKind::ForeignKey { .. } | TableConstraintKind::Check(_) => Ok(None),
    }
}

fn push_key(
    alloc: Global,
    table: &Object,
    own: &mut Items<Shared<Key>>,
    constraint: &NamedConstraint,
) -> Result<(), AllocError>
    ensures { OnOk result (own.new ≡ own.old ++ option_to_list (keys.own_key table.now constraint.now)) }
{
    match own_key(alloc, table, constraint)? {
        None => Ok(()),
        Some(key) => own.push(key),
    }
}

/// The PRIMARY KEY and UNIQUE constraints among those of a table, in reading order. `Err` is want of memory.
pub fn own_keys(
    alloc: Global,
    table: &Object,
    named: &Items<NamedConstraint>,
) -> Result<Items<Shared<Key>>, AllocError>
    ensures { IfOk result (λ own. own ≡ keys.own_keys table.now named.now) }
{
    let mut own = Items::new(alloc);
    for constraint in named.as_slice() {
        push_key(alloc, table, &mut own, constraint)?;
    }
    Ok(own)
}
