//! Foreign keys.

ghost use Rattle.std.specs.Prelude.{◌≡◌, ◌∷◌, [], IfOk};
ghost use Rattle.edit_rules.specs.First.{IsTested};
ghost use Rattle.table_types.specs.ForeignKeys as spec;

use cat_items::{Catalogue, EditError, Foreign, Key, Refusal, Shared, Who};
use edit_rules::object_in;
use sql_tree::{Items, Name, Object, References};
use std::alloc::{AllocError, Global};
use table_work::{Work, bound_key, columns_meant, copy_names, keys_seen};

/// The descriptor of a foreign key that is bound to this key.
fn foreign_with(
    alloc: Global,
    who: &Who,
    table: &Object,
    name: &Name,
    columns: &Items<Name>,
    references: &References,
    key: &Key,
) -> Result<Shared<Foreign>, AllocError>
    ensures { IfOk result (λ foreign. foreign ≡ spec.foreign_key who.now table.now name.now columns.now references.now key.now) }
{
    let foreign = Foreign {
        name: Object {
            schema: table.schema.copy()?,
            name: name.copy()?,
        },
        table: table.copy()?,
        columns: copy_names(alloc, columns)?,
        key: key.name.copy()?,
        target: object_in(&who.schema, &references.table)?,
        target_columns: copy_names(alloc, columns_meant(&references.columns, key))?,
        matching: references.matching,
        on_update: references.on_update,
        on_delete: references.on_delete,
    };
    Shared::new(alloc, foreign)
}

/// The foreign key of this name, bound to the key that it means; `NoSuchKey` where it means none, or one of another number of columns
/// (SQL:2003 part 2, 11.8). `Memory` is want of memory.
pub fn foreign_made(
    alloc: Global,
    c: &Catalogue,
    who: &Who,
    w: &Work,
    name: &Name,
    columns: &Items<Name>,
    references: &References,
) -> Result<Shared<Foreign>, EditError>
    ensures { IsTested (spec.no_key_for c.now.items who.now w.now columns.now references.now ∷ []) (spec.IsForeignOf c.now.items who.now w.now name.now columns.now references.now) result }
{
    let target = object_in(&who.schema, &references.table)?;
    let keys = keys_seen(alloc, c, w, &target)?;
    match bound_key(&keys, columns, &references.columns) {
        None => Err(EditError::Refused(Refusal::NoSuchKey)),
        Some(key) => Ok(foreign_with(alloc, who, &w.table, name, columns, references, key)?),
    }
}
