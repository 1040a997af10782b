//! Types of columns, of their defaults and of the columns of foreign keys, and how many columns there may be.

ghost use Rattle.std.specs.Prelude.{◌≡◌, ◌↔◌, ◌∷◌, [], length, IfOk, IsTrue};
ghost use Rattle.std.specs.List.{Any};
ghost use Rattle.edit_rules.specs.First.{HasPassed};
ghost use Rattle.table_parts.specs.Parts.{columns_of};
ghost use Rattle.table_types.specs.Types as spec;

use crate::classes::are_misfits;
use cat_items::{Catalogue, EditError, Refusal, Who};
use edit_rules::object_in;
use sql_tree::{Items, Name, References};
use std::alloc::{AllocError, Global};
use table_parts::{Part, default_in, is_misfit};
use table_work::{Work, columns_seen, keys_seen, sort_of};

/// The greatest place of a column.
const PLACES: u64 = 4_294_967_295;

/// Whether a part is a column with a default of another class.
fn has_misfit(c: &Catalogue, who: &Who, part: &Part) -> Result<bool, AllocError>
    ensures { IfOk result (λ misfit. IsTrue misfit ↔ spec.HasMisfit c.now.items who.now part.now) }
{
    match part {
        Part::Column(definition) => {
            let sort = sort_of(c, who, &definition.sort)?;
            Ok(is_misfit(default_in(&definition.options), sort))
        }
        Part::Constraint(_) => Ok(false),
    }
}

/// Whether a column has a default of another class than its type, or that of its domain (SQL:2003 part 2, 11.5). `Err` is want of memory.
pub fn has_any_misfit(c: &Catalogue, who: &Who, parts: &Items<Part>) -> Result<bool, AllocError>
    ensures { IfOk result (λ misfit. IsTrue misfit ↔ Any (spec.HasMisfit c.now.items who.now) parts.now) }
{
    for part in parts.as_slice() {
        if has_misfit(c, who, part)? {
            return Ok(true);
        }
    }
    Ok(false)
}

/// Whether a foreign key has as many columns as are meant, two of which are of two classes (SQL:2003 part 2, 11.8). `Err` is want of memory.
pub fn is_foreign_misfit(
    alloc: Global,
    c: &Catalogue,
    who: &Who,
    w: &Work,
    columns: &Items<Name>,
    references: &References,
) -> Result<bool, AllocError>
    ensures { IfOk result (λ misfit. IsTrue misfit ↔ spec.IsForeignMisfit c.now.items who.now w.now columns.now references.now) }
{
    let target = object_in(&who.schema, &references.table)?;
    let others = columns_seen(alloc, c, w, &target)?;
    let keys = keys_seen(alloc, c, w, &target)?;
    Ok(are_misfits(&w.columns, &others, &keys, columns, &references.columns))
}

/// The number of columns.
fn count_columns(parts: &Items<Part>) -> u64
    ensures { result ≡ length (columns_of parts.now) }
{
    let mut count = 0;
    for part in parts.as_slice() {
        match part {
            Part::Column(_) => count += 1,
            Part::Constraint(_) => {}
        }
    }
    count
}

/// Refuses more columns than there are places behind this one: `CatalogFull` of the greatest place.
pub fn test_places(last: u32, parts: &Items<Part>) -> Result<(), EditError>
    ensures { HasPassed (spec.too_many_places last parts.now ∷ []) result }
{
    if count_columns(parts) > PLACES - u64::from(last) {
        return Err(EditError::Refused(Refusal::CatalogFull { count: PLACES }));
    }
    Ok(())
}
