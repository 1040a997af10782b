//! Names that must stand.

ghost use Rattle.std.specs.Prelude.{◌↔◌, ◌∷◌, [], map, IsTrue};
ghost use Rattle.cat_items.specs.Reach.{Has};
ghost use Rattle.cat_items.specs.Rights.{IsDomain, path_of};
ghost use Rattle.edit_rules.specs.First.{HasPassed};
ghost use Rattle.sql_tree.specs.declared.table.TableConstraintKind.TheVariants as kinds;
ghost use Rattle.table_elements.specs.Names as spec;

use cat_items::{Catalogue, EditError, Refusal, Who};
use edit_rules::{object_in, path_of};
use sql_tree::{ColumnType, Items, Name, Object, Param, Path, References};
use std::alloc::Global;
use table_names::test_target;
use table_work::{Work, columns_seen, has_column_called, is_domain as has_domain};

/// Whether a domain has this name. It takes no memory.
pub fn is_domain(c: &Catalogue, domain: &Object) -> bool
    ensures { IsTrue result ↔ Has c.now.items (IsDomain (path_of domain.now)) }
{
    has_domain(c, domain)
}

/// Refuses a name that no domain has: `UnknownName` (SQL:2003 part 2, 11.4).
pub fn test_domain(c: &Catalogue, domain: &Object) -> Result<(), EditError>
    ensures { HasPassed (spec.unknown_domain c.now.items domain.now ∷ []) result }
{
    if is_domain(c, domain) {
        return Ok(());
    }
    let path = path_of(domain)?;
    Err(EditError::Refused(Refusal::UnknownName { path }))
}

/// Refuses a column that is based on a domain that doesn't stand.
pub fn test_base(c: &Catalogue, who: &Who, base: &ColumnType) -> Result<(), EditError>
    ensures { HasPassed (spec.unknown_in_base c.now.items who.now base.now) result }
{
    match base {
        ColumnType::Type(_) => Ok(()),
        ColumnType::Domain(name) => {
            let domain = object_in(&who.schema, name)?;
            test_domain(c, &domain)
        }
    }
}

/// Refuses the first of these names that none of the columns of a table has.
pub fn test_among(
    columns: &Items<Param>,
    table: &Object,
    names: &Items<Name>,
) -> Result<(), EditError>
    ensures { HasPassed (map (spec.unknown_among columns.now table.now) names.now) result }
{
    for name in names.as_slice() {
        if !has_column_called(columns, name) {
            let path = Path::three(table.schema.copy()?, table.name.copy()?, name.copy()?);
            return Err(EditError::Refused(Refusal::UnknownName { path }));
        }
    }
    Ok(())
}

/// Refuses a target that doesn't stand, and then the first of its columns that doesn't.
fn test_references(
    alloc: Global,
    c: &Catalogue,
    who: &Who,
    w: &Work,
    references: &References,
) -> Result<(), EditError>
    ensures { HasPassed (spec.unknown_in_references c.now.items who.now w.now references.now) result }
{
    let target = object_in(&who.schema, &references.table)?;
    test_target(c, &w.table, &target)?;
    let columns = columns_seen(alloc, c, w, &target)?;
    test_among(&columns, &target, &references.columns)
}

/// Refuses the first name of a foreign key that doesn't stand: own columns, the target, and then its columns.
pub fn test_foreign(
    alloc: Global,
    c: &Catalogue,
    who: &Who,
    w: &Work,
    columns: &Items<Name>,
    references: &References,
) -> Result<(), EditError>
    ensures { HasPassed (spec.unknown_in_kind c.now.items who.now w.now (kinds.ForeignKey columns.now references.now)) result }
{
    test_among(&w.columns, &w.table, columns)?;
    test_references(alloc, c, who, w, references)
}
