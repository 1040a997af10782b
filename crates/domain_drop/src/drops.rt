//! DROP DOMAIN and DROP SCHEMA.

ghost use Rattle.std.specs.Prelude.{IfOk};
ghost use Rattle.cat_items.specs.Good.{IsGood};
ghost use Rattle.edit_rules.specs.First.{IsTested};
ghost use Rattle.edit_laws.specs.Sound.{IsSound};
ghost use Rattle.domain_drop.specs.Drops as spec;

use crate::freeing::free_columns;
use crate::gone::Gone;
use cat_items::{Catalogue, Edit, EditError, Item, Part, Who};
use chosen_parts::chosen_in;
use drop_edit::{belongings, test_dropped};
use edit_rules::{Chooses, object_in, test_owner, test_schema};
use sql_tree::{DropKind, Name, ObjectName};
use std::alloc::Global;

/// The edit of DROP DOMAIN (SQL:2003 part 2, 11.30), or the first of its refusals by the catalogue as it is: no domain has the name, or the
/// session doesn't act for the owner of its schema. The domain goes with its checks and the privileges on it. A column that is based on it stays:
/// with the domain's type, with the domain's default where it has none of its own, and with a copy of each check for which the owner of its table
/// has all privileges that the copy needs; a copy takes the first free name of the system. A column that is freed counts as changed, so RESTRICT
/// refuses where there is one, but that is not decided here. `Memory` is want of memory.
pub fn drop_domain(
    alloc: Global,
    c: &Catalogue,
    who: &Who,
    name: &ObjectName,
) -> Result<Edit, EditError>
    requires good { IsGood c.now.items }
    ensures tested { IsTested (spec.drop_domain_refusals c.now.items who.now name.now) (spec.IsDomainDropOf c.now.items who.now name.now) result }
    ensures sound { IfOk result (IsSound c.now.items) }
{
    let object = object_in(&who.schema, name)?;
    test_dropped(c, DropKind::Domain, &object)?;
    test_owner(alloc, c, who, &object.schema)?;
    let target = belongings(alloc, c, DropKind::Domain, &object)?;
    Ok(free_columns(alloc, c, Gone::Domain(&object), target)?)
}

/// A schema itself.
#[derive(Drop)]
struct TheSchema<'a> {
    name: &'a Name,
}

impl<'a> Chooses for TheSchema<'a> {
    ghost use Rattle.cat_items.specs.Rights.{IsSchema};

    ghost fits = { λ t x. IsSchema t.name.now x };

    fn chooses(&self, x: &Item) -> bool {
        match x {
            Item::Schema(schema) => schema.get().name.same(self.name),
            _ => false,
        }
    }
}

/// The edit of DROP SCHEMA (SQL:2003 part 2, 11.2), or the first of its refusals by the catalogue as it is: no schema has the name, or the session
/// doesn't act for its owner. The schema alone is taken; what stands in it is lost with it. Columns of tables of other schemas that are based on a
/// domain of it are freed as by DROP DOMAIN. Whether RESTRICT refuses is not decided here. `Memory` is want of memory.
pub fn drop_schema(
    alloc: Global,
    c: &Catalogue,
    who: &Who,
    schema: &Name,
) -> Result<Edit, EditError>
    requires good { IsGood c.now.items }
    ensures tested { IsTested (spec.drop_schema_refusals c.now.items who.now schema.now) (spec.IsSchemaDrop c.now.items schema.now) result }
    ensures sound { IfOk result (IsSound c.now.items) }
{
    test_schema(c, schema)?;
    test_owner(alloc, c, who, schema)?;
    let target = chosen_in(
        alloc,
        c,
        &[Part::Schema(schema)],
        &TheSchema { name: schema },
    )?;
    Ok(free_columns(alloc, c, Gone::Schema(schema), target)?)
}
