//! Names of copies.

ghost use Rattle.std.specs.Prelude.{◌≡◌, ◌↔◌, IfOk, IsTrue};
ghost use Rattle.std.specs.List.{Any};
ghost use Rattle.table_names.specs.Named.{IsSystemName, system_name};
ghost use Rattle.domain_drop.specs.CheckCopies as spec;

use cat_items::{Catalogue, Check, Shared};
use edit_rules::is_constraint;
use sql_tree::{Items, Name, Object};
use std::alloc::{AllocError, Global};

/// The system's name of this number.
fn name_of(alloc: Global, number: u64) -> Result<Name, AllocError>
    ensures { IfOk result (λ name. name ≡ system_name number) }
{
    let text = format!(in alloc; "SYS_C{number}")?;
    match Name::of(alloc, text.as_bytes())? {
        Some(name) => Ok(name),
        None => unreachable!(),
    }
}

/// Whether one of these checks has a name.
fn is_called(copies: &Items<Shared<Check>>, name: &Object) -> bool
    ensures { IsTrue result ↔ Any (spec.IsCalled name.now) copies.now }
{
    for copy in copies.as_slice() {
        if copy.get().name.same(name) {
            return true;
        }
    }
    false
}

/// Whether a copy behind these may have a name.
fn is_free(c: &Catalogue, copies: &Items<Shared<Check>>, name: &Object) -> bool
    ensures { IsTrue result ↔ spec.IsFreeName c.now.items copies.now name.now.schema name.now.name }
{
    !is_constraint(c, name) && !is_called(copies, name)
}

/// The first free name of the system in a schema. `Err` is want of memory, or of numbers.
pub fn free_name(
    alloc: Global,
    c: &Catalogue,
    schema: &Name,
    copies: &Items<Shared<Check>>,
) -> Result<Object, AllocError>
    ensures schema { IfOk result (λ name. name.schema ≡ schema.now) }
    ensures name { IfOk result (λ name. IsSystemName (spec.IsFreeName c.now.items copies.now schema.now) name.name) }
{
    for number in 1..u64::MAX {
        let name = Object {
            schema: schema.copy()?,
            name: name_of(alloc, number)?,
        };
        if is_free(c, copies, &name) {
            return Ok(name);
        }
    }
    Err(AllocError)
}
