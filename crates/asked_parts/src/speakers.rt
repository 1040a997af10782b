//! Suspects that are asked first.

ghost use Rattle.std.specs.Prelude.{List, IfOk};
ghost use Rattle.finite_chains.specs.Chains.{IsWithin};
ghost use Rattle.cat_items.specs.declared.item.Item.{Item};

use cat_items::Item;
use sql_tree::Name;
use std::alloc::{AllocError, Global};

/// The schema for whose owner an object looks for rights, if it is one that does.
fn schema_by_needs(x: &Item) -> Option<&Name> {
    match x {
        Item::View(view) => Some(&view.get().view.schema),
        Item::Foreign(foreign) => Some(&foreign.get().name.schema),
        Item::Check(check) => Some(&check.get().name.schema),
        Item::Assertion(assertion) => Some(&assertion.get().name.schema),
        Item::Routine(routine) => Some(&routine.get().routine.schema),
        _ => None,
    }
}

/// Of each run of suspects in one schema the first that looks for rights of the schema's owner. It asks for the roles of that owner, by which all of them ask for more: once
/// these are known most suspects are gone through once.
pub(crate) fn speakers(alloc: Global, suspects: &[Item]) -> Result<Vec<Item>, AllocError>
    ensures { IfOk result (λ found. IsWithin found.items suspects.now) }
{
    let mut found = Vec::new(alloc);
    let mut last: Option<&Name> = None;
    for x in suspects {
        let Some(schema) = schema_by_needs(x) else {
            continue;
        };
        if last.is_some_and(|other| other.same(schema)) {
            continue;
        }
        last = Some(schema);
        found.push(x.copy()?)?;
    }
    Ok(found)
}
