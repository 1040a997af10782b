//! The privileges that a statement needs.

ghost use Rattle.std.specs.Prelude.{◌∷◌, [], Contains};
ghost use Rattle.edit_rules.specs.First.{HasPassed, Passes};
ghost use Rattle.edit_rules.specs.Owners.{not_owner};
ghost use Rattle.statement_steps.specs.Steps.{no_least_privilege};

use cat_items::{Catalogue, EditError, Need, Who, owner_of};
use edit_rules::test_privileges;
use sql_tree::{Items, Name};
use std::alloc::Global;

/// Refuses where a need isn't met for the owner of a schema for whom the session acts (SQL:2003 part 2, 12.3 and the access rules of
/// 11): `NoPrivilege` of the least need of these that isn't. `Memory` is want of memory.
pub fn test_needs(
    alloc: Global,
    c: &Catalogue,
    who: &Who,
    schema: &Name,
    needs: &Items<Need>,
) -> Result<(), EditError>
    requires { Passes (not_owner c.now.items who.now schema.now) }
    ensures { HasPassed (no_least_privilege c.now.items schema.now (Contains needs.now) ∷ []) result }
{
    // What the proof takes from it: the items are in order.
    let _ = c.items();
    match owner_of(c, schema) {
        Some(owner) => test_privileges(alloc, c, owner, needs),
        None => unreachable!(),
    }
}
