//! Privileges that a statement needs.

ghost use Rattle.std.specs.Prelude.{◌≡◌, ◌↔◌, ◌∷◌, [], IfOk, IsTrue};
ghost use Rattle.std.specs.Option.{option_copied};
ghost use Rattle.cat_items.specs.Rights.{admin};
ghost use Rattle.role_graph.specs.Roles.{IsRoomFor};
ghost use Rattle.edit_rules.specs.First.{HasPassed};
ghost use Rattle.edit_rules.specs.Privileges.{IsBehind, IsLeastUnmet, no_privilege};

use cat_items::{Catalogue, EditError, Need, Refusal};
use role_graph::{Actor, Walk, met_by};
use sql_tree::{Action, Items, Name, Path};
use std::alloc::{AllocError, Global};

/// The admin option of a role, as a need. It takes no memory; `Err` is the end of a count of owners.
pub fn admin_need(role: &Name) -> Result<Need, AllocError>
    ensures { IfOk result (λ need. need ≡ admin role.now) }
{
    Ok(Need {
        action: Action::Admin,
        on: Path::one(role.copy()?),
        column: None,
    })
}

/// Whether a need doesn't come before the least so far, in the order of needs. Where there is none so far, each need does.
/// It takes no memory.
pub fn is_behind(least: Option<&Need>, need: &Need) -> bool
    ensures { IsTrue result ↔ IsBehind (option_copied least.entry) need.now }
{
    match least {
        None => false,
        Some(least) => least.cmp(need).is_le(),
    }
}

/// The least of these needs that isn't met for the user or role of this name.
fn least_unmet<'a>(
    c: &Catalogue,
    walk: &mut Walk,
    owner: &Name,
    needs: &'a Items<Need>,
) -> Option<&'a Need>
    requires { IsRoomFor walk.old c.now.items }
    ensures { IsLeastUnmet c.now.items owner.now needs.now (option_copied result) }
{
    let mut least = None;
    for need in needs.as_slice() {
        if !is_behind(least, need)
            && !met_by(c, None, walk, Actor::Named(owner), need.into(), false)
        {
            least = Some(need);
        }
    }
    least
}

/// Refuses where a need isn't met for the user or role of this name, with a grant option or without (SQL:2003 part 2, 12.3):
/// `NoPrivilege` of the least need of these that isn't. `Memory` is want of memory.
pub fn test_privileges(
    alloc: Global,
    c: &Catalogue,
    owner: &Name,
    needs: &Items<Need>,
) -> Result<(), EditError>
    ensures { HasPassed (no_privilege c.now.items owner.now needs.now ∷ []) result }
{
    let mut walk = Walk::new(alloc, c)?;
    match least_unmet(c, &mut walk, owner, needs) {
        None => Ok(()),
        Some(need) => {
            let need = need.copy()?;
            Err(EditError::Refused(Refusal::NoPrivilege { need }))
        }
    }
}
