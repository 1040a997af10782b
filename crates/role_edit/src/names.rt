//! The names of roles and of those whom they are granted to.

ghost use Rattle.std.specs.Prelude.{◌≡◌, ◌⊎◌, ◌∷◌, ◌++◌, [], map, IfOk};
ghost use Rattle.edit_rules.specs.First.{HasPassed, IsTested};
ghost use Rattle.edit_rules.specs.Grantors.{IsGrantor};
ghost use Rattle.edit_rules.specs.Names.{unknown_authorization, unknown_role};
ghost use Rattle.role_edit.specs.GrantedRoles.{role_name_refusals};

use cat_items::{Catalogue, EditError, Who};
use edit_rules::{grantor_of, test_authorization, test_role};
use sql_tree::{Grantor, Items, Name};
use std::alloc::Global;

/// Refuses the first of these names that no role has.
fn test_roles(c: &Catalogue, roles: &Items<Name>) -> Result<(), EditError>
    ensures { HasPassed (map (unknown_role c.now.items) roles.now) result }
{
    for role in roles.as_slice() {
        test_role(c, role)?;
    }
    Ok(())
}

/// Refuses the first of these names that no user and no role has.
fn test_grantees(c: &Catalogue, grantees: &Items<Name>) -> Result<(), EditError>
    ensures { HasPassed (map (unknown_authorization c.now.items) grantees.now) result }
{
    for grantee in grantees.as_slice() {
        test_authorization(c, grantee)?;
    }
    Ok(())
}

/// The name of who grants or revokes roles; the names of the roles, of whom they are granted to, and CURRENT_ROLE are tried in this order.
pub fn grantor_of_roles(
    alloc: Global,
    c: &Catalogue,
    who: &Who,
    roles: &Items<Name>,
    grantees: &Items<Name>,
    by: Option<Grantor>,
) -> Result<Name, EditError>
    ensures { IsTested (role_name_refusals c.now.items who.now roles.now grantees.now by) (IsGrantor c.now.items who.now by) result }
{
    test_roles(c, roles)?;
    test_grantees(c, grantees)?;
    grantor_of(alloc, c, who, by)
}
