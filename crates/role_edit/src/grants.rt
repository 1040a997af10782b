//! GRANT of roles.

ghost use Rattle.std.specs.Prelude.{◌≡◌, ◌∷◌, [], IfOk};
ghost use Rattle.cat_items.specs.Good.{IsGood};
ghost use Rattle.edit_rules.specs.First.{HasPassed, IsTested};
ghost use Rattle.edit_rules.specs.Grantors.{IsGrantor};
ghost use Rattle.edit_laws.specs.Sound.{IsSound};
ghost use Rattle.role_edit.specs.GrantedRoles as spec;

use crate::lists::{admin_needs, role_grants};
use crate::names::grantor_of_roles;
use cat_items::{Catalogue, Edit, EditError, Refusal, Who};
use edit_rules::test_privileges;
use role_graph::makes_cycle;
use sql_tree::{GrantRoles, Items, Name};
use std::alloc::{AllocError, Global};

/// Copies of these names.
fn copies(alloc: Global, names: &Items<Name>) -> Result<Vec<Name>, AllocError>
    ensures { IfOk result (λ copies. copies.items ≡ names.now) }
{
    let mut copies = Vec::with_capacity(alloc, names.len())?;
    for name in names.as_slice() {
        copies.push(name.copy()?)?;
    }
    Ok(copies)
}

/// Refuses role grants that make a cycle.
fn test_cycle(
    alloc: Global,
    c: &Catalogue,
    roles: &Items<Name>,
    grantees: &Items<Name>,
) -> Result<(), EditError>
    ensures { HasPassed (spec.role_cycle c.now.items roles.now grantees.now ∷ []) result }
{
    let from = copies(alloc, roles)?;
    let to = copies(alloc, grantees)?;
    let cyclic = makes_cycle(alloc, c, &from, &to)?;
    if cyclic {
        return Err(EditError::Refused(Refusal::RoleCycle));
    }
    Ok(())
}

/// All tests, in their order; who grants.
fn grantor(alloc: Global, c: &Catalogue, who: &Who, parts: &GrantRoles) -> Result<Name, EditError>
    ensures { IsTested (spec.grant_roles_refusals c.now.items who.now parts.now) (IsGrantor c.now.items who.now parts.now.grantor) result }
{
    let grantor = grantor_of_roles(alloc, c, who, &parts.roles, &parts.grantees, parts.grantor)?;
    test_cycle(alloc, c, &parts.roles, &parts.grantees)?;
    let needs = admin_needs(alloc, &parts.roles)?;
    test_privileges(alloc, c, &grantor, &needs)?;
    Ok(grantor)
}

/// The edit of GRANT of roles.
pub fn grant_roles(
    alloc: Global,
    c: &Catalogue,
    who: &Who,
    parts: &GrantRoles,
) -> Result<Edit, EditError>
    requires { IsGood c.now.items }
    ensures tested { IsTested (spec.grant_roles_refusals c.now.items who.now parts.now) (spec.IsRoleGrantEdit c.now.items who.now parts.now) result }
    ensures sound { IfOk result (IsSound c.now.items) }
{
    let grantor = grantor(alloc, c, who, parts)?;
    let added = role_grants(
        alloc,
        &grantor,
        &parts.roles,
        &parts.grantees,
        parts.admin_option,
    )?;
    Ok(Edit {
        target: Items::new(alloc),
        changed: Items::new(alloc),
        added,
    })
}
