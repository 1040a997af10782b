//! Lists of role grants.

ghost use Rattle.std.specs.Prelude.{◌≡◌, ◌↔◌, ◌⊎◌, ◌∷◌, [], OnOk, IfOk, Contains, map};
ghost use Rattle.edit_rules.specs.Chosen.{AreAll};
ghost use Rattle.cat_items.specs.declared.item.Item.{Item};
ghost use Rattle.cat_items.specs.declared.need.Auth.TheVariants.{Named};
ghost use Rattle.cat_items.specs.Rights.{admin};
ghost use Rattle.role_edit.specs.GrantedRoles.{IsGrantedRole};

use cat_items::{Auth, Catalogue, Item, Need, RoleGrant, Shared};
use edit_rules::{admin_need, put};
use sql_tree::{Items, Name};
use std::alloc::{AllocError, Global};

/// The admin options of these roles, as needs.
pub fn admin_needs(alloc: Global, roles: &Items<Name>) -> Result<Items<Need>, AllocError>
    ensures { IfOk result (λ needs. needs ≡ map admin roles.now) }
{
    let mut needs = Items::new(alloc);
    for role in roles.as_slice() {
        needs.push(admin_need(role)?)?;
    }
    Ok(needs)
}

/// A role grant.
fn grant(
    alloc: Global,
    role: &Name,
    grantor: &Name,
    grantee: &Name,
) -> Result<Shared<RoleGrant>, AllocError>
    ensures { IfOk result (λ g. g ≡ record { role = role.now; grantor = Named grantor.now; grantee = grantee.now }) }
{
    let grant = RoleGrant {
        role: role.copy()?,
        grantor: Auth::Named(grantor.copy()?),
        grantee: grantee.copy()?,
    };
    Shared::new(alloc, grant)
}

/// Puts in what grants one role to one grantee.
fn put_grant(
    alloc: Global,
    added: &mut Catalogue,
    role: &Name,
    grantor: &Name,
    grantee: &Name,
    option: bool,
) -> Result<(), AllocError>
    ensures { OnOk result ((x : Item) → Contains added.new.items x ↔ (Contains added.old.items x ⊎ IsGrantedRole grantor.now (role.now ∷ []) (grantee.now ∷ []) option x)) }
{
    put(added, Item::RoleAuth(grant(alloc, role, grantor, grantee)?))?;
    if option {
        put(
            added,
            Item::RoleAdmin(grant(alloc, role, grantor, grantee)?),
        )?;
    }
    Ok(())
}

/// Puts in what grants one role to these grantees.
fn put_grants(
    alloc: Global,
    added: &mut Catalogue,
    role: &Name,
    grantor: &Name,
    grantees: &Items<Name>,
    option: bool,
) -> Result<(), AllocError>
    ensures { OnOk result ((x : Item) → Contains added.new.items x ↔ (Contains added.old.items x ⊎ IsGrantedRole grantor.now (role.now ∷ []) grantees.now option x)) }
{
    for grantee in grantees.as_slice() {
        put_grant(alloc, added, role, grantor, grantee, option)?;
    }
    Ok(())
}

/// What grants these roles to these grantees, in order.
pub fn role_grants(
    alloc: Global,
    grantor: &Name,
    roles: &Items<Name>,
    grantees: &Items<Name>,
    option: bool,
) -> Result<Items<Item>, AllocError>
    ensures { IfOk result (λ added. AreAll (IsGrantedRole grantor.now roles.now grantees.now option) added) }
{
    let mut added = Catalogue::of_sorted(Vec::new(alloc));
    for role in roles.as_slice() {
        put_grants(alloc, &mut added, role, grantor, grantees, option)?;
    }
    Ok(Items::from_vec(added.into_items()))
}
