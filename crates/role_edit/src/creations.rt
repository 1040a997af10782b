//! CREATE ROLE.

ghost use Rattle.std.specs.Prelude.{◌≡◌, ◌↔◌, ◌∷◌, [], IfOk, IsTrue};
ghost use Rattle.cat_items.specs.Good.{IsGood};
ghost use Rattle.edit_rules.specs.First.{HasPassed, IsTested};
ghost use Rattle.edit_rules.specs.Grantors.{IsGrantor};
ghost use Rattle.edit_laws.specs.Sound.{IsSound};
ghost use Rattle.role_edit.specs.CreatedRoles as spec;

use cat_items::{Auth, Catalogue, Edit, EditError, Item, Refusal, RoleGrant, Shared, Who};
use edit_rules::{grantor_of, is_authorization};
use sql_tree::{CreateRole, Items, Name, Path};
use std::alloc::{AllocError, Global};

/// Whether no role may have this name.
fn is_reserved(name: &Name) -> bool
    ensures { IsTrue result ↔ spec.IsReservedRole name.now }
{
    name.bytes() == b"PUBLIC".as_slice()
        || name.bytes() == b"NONE".as_slice()
        || name.bytes() == b"_SYSTEM".as_slice()
}

/// Refuses a name that no role may have.
fn test_reserved(name: &Name) -> Result<(), EditError>
    ensures { HasPassed (spec.reserved_role name.now ∷ []) result }
{
    if is_reserved(name) {
        return Err(EditError::Refused(Refusal::NameReserved));
    }
    Ok(())
}

/// Refuses a name that a user or a role has.
fn test_new(c: &Catalogue, who: &Who, name: &Name) -> Result<(), EditError>
    ensures { HasPassed (spec.authorization_exists c.now.items who.now name.now ∷ []) result }
{
    if !is_authorization(c, name) && !name.same(&who.user) {
        return Ok(());
    }
    let path = Path::one(name.copy()?);
    Err(EditError::Refused(Refusal::NameExists { path }))
}

/// The system's grant of a new role.
fn grant_by_system(
    alloc: Global,
    role: &Name,
    admin: &Name,
) -> Result<Shared<RoleGrant>, AllocError>
    ensures { IfOk result (λ g. g ≡ spec.grant_by_system role.now admin.now) }
{
    let grant = RoleGrant {
        role: role.copy()?,
        grantor: Auth::System,
        grantee: admin.copy()?,
    };
    Shared::new(alloc, grant)
}

/// The edit that adds a role, granted to its administrator.
fn creating_role(alloc: Global, role: &Name, admin: &Name) -> Result<Edit, AllocError>
    ensures { IfOk result (λ edit. edit ≡ spec.creating_role role.now admin.now) }
{
    let mut added = Items::new(alloc);
    added.push(Item::Role(role.copy()?))?;
    added.push(Item::RoleAuth(grant_by_system(alloc, role, admin)?))?;
    added.push(Item::RoleAdmin(grant_by_system(alloc, role, admin)?))?;
    Ok(Edit {
        target: Items::new(alloc),
        changed: Items::new(alloc),
        added,
    })
}

/// All tests, in their order; who gets the role.
fn administrator(
    alloc: Global,
    c: &Catalogue,
    who: &Who,
    parts: &CreateRole,
) -> Result<Name, EditError>
    ensures { IsTested (spec.create_role_refusals c.now.items who.now parts.now) (IsGrantor c.now.items who.now parts.now.admin) result }
{
    test_reserved(&parts.role)?;
    let admin = grantor_of(alloc, c, who, parts.admin)?;
    test_new(c, who, &parts.role)?;
    Ok(admin)
}

/// The edit of CREATE ROLE.
pub fn create_role(
    alloc: Global,
    c: &Catalogue,
    who: &Who,
    parts: &CreateRole,
) -> Result<Edit, EditError>
    requires { IsGood c.now.items }
    ensures tested { IsTested (spec.create_role_refusals c.now.items who.now parts.now) (spec.IsRoleCreation c.now.items who.now parts.now) result }
    ensures sound { IfOk result (IsSound c.now.items) }
{
    let admin = administrator(alloc, c, who, parts)?;
    Ok(creating_role(alloc, &parts.role, &admin)?)
}
