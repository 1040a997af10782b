//! REVOKE of roles.

ghost use Rattle.std.specs.Prelude.{◌≡◌, ◌↔◌, IfOk, IsTrue, Contains};
ghost use Rattle.cat_items.specs.Good.{IsGood};
ghost use Rattle.cat_items.specs.declared.need.Auth.TheVariants.{Named};
ghost use Rattle.edit_rules.specs.First.{IsTested};
ghost use Rattle.edit_laws.specs.Sound.{IsSound};
ghost use Rattle.role_edit.specs.GrantedRoles.{IsGrantBy};
ghost use Rattle.role_edit.specs.GrantParts.{HoldGrantsOf};
ghost use Rattle.role_edit.specs.RevokedRoles as spec;

use crate::names::grantor_of_roles;
use cat_items::{Auth, Catalogue, Edit, EditError, Item, Part, RoleGrant, Who};
use chosen_parts::chosen_in;
use edit_rules::Chooses;
use sql_tree::{Items, Name, RevokeRoles};
use std::alloc::{AllocError, Global};

/// Whether a name is among these.
fn is_among(name: &Name, names: &Items<Name>) -> bool
    ensures { IsTrue result ↔ Contains names.now name.now }
{
    for other in names.as_slice() {
        if other.same(name) {
            return true;
        }
    }
    false
}

/// Whether an authorization is the one of this name.
fn is_named(auth: &Auth, name: &Name) -> bool
    ensures { IsTrue result ↔ (auth.now ≡ Named name.now) }
{
    match auth {
        Auth::Named(found) => found.same(name),
        _ => false,
    }
}

/// What a REVOKE identifies.
#[derive(Drop)]
struct Identified<'a> {
    grantor: &'a Name,
    parts: &'a RevokeRoles,
}

impl<'a> Identified<'a> {
    fn is_by(&self, grant: &RoleGrant) -> bool
        ensures { IsTrue result ↔ IsGrantBy self.now.grantor.now self.now.parts.now.roles self.now.parts.now.grantees grant.now }
    {
        is_named(&grant.grantor, self.grantor)
            && is_among(&grant.role, &self.parts.roles)
            && is_among(&grant.grantee, &self.parts.grantees)
    }
}

impl<'a> Chooses for Identified<'a> {
    ghost use Rattle.role_edit.specs.RevokedRoles.{IsIdentifiedRoleGrant};

    ghost fits = { λ t x. IsIdentifiedRoleGrant t.grantor.now t.parts.now x };

    fn chooses(&self, x: &Item) -> bool {
        match x {
            Item::RoleAuth(grant) => !self.parts.option_alone && self.is_by(grant.get()),
            Item::RoleAdmin(grant) => self.is_by(grant.get()),
            _ => false,
        }
    }
}

/// The parts of a catalogue in which the grants of these roles stand, and their admin options.
fn parts_of<'a>(alloc: Global, roles: &'a Items<Name>) -> Result<Vec<Part<'a>>, AllocError>
    ensures { IfOk result (λ parts. HoldGrantsOf roles.now parts.items) }
{
    let mut parts = Vec::new(alloc);
    for role in roles.as_slice() {
        parts.push(Part::RoleGrants(role))?;
        parts.push(Part::AdminOptions(role))?;
    }
    Ok(parts)
}

/// The edit of REVOKE of roles. It looks at the grants of these roles alone.
pub fn revoke_roles(
    alloc: Global,
    c: &Catalogue,
    who: &Who,
    parts: &RevokeRoles,
) -> Result<Edit, EditError>
    requires { IsGood c.now.items }
    ensures tested { IsTested (spec.revoke_roles_refusals c.now.items who.now parts.now) (spec.IsRoleRevokeEdit c.now.items who.now parts.now) result }
    ensures sound { IfOk result (IsSound c.now.items) }
{
    let grantor = grantor_of_roles(alloc, c, who, &parts.roles, &parts.grantees, parts.grantor)?;
    let test = Identified {
        grantor: &grantor,
        parts,
    };
    let places = parts_of(alloc, &parts.roles)?;
    let target = chosen_in(alloc, c, &places, &test)?;
    Ok(Edit {
        target,
        changed: Items::new(alloc),
        added: Items::new(alloc),
    })
}
