//! DROP ROLE.

ghost use Rattle.std.specs.Prelude.{◌≡◌, ◌⊎◌, ◌↔◌, ◌∷◌, [], IfOk, IsTrue};
ghost use Rattle.cat_items.specs.declared.need.Auth.TheVariants.{Named};
ghost use Rattle.cat_items.specs.Good.{IsGood};
ghost use Rattle.cat_items.specs.Rights.{admin};
ghost use Rattle.edit_rules.specs.First.{IsTested, HasPassed};
ghost use Rattle.edit_laws.specs.Sound.{IsSound};
ghost use Rattle.drop_edit.specs.DroppedRoles as spec;

use cat_items::{Auth, Catalogue, Edit, EditError, Item, Need, RoleGrant, Who};
use edit_rules::{Chooses, admin_need, chosen, test_privileges, test_role};
use sql_tree::{Items, Name};
use std::alloc::{AllocError, Global};

/// What goes with a role.
#[derive(Drop)]
struct OfRole<'a> {
    role: &'a Name,
}

impl<'a> OfRole<'a> {
    fn is_of(&self, grant: &RoleGrant) -> bool
        ensures { IsTrue result ↔ ((grant.now.role ≡ self.now.role.now) ⊎ (grant.now.grantee ≡ self.now.role.now)) }
    {
        grant.role.same(self.role) || grant.grantee.same(self.role)
    }

    fn is_for(&self, grantee: &Auth) -> bool
        ensures { IsTrue result ↔ (grantee.now ≡ Named self.now.role.now) }
    {
        match grantee {
            Auth::Named(name) => name.same(self.role),
            _ => false,
        }
    }
}

impl<'a> Chooses for OfRole<'a> {
    ghost use Rattle.drop_edit.specs.DroppedRoles.{IsOfRole};

    ghost fits = { λ t x. IsOfRole t.role.now x };

    fn chooses(&self, x: &Item) -> bool {
        match x {
            Item::Role(name) => name.same(self.role),
            Item::RoleAuth(grant) | Item::RoleAdmin(grant) => self.is_of(grant.get()),
            Item::Held(right) | Item::Grantable(right) => self.is_for(&right.get().grantee),
            _ => false,
        }
    }
}

/// The admin option of one role alone.
fn only_admin(alloc: Global, role: &Name) -> Result<Items<Need>, AllocError>
    ensures { IfOk result (λ needs. needs ≡ admin role.now ∷ []) }
{
    let mut needs = Items::new(alloc);
    needs.push(admin_need(role)?)?;
    Ok(needs)
}

/// All tests, in their order.
fn test_drop(alloc: Global, c: &Catalogue, who: &Who, role: &Name) -> Result<(), EditError>
    ensures { HasPassed (spec.drop_role_refusals c.now.items who.now role.now) result }
{
    test_role(c, role)?;
    let needs = only_admin(alloc, role)?;
    test_privileges(alloc, c, &who.user, &needs)
}

/// The edit of DROP ROLE (SQL:2003 part 2, 12.6), or the first of its refusals by the catalogue as it is: no role has
/// the name, or the user has no admin option of it. What the role granted isn't in the target. `Memory` is want of memory.
pub fn drop_role(alloc: Global, c: &Catalogue, who: &Who, role: &Name) -> Result<Edit, EditError>
    requires { IsGood c.now.items }
    ensures tested { IsTested (spec.drop_role_refusals c.now.items who.now role.now) (spec.IsRoleDrop c.now.items role.now) result }
    ensures sound { IfOk result (IsSound c.now.items) }
{
    test_drop(alloc, c, who, role)?;
    let target = chosen(alloc, c, &OfRole { role })?;
    Ok(Edit {
        target,
        changed: Items::new(alloc),
        added: Items::new(alloc),
    })
}
