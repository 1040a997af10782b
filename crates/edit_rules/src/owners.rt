//! For whom a statement acts.

ghost use Rattle.std.specs.Prelude.{◌≡◌, ◌↔◌, ◌∷◌, [], ℕ, List, IfOk, IfSome, IfNone, IsTrue, Some};
ghost use Rattle.sql_tree.specs.declared.rights.Grantor.TheVariants.{CurrentRole};
ghost use Rattle.edit_rules.specs.First.{HasPassed, IsTested};
ghost use Rattle.edit_rules.specs.Grantors.{IsGrantor, no_current_role};
ghost use Rattle.edit_rules.specs.Owners.{ActsFor, IsCurrentRole, not_owner};

use cat_items::{Catalogue, EditError, Refusal, Who, owner_of};
use role_graph::{Actor, Walk};
use sql_tree::{Grantor, Name};
use std::alloc::{AllocError, Global};

/// The role that is set, where the user reaches it (SQL:2003 part 2, 4.34); none where none is set or the user doesn't
/// reach it. `Err` is want of memory.
pub fn current_role(alloc: Global, c: &Catalogue, who: &Who) -> Result<Option<Name>, AllocError>
    ensures found { IfOk result (λ role. IfSome role (IsCurrentRole c.now.items who.now)) }
    ensures none { IfOk result (λ role. IfNone role ((name : List ℕ) → IsCurrentRole c.now.items who.now name → ⊥)) }
{
    let Some(role) = &who.role else {
        return Ok(None);
    };
    let mut walk = Walk::new(alloc, c)?;
    if !walk.reaches_by(c, None, Actor::Named(&who.user), Actor::Named(role)) {
        return Ok(None);
    }
    Ok(Some(role.copy()?))
}

/// Whether a name is that of the user or of an enabled role.
fn acts_for(alloc: Global, c: &Catalogue, who: &Who, name: &Name) -> Result<bool, AllocError>
    ensures { IfOk result (λ acts. IsTrue acts ↔ ActsFor c.now.items who.now name.now) }
{
    if name.same(&who.user) {
        return Ok(true);
    }
    let Some(role) = current_role(alloc, c, who)? else {
        return Ok(false);
    };
    let mut walk = Walk::new(alloc, c)?;
    Ok(walk.reaches_by(c, None, Actor::Named(&role), Actor::Named(name)))
}

/// Refuses a statement whose user and enabled roles aren't the owner of this schema, also where it doesn't stand (SQL:2003
/// part 2, 4.34 and the access rules of 11): `NotOwner` of the schema. `Memory` is want of memory.
pub fn test_owner(alloc: Global, c: &Catalogue, who: &Who, schema: &Name) -> Result<(), EditError>
    ensures { HasPassed (not_owner c.now.items who.now schema.now ∷ []) result }
{
    // What the proof takes from it: the items are in order.
    let _ = c.items();
    if let Some(owner) = owner_of(c, schema) {
        if acts_for(alloc, c, who, owner)? {
            return Ok(());
        }
    }
    let schema = schema.copy()?;
    Err(EditError::Refused(Refusal::NotOwner { schema }))
}

/// Whether a grantor is CURRENT_ROLE.
fn is_role_named(by: Option<Grantor>) -> bool
    ensures { IsTrue result ↔ (by ≡ Some CurrentRole) }
{
    matches!(by, Some(Grantor::CurrentRole))
}

/// The name of who grants or revokes: the user, or the current role where CURRENT_ROLE is said (SQL:2003 part 2, 12.1 and
/// 12.7). CURRENT_ROLE is refused where there is none: `InvalidRole`. `Memory` is want of memory.
pub fn grantor_of(
    alloc: Global,
    c: &Catalogue,
    who: &Who,
    by: Option<Grantor>,
) -> Result<Name, EditError>
    ensures { IsTested (no_current_role c.now.items who.now by ∷ []) (IsGrantor c.now.items who.now by) result }
{
    if !is_role_named(by) {
        return Ok(who.user.copy()?);
    }
    match current_role(alloc, c, who)? {
        Some(role) => Ok(role),
        None => Err(EditError::Refused(Refusal::InvalidRole { current: true })),
    }
}
