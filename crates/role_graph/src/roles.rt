//! Enabled and applicable roles.

ghost use Rattle.std.specs.Prelude.{◌≡◌, ◌↔◌, ◌⊎◌, ℕ, List, Contains, IfOk, OnOk};
ghost use Rattle.role_graph.specs.Roles.{AreInOrder, AreNames, IsApplicable, IsEnabled, IsRoomFor};

use crate::actor::Actor;
use crate::grants::grant_at;
use crate::walk::Walk;
use cat_items::{Catalogue, Who, role_authorizations, role_grants_of};
use sql_tree::Name;
use std::alloc::{AllocError, Global};

/// The roles that role authorizations lead to from a name.
fn roles_from(
    alloc: Global,
    c: &Catalogue,
    walk: &mut Walk,
    from: &Name,
) -> Result<Vec<Name>, AllocError>
    requires { IsRoomFor walk.old c.now.items }
    ensures names { IfOk result (λ names. AreNames names.items (IsApplicable c.now.items from.now)) }
{
    let items = c.items();
    let all = role_authorizations(c);
    let mut names = Vec::new(alloc);
    let mut at = all.start;
    while at < all.end {
        let role = &grant_at(items, at).role;
        if walk.leads(c, None, from, role) {
            names.push(role.copy()?)?;
        }
        at = role_grants_of(c, role).end;
    }
    Ok(names)
}

/// Puts in a name at its place in the order, if it isn't there.
fn put_name(names: &mut Vec<Name>, name: &Name) -> Result<(), AllocError>
    requires { AreInOrder names.old.items }
    ensures order { OnOk result (AreInOrder names.new.items) }
    ensures members { OnOk result ((x : List ℕ) → Contains names.new.items x ↔ (Contains names.old.items x ⊎ (x ≡ name.now))) }
{
    if let Err(at) = names.as_slice().binary_search(name) {
        names.insert(at, name.copy()?)?;
    }
    Ok(())
}

/// All roles that a user reaches, in order: those that the user may set. `Err` is want of memory.
///
/// It asks once for each role that is granted.
pub fn applicable(alloc: Global, c: &Catalogue, user: &Name) -> Result<Vec<Name>, AllocError>
    ensures { IfOk result (λ names. AreNames names.items (IsApplicable c.now.items user.now)) }
{
    let mut walk = Walk::new(alloc, c)?;
    roles_from(alloc, c, &mut walk, user)
}

/// The enabled roles, in order: none where no role is set or the user doesn't reach it, else that role and all
/// that it reaches. `Err` is want of memory.
pub fn enabled(alloc: Global, c: &Catalogue, who: &Who) -> Result<Vec<Name>, AllocError>
    ensures { IfOk result (λ names. AreNames names.items (IsEnabled c.now.items who.now.user who.now.role)) }
{
    let Some(role) = &who.role else {
        return Ok(Vec::new(alloc));
    };
    let mut walk = Walk::new(alloc, c)?;
    if !walk.reaches_by(c, None, Actor::Named(&who.user), Actor::Named(role)) {
        return Ok(Vec::new(alloc));
    }
    let mut names = roles_from(alloc, c, &mut walk, role)?;
    put_name(&mut names, role)?;
    Ok(names)
}
