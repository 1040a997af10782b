//! Cycles of role authorizations.

ghost use Rattle.std.specs.Prelude.{◌≡◌, ◌↔◌, ℕ, List, Contains, IfOk, IsTrue};
ghost use Rattle.cat_items.specs.declared.need.Auth.TheVariants.{Named};
ghost use Rattle.cat_items.specs.Reach.{Reaches};
ghost use Rattle.role_graph.specs.Cycles.{Closes, HasCycle, IsStep, SomeReaches};
ghost use Rattle.role_graph.specs.Roles.{IsRoomFor};

use crate::actor::Actor;
use crate::grants::grant_at;
use crate::walk::Walk;
use cat_items::{Catalogue, role_authorizations};
use sql_tree::Name;
use std::alloc::{AllocError, Global};

/// Whether a role authorization of the catalogue closes a cycle.
fn has_cycle(c: &Catalogue, walk: &mut Walk) -> bool
    requires { IsRoomFor walk.old c.now.items }
    ensures cycle { IsTrue result ↔ ((role grantee : List ℕ) × Closes c.now.items role grantee) }
    ensures room { walk.new ≡ walk.old }
{
    let all = role_authorizations(c);
    for at in all.start..all.end {
        let grant = grant_at(c.items(), at);
        if walk.reaches_by(
            c,
            None,
            Actor::Named(&grant.role),
            Actor::Named(&grant.grantee),
        ) {
            return true;
        }
    }
    false
}

/// Whether a role reaches one of these names.
fn reaches_some(c: &Catalogue, walk: &mut Walk, role: &Name, names: &Vec<Name>) -> bool
    requires { IsRoomFor walk.old c.now.items }
    ensures answer { IsTrue result ↔ ((name : List ℕ) × Contains names.now.items name × Reaches c.now.items (Named role.now) (Named name)) }
    ensures room { walk.new ≡ walk.old }
{
    for name in names {
        if walk.reaches_by(c, None, Actor::Named(role), Actor::Named(name)) {
            return true;
        }
    }
    false
}

/// Whether one of these roles reaches one of these grantees.
fn some_reaches(c: &Catalogue, walk: &mut Walk, roles: &Vec<Name>, grantees: &Vec<Name>) -> bool
    requires { IsRoomFor walk.old c.now.items }
    ensures { IsTrue result ↔ SomeReaches c.now.items roles.now.items grantees.now.items }
{
    for role in roles {
        if reaches_some(c, walk, role, grantees) {
            return true;
        }
    }
    false
}

/// Whether the role authorizations of the catalogue have a cycle together with those of each of these roles to
/// each of these grantees. `Err` is want of memory.
///
/// It asks once for each role authorization and for each new one whether its role reaches its grantee.
pub fn makes_cycle(
    alloc: Global,
    c: &Catalogue,
    roles: &Vec<Name>,
    grantees: &Vec<Name>,
) -> Result<bool, AllocError>
    ensures { IfOk result (λ answer. IsTrue answer ↔ HasCycle (IsStep c.now.items roles.now.items grantees.now.items)) }
{
    let mut walk = Walk::new(alloc, c)?;
    Ok(has_cycle(c, &mut walk) || some_reaches(c, &mut walk, roles, grantees))
}
