//! The topics that an item depends on by its needs, and by those whom its actor reaches.

ghost use Rattle.std.specs.Prelude.{◌↔◌, IsTrue, OnOk};
ghost use Rattle.cascade_laws.specs.Concerns.{IsRoleGrant};
ghost use Rattle.topic_keys.specs.Lists.{Adds};
ghost use Rattle.topic_lists.specs.Sought as spec;

use cat_items::{Auth, Item, Need};
use sql_tree::Name;
use std::alloc::{AllocError, Global};
use topic_keys::{TopicKey, put_need, put_topic};

/// Puts in the rights of a need to each of these.
fn put_supplies(
    alloc: Global,
    keys: &mut Vec<Item>,
    need: &Need,
    reached: &[Auth],
) -> Result<(), AllocError>
    ensures { OnOk result (Adds (spec.IsOfAny (spec.IsSupplyTopic need.now) reached.now) keys.old.items keys.new.items) }
{
    for grantee in reached {
        put_supply(alloc, keys, need, grantee)?;
    }
    Ok(())
}

fn put_supply(
    alloc: Global,
    keys: &mut Vec<Item>,
    need: &Need,
    grantee: &Auth,
) -> Result<(), AllocError>
    ensures { OnOk result (Adds (spec.IsSupplyTopic need.now grantee.now) keys.old.items keys.new.items) }
{
    let need = need.into();
    let grantee = grantee.into();
    put_topic(alloc, keys, TopicKey::Supply(need, grantee))
}

fn put_need_and_supplies(
    alloc: Global,
    keys: &mut Vec<Item>,
    need: &Need,
    reached: &[Auth],
) -> Result<(), AllocError>
    ensures { OnOk result (Adds (spec.IsNeedOrSupply reached.now need.now) keys.old.items keys.new.items) }
{
    put_need(alloc, keys, need)?;
    put_supplies(alloc, keys, need, reached)
}

fn put_needs(
    alloc: Global,
    keys: &mut Vec<Item>,
    needs: &[Need],
    reached: &[Auth],
) -> Result<(), AllocError>
    ensures { OnOk result (Adds (spec.IsOfAny (spec.IsNeedOrSupply reached.now) needs.now) keys.old.items keys.new.items) }
{
    for need in needs {
        put_need_and_supplies(alloc, keys, need, reached)?;
    }
    Ok(())
}

fn put_edges_to(alloc: Global, keys: &mut Vec<Item>, grantee: &Auth) -> Result<(), AllocError>
    ensures { OnOk result (Adds (spec.IsEdgesTopic grantee.now) keys.old.items keys.new.items) }
{
    match grantee {
        Auth::System => Ok(()),
        Auth::Public => Ok(()),
        Auth::Named(name) => put_topic(alloc, keys, TopicKey::Edges(name)),
    }
}

/// Puts in the role authorizations to each of these.
fn put_edges(alloc: Global, keys: &mut Vec<Item>, reached: &[Auth]) -> Result<(), AllocError>
    ensures { OnOk result (Adds (spec.IsOfAny spec.IsEdgesTopic reached.now) keys.old.items keys.new.items) }
{
    for grantee in reached {
        put_edges_to(alloc, keys, grantee)?;
    }
    Ok(())
}

fn put_admins_to(
    alloc: Global,
    keys: &mut Vec<Item>,
    role: &Name,
    grantee: &Auth,
) -> Result<(), AllocError>
    ensures { OnOk result (Adds (spec.IsAdminsTopic role.now grantee.now) keys.old.items keys.new.items) }
{
    match grantee {
        Auth::System => Ok(()),
        Auth::Public => Ok(()),
        Auth::Named(name) => put_topic(alloc, keys, TopicKey::Admins(role, name)),
    }
}

/// Puts in the admin options of a role to each of these.
fn put_admins(
    alloc: Global,
    keys: &mut Vec<Item>,
    role: &Name,
    reached: &[Auth],
) -> Result<(), AllocError>
    ensures { OnOk result (Adds (spec.IsOfAny (spec.IsAdminsTopic role.now) reached.now) keys.old.items keys.new.items) }
{
    for grantee in reached {
        put_admins_to(alloc, keys, role, grantee)?;
    }
    Ok(())
}

fn put_admin_options(
    alloc: Global,
    keys: &mut Vec<Item>,
    x: &Item,
    reached: &[Auth],
) -> Result<(), AllocError>
    ensures { OnOk result (Adds (spec.IsAdminOptionTopic x.now reached.now) keys.old.items keys.new.items) }
{
    match x {
        Item::RoleAuth(grant) => put_admins(alloc, keys, &grant.get().role, reached),
        Item::RoleAdmin(grant) => put_admins(alloc, keys, &grant.get().role, reached),
        _ => Ok(()),
    }
}

fn is_role_grant(x: &Item) -> bool
    ensures { IsTrue result ↔ IsRoleGrant x.now }
{
    match x {
        Item::RoleAuth(_) => true,
        Item::RoleAdmin(_) => true,
        _ => false,
    }
}

/// Whether rights or admin options are looked for.
pub fn looks(needs: &[Need], x: &Item) -> bool
    ensures { IsTrue result ↔ spec.Looks needs.now x.now }
{
    !needs.is_empty() || is_role_grant(x)
}

fn put_edges_if(
    alloc: Global,
    keys: &mut Vec<Item>,
    looks: bool,
    reached: &[Auth],
) -> Result<(), AllocError>
    ensures { OnOk result (Adds (λ t. IsTrue looks × spec.IsOfAny spec.IsEdgesTopic reached.now t) keys.old.items keys.new.items) }
{
    if looks {
        put_edges(alloc, keys, reached)
    } else {
        Ok(())
    }
}

/// Puts in the topics that an item depends on which has these needs, and whose actor reaches these. `Err` is want of memory.
pub fn put_sought(
    alloc: Global,
    keys: &mut Vec<Item>,
    x: &Item,
    needs: &[Need],
    reached: &[Auth],
) -> Result<(), AllocError>
    ensures { OnOk result (Adds (spec.IsSoughtTopic needs.now reached.now x.now) keys.old.items keys.new.items) }
{
    put_needs(alloc, keys, needs, reached)?;
    put_edges_if(alloc, keys, looks(needs, x), reached)?;
    put_admin_options(alloc, keys, x, reached)
}
