//! What is asked for a right by a user or role, but for what is there already.

ghost use Rattle.std.specs.Prelude.{◌≡◌, ◌↔◌, false, IsTrue, OnOk};
ghost use Rattle.std.specs.Option.{option_copied};
ghost use Rattle.cat_items.specs.declared.need.Auth.TheVariants.{Named, Public};
ghost use Rattle.cascade_laws.specs.Topics.{supply};
ghost use Rattle.topic_keys.specs.Lists.{Adds};
ghost use Rattle.topic_lists.specs.Granted as spec;
ghost use Rattle.topic_lists.specs.RightNames.{HasNamed, IsBy, IsOf};
ghost use Rattle.topic_lists.specs.Sought.{IsOfAny};

use crate::named::put_right_names;
use crate::rights::{is_by, is_of};
use cat_items::{Auth, Item, Need, Right};
use reached_roles::RoleGrants;
use role_graph::Actor;
use sql_tree::Name;
use std::alloc::{AllocError, Global};
use topic_keys::{TopicKey, put_topic};

fn put_supply(alloc: Global, keys: &mut Vec<Item>, need: &Need, to: &Name) -> Result<(), AllocError>
    ensures { OnOk result (Adds (λ t. t ≡ supply need.now (Named to.now)) keys.old.items keys.new.items) }
{
    let need = need.into();
    put_topic(alloc, keys, TopicKey::Supply(need, Actor::Named(to)))
}

/// Puts in the rights of a need to a user or role, and the role authorizations to it.
fn put_to(alloc: Global, keys: &mut Vec<Item>, need: &Need, to: &Name) -> Result<(), AllocError>
    ensures { OnOk result (Adds (spec.IsToTopic need.now to.now) keys.old.items keys.new.items) }
{
    put_supply(alloc, keys, need, to)?;
    put_topic(alloc, keys, TopicKey::Edges(to))
}

fn put_to_each(
    alloc: Global,
    keys: &mut Vec<Item>,
    need: &Need,
    names: &[Name],
) -> Result<(), AllocError>
    ensures { OnOk result (Adds (IsOfAny (spec.IsToTopic need.now) names.now) keys.old.items keys.new.items) }
{
    for to in names {
        put_to(alloc, keys, need, to)?;
    }
    Ok(())
}

/// Puts in so for a user or role, and for each role that it reaches.
fn put_reach(
    alloc: Global,
    roles: &RoleGrants<'_>,
    keys: &mut Vec<Item>,
    need: &Need,
    by: &Name,
) -> Result<(), AllocError>
    ensures { OnOk result (Adds (spec.IsReachTopic roles.now need.now by.now) keys.old.items keys.new.items) }
{
    let names = roles.reached(alloc, by)?;
    put_to_each(alloc, keys, need, names.as_slice())?;
    put_to(alloc, keys, need, by)
}

fn put_reach_unless(
    alloc: Global,
    roles: &RoleGrants<'_>,
    keys: &mut Vec<Item>,
    need: &Need,
    by: &Name,
    known: bool,
) -> Result<(), AllocError>
    ensures { OnOk result (Adds (λ t. (known ≡ false) × spec.IsReachTopic roles.now need.now by.now t) keys.old.items keys.new.items) }
{
    if known {
        Ok(())
    } else {
        put_reach(alloc, roles, keys, need, by)
    }
}

/// Puts in the rights of a need to PUBLIC.
fn put_public(alloc: Global, keys: &mut Vec<Item>, need: &Need) -> Result<(), AllocError>
    ensures { OnOk result (Adds (λ t. t ≡ supply need.now Public) keys.old.items keys.new.items) }
{
    let need = need.into();
    put_topic(alloc, keys, TopicKey::Supply(need, Actor::Public))
}

fn put_public_unless(
    alloc: Global,
    keys: &mut Vec<Item>,
    need: &Need,
    known: bool,
) -> Result<(), AllocError>
    ensures { OnOk result (Adds (λ t. (known ≡ false) × (t ≡ supply need.now Public)) keys.old.items keys.new.items) }
{
    if known {
        Ok(())
    } else {
        put_public(alloc, keys, need)
    }
}

/// Whether another right is of the same need, and by a user or role.
fn is_granted(need: &Need, other: Option<&Right>) -> bool
    ensures { IsTrue result ↔ spec.IsGranted need.now (option_copied other.entry) }
{
    match other {
        None => false,
        Some(right) => match &right.grantor {
            Auth::System => false,
            Auth::Public => false,
            Auth::Named(_) => is_of(need, other),
        },
    }
}

/// Whether another right is of the same need, and by the same one.
fn is_alike(right: &Right, other: Option<&Right>) -> bool
    ensures { IsTrue result ↔ (IsOf right.now.need (option_copied other.entry) × IsBy right.now.grantor (option_copied other.entry)) }
{
    is_of(&right.need, other) && is_by(&right.grantor, other)
}

/// Puts in all that is asked for a right by a user or role. All that another right names is there already, and if this is by a user or role too, all
/// that it looks for: what both ask for isn't put in again. `Err` is want of memory.
pub fn put_granted(
    alloc: Global,
    roles: &RoleGrants<'_>,
    keys: &mut Vec<Item>,
    right: &Right,
    by: &Name,
    other: Option<&Right>,
) -> Result<(), AllocError>
    requires by { right.now.grantor ≡ Named by.now }
    requires named { HasNamed (option_copied other) keys.old.items }
    requires granted { spec.HasGranted roles.now (option_copied other) keys.old.items }
    ensures { OnOk result (Adds (spec.IsAskedOf roles.now right.now by.now) keys.old.items keys.new.items) }
{
    let need = &right.need;
    put_right_names(alloc, keys, right, other)?;
    put_public_unless(alloc, keys, need, is_granted(need, other))?;
    put_reach_unless(alloc, roles, keys, need, by, is_alike(right, other))
}
