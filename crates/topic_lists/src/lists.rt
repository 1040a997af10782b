//! Topics of an item as lists of keys.

ghost use Rattle.std.specs.Prelude.{◌≡◌, ◌↔◌, ◌⊎◌, Contains, false, IfOk, OnOk};
ghost use Rattle.std.specs.Option.{option_copied};
ghost use Rattle.cat_items.specs.declared.item.Item.{Item};
ghost use Rattle.cat_items.specs.declared.need.Need.{Need};
ghost use Rattle.cascade_laws.specs.Topics.{IsOwnNeed};
ghost use Rattle.edit_rules.specs.Chosen.{AreAll};
ghost use Rattle.topic_keys.specs.Lists.{Adds, Gets, IsKeyWhere};
ghost use Rattle.topic_lists.specs.Beside.{HasAskedBefore};
ghost use Rattle.topic_lists.specs.Needs.{IsFarNeed};
ghost use Rattle.topic_lists.specs.Sought.{IsAskedFor, IsTopicOf};

use crate::acting::reached_if;
use crate::beside::is_beside;
use crate::carried::push_far;
use crate::granted::put_granted;
use crate::named::put_named;
use crate::own::push_own;
use crate::rights::{right_before, right_in};
use crate::sought::{looks, put_sought};
use cat_items::{Auth, Catalogue, Item, Need};
use reached_roles::RoleGrants;
use sql_tree::Items;
use std::alloc::{AllocError, Global};
use topic_keys::{in_order, put_names};

/// The keys of the topics that an item depends on, in any order.
fn own_keys(
    alloc: Global,
    c: &Catalogue,
    roles: &RoleGrants<'_>,
    x: &Item,
) -> Result<Vec<Item>, AllocError>
    requires { roles.now ≡ c.now.items }
    ensures { IfOk result (λ keys. (k : Item) → Contains keys.items k ↔ IsKeyWhere (IsTopicOf c.now.items x.now) k) }
{
    let mut needs = Vec::new(alloc);
    push_own(c, x, &mut needs)?;
    let needs = needs.as_slice();
    let all = reached_if(alloc, c, roles, x, looks(needs, x))?;
    let mut keys = Vec::new(alloc);
    put_names(alloc, &mut keys, x)?;
    put_sought(alloc, &mut keys, x, needs, all.as_slice())?;
    Ok(keys)
}

/// The keys of the topics that an item depends on, in order, where the catalogue has the schemas, views, columns and role
/// authorizations; these are given by grantee too. `Err` is want of memory.
pub fn topics(
    alloc: Global,
    c: &Catalogue,
    roles: &RoleGrants<'_>,
    x: &Item,
) -> Result<Items<Item>, AllocError>
    requires { roles.now ≡ c.now.items }
    ensures { IfOk result (λ keys. AreAll (IsKeyWhere (IsTopicOf c.now.items x.now)) keys) }
{
    let keys = own_keys(alloc, c, roles, x)?;
    Ok(Items::from_vec(in_order(keys)))
}

fn push_far_unless(
    c: &Catalogue,
    x: &Item,
    known: bool,
    needs: &mut Vec<Need>,
) -> Result<(), AllocError>
    ensures { OnOk result (Gets (λ need. (known ≡ false) × IsFarNeed c.now.items x.now need) needs.old.items needs.new.items) }
{
    if known { Ok(()) } else { push_far(c, x, needs) }
}

/// The needs that an item looks for by itself, and, unless these are known, by way of others.
fn needs_unless(
    alloc: Global,
    c: &Catalogue,
    x: &Item,
    known: bool,
) -> Result<Vec<Need>, AllocError>
    ensures { IfOk result (λ needs. (need : Need) → Contains needs.items need ↔ (IsOwnNeed c.now.items x.now need ⊎ ((known ≡ false) × IsFarNeed c.now.items x.now need))) }
{
    let mut needs = Vec::new(alloc);
    push_own(c, x, &mut needs)?;
    push_far_unless(c, x, known, &mut needs)?;
    Ok(needs)
}

/// Puts in all that is asked for an item, where all that the item before asks for is there already: what the right before names isn't put in again,
/// and, where both are rights by the system to SELECT on one view, nor is what they look for by way of it.
fn put_item(
    alloc: Global,
    c: &Catalogue,
    roles: &RoleGrants<'_>,
    x: &Item,
    before: Option<&Item>,
    keys: &mut Vec<Item>,
) -> Result<(), AllocError>
    requires roles { roles.now ≡ c.now.items }
    requires asked { HasAskedBefore c.now.items (option_copied before) keys.old.items }
    ensures { OnOk result (Adds (IsAskedFor c.now.items x.now) keys.old.items keys.new.items) }
{
    let needs = needs_unless(alloc, c, x, is_beside(x, before))?;
    let needs = needs.as_slice();
    let all = reached_if(alloc, c, roles, x, looks(needs, x))?;
    put_named(alloc, keys, x, before)?;
    put_sought(alloc, keys, x, needs, all.as_slice())
}

/// Puts in the keys of the topics under which all stands that an item's support can depend on, where the catalogue has the
/// schemas, views, columns and role authorizations; these are given by grantee too. All that the item before asks for is there already: of rights side by side most
/// of what both ask for is not put in again. `Err` is want of memory.
pub fn put_asked(
    alloc: Global,
    c: &Catalogue,
    roles: &RoleGrants<'_>,
    x: &Item,
    before: Option<&Item>,
    keys: &mut Vec<Item>,
) -> Result<(), AllocError>
    requires roles { roles.now ≡ c.now.items }
    requires asked { HasAskedBefore c.now.items (option_copied before) keys.old.items }
    ensures { OnOk result (Adds (IsAskedFor c.now.items x.now) keys.old.items keys.new.items) }
{
    match right_in(x) {
        None => put_item(alloc, c, roles, x, before, keys),
        Some(right) => match &right.grantor {
            Auth::Named(by) => put_granted(alloc, roles, keys, right, by, right_before(before)),
            _ => put_item(alloc, c, roles, x, before, keys),
        },
    }
}
