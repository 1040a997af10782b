//! Roles and rights that users and roles granted: what they rest on is found by searches.

ghost use Rattle.std.specs.Prelude.{◌≡◌, ◌↔◌, ◌<◌, All, IfNone, IfSome, IsTrue, false, length};
ghost use Rattle.cat_items.specs.declared.item.Item.TheVariants as item;
ghost use Rattle.cat_items.specs.declared.need.Auth.TheVariants.{Named};
ghost use Rattle.cat_items.specs.Order.{item_cmp};
ghost use Rattle.cat_items.specs.Ranges.{IsGrantOf, IsRoleAuthorization};
ghost use Rattle.cat_items.specs.Reach.{Has};
ghost use Rattle.cat_items.specs.Supported.{IsGrantee, Supported};
ghost use Rattle.role_graph.specs.Judges.{counting};
ghost use Rattle.role_graph.specs.Marked.{marked};
ghost use Rattle.role_graph.specs.Roles.{IsRoomFor};
ghost use Rattle.part_rounds.specs.Grantees.{AreByTitle, AreListed, IsOpen};
ghost use Rattle.part_rounds.specs.Grants as spec;

use crate::grantees::{GrantOption, are_few, is_marked_to, is_marked_to_public, start_for};
use crate::grants::{Grant, Granted};
use crate::hints::{Hint, NOWHERE};
use cat_items::{
    Auth, Catalogue, Item, Marks, Part, Right, RoleGrant, role_authorizations, role_grants_of,
};
use grant_chain::supported;
use role_graph::{Actor, Judge, Walk};
use sql_tree::{Action, Name};
use std::cmp::Ordering;

/// The role of a role authorization.
fn role_in(x: &Item) -> Option<&Name>
    ensures some { IfSome result (λ role. IsGrantOf role.now x.now) }
    ensures none { IfNone result (¬ (IsRoleAuthorization x.now)) }
{
    match x {
        Item::RoleAuth(grant) => Some(&grant.get().role),
        _ => None,
    }
}

/// Whether a role has a marked option that lets grant the same, and is reached from a user or role.
fn is_way(
    c: &Catalogue,
    marks: &Marks,
    walk: &mut Walk,
    options: &[GrantOption<'_>],
    grant: Grant<'_>,
    by: &Name,
    role: &Name,
) -> bool
    requires room { IsRoomFor walk.old c.now.items }
    requires marks { length marks.now ≡ length c.now.items }
    requires options { AreListed c.now.items options.now }
    ensures answer { IsTrue result ↔ spec.LeadsOn (marked c.now.items marks.now) grant.entry by.now role.now }
    ensures room { walk.new ≡ walk.old }
{
    let role = Actor::Named(role);
    is_marked_to(options, marks, grant, role, NOWHERE)
        && walk.reaches_by(c, Some(marks), Actor::Named(by), role)
}

/// Whether a user or role reaches a role that has a marked option that lets grant the same. Each role that is granted to anybody is tried once.
fn has_way(
    c: &Catalogue,
    marks: &Marks,
    walk: &mut Walk,
    options: &[GrantOption<'_>],
    grant: Grant<'_>,
    by: &Name,
) -> bool
    requires room { IsRoomFor walk.old c.now.items }
    requires marks { length marks.now ≡ length c.now.items }
    requires options { AreListed c.now.items options.now }
    ensures answer { IsTrue result ↔ Has c.now.items (spec.IsWay (marked c.now.items marks.now) grant.entry by.now) }
    ensures room { walk.new ≡ walk.old }
{
    let items = c.items();
    let all = role_authorizations(c);
    let mut at = all.start;
    while at < all.end {
        let Some(role) = role_in(&items[at]) else {
            return false;
        };
        if is_way(c, marks, walk, options, grant, by, role) {
            return true;
        }
        at = role_grants_of(c, role).end;
    }
    false
}

/// Where the options start that let grant the same, if neither a user or role nor PUBLIC has a marked one. Those of the user or role may start at
/// the place that is given.
fn closed_from(
    options: &[GrantOption<'_>],
    marks: &Marks,
    grant: Grant<'_>,
    by: &Name,
    hint: usize,
) -> Option<usize>
    requires order { AreByTitle options.now }
    requires within { All (λ o. o.at < length marks.now) options.now }
    ensures some { IfSome result (λ start. ¬ (IsOpen options.now marks.now grant.entry (Named by.now))) }
    ensures none { IfNone result (IsOpen options.now marks.now grant.entry (Named by.now)) }
{
    if is_marked_to(options, marks, grant, Actor::Named(by), hint) {
        return None;
    }
    let start = start_for(options, grant);
    if is_marked_to_public(options, marks, grant, start) {
        return None;
    }
    Some(start)
}

/// Compares an item with a role authorization.
fn compare_role(x: &Item, grant: &RoleGrant) -> Ordering
    ensures { result ≡ item_cmp x.now (item.RoleAuth grant.now) }
{
    match x {
        Item::RoleAuth(other) => other.get().cmp(grant),
        Item::RoleAdmin(_) | Item::Held(_) | Item::Grantable(_) => Ordering::Greater,
        _ => Ordering::Less,
    }
}

/// Compares an item with a right that is held.
fn compare_held(x: &Item, right: &Right) -> Ordering
    ensures { result ≡ item_cmp x.now (item.Held right.now) }
{
    match x {
        Item::Held(other) => other.get().cmp(right),
        Item::Grantable(_) => Ordering::Greater,
        _ => Ordering::Less,
    }
}

pub fn compare_made(x: &Item, grant: Grant<'_>) -> Ordering
    ensures { result ≡ item_cmp x.now (spec.grant_item false grant.entry) }
{
    match grant {
        Grant::Role(grant) => compare_role(x, grant),
        Grant::Right(right) => compare_held(x, right),
    }
}

/// Whether the item of the grant itself is there, and marked: a search.
pub fn is_made(c: &Catalogue, marks: &Marks, grant: Grant<'_>) -> bool
    requires { length marks.now ≡ length c.now.items }
    ensures { IsTrue result ↔ Has (marked c.now.items marks.now) (spec.IsMade grant.entry) }
{
    match c.items().binary_search_by(|x| compare_made(x, grant)) {
        Ok(at) => marks.marked(at),
        Err(_) => false,
    }
}

/// The same, where it may be at the place that is given.
fn is_made_at(c: &Catalogue, marks: &Marks, grant: Grant<'_>, hint: usize) -> bool
    requires { length marks.now ≡ length c.now.items }
    ensures { IsTrue result ↔ Has (marked c.now.items marks.now) (spec.IsMade grant.entry) }
{
    let items = c.items();
    if hint < items.len() && compare_made(&items[hint], grant).is_eq() {
        return marks.marked(hint);
    }
    is_made(c, marks, grant)
}

fn is_no_admin(grant: Grant<'_>) -> bool
    ensures { IsTrue result ↔ spec.IsNoAdmin grant.entry }
{
    match grant {
        Grant::Role(_) => true,
        Grant::Right(right) => !matches!(right.need.action, Action::Admin),
    }
}

/// Whether the grant itself is there, and marked, where it is its option that is asked for.
fn is_made_for(c: &Catalogue, marks: &Marks, grant: Grant<'_>, option: bool, hint: usize) -> bool
    requires { length marks.now ≡ length c.now.items }
    ensures { IsTrue result ↔ spec.IsMadeFor option (marked c.now.items marks.now) grant.entry }
{
    !option || is_made_at(c, marks, grant, hint)
}

/// The same of a grant that isn't one of a right to ADMIN.
fn is_ready(c: &Catalogue, marks: &Marks, grant: Grant<'_>, option: bool, hint: usize) -> bool
    requires { length marks.now ≡ length c.now.items }
    ensures { IsTrue result ↔ (spec.IsNoAdmin grant.entry × spec.IsMadeFor option (marked c.now.items marks.now) grant.entry) }
{
    is_no_admin(grant) && is_made_for(c, marks, grant, option, hint)
}

/// Whether a grantee is PUBLIC, or stands.
fn is_grantee(judge: &Judge<'_>, grantee: &Auth) -> bool
    ensures { IsTrue result ↔ IsGrantee (counting judge.now) grantee.now }
{
    match grantee {
        Auth::System => false,
        Auth::Public => true,
        Auth::Named(name) => judge.authorization_stands(name),
    }
}

/// Whether what a grant names stands: the role and its grantee; or the grantee of the right, and its object with its column.
fn names_stand(judge: &Judge<'_>, grant: Grant<'_>) -> bool
    ensures { IsTrue result ↔ spec.NamesStand (counting judge.now) grant.entry }
{
    match grant {
        Grant::Role(grant) => {
            judge.any_in(Part::Role(&grant.role)) && judge.authorization_stands(&grant.grantee)
        }
        Grant::Right(right) => {
            is_grantee(judge, &right.grantee) && judge.stands((&right.need).into())
        }
    }
}

/// Whether who made a grant stands, and what it names.
fn stands(judge: &Judge<'_>, grant: Grant<'_>, by: &Name) -> bool
    ensures { IsTrue result ↔ spec.IsStanding (counting judge.now) grant.entry by.now }
{
    judge.authorization_stands(by) && names_stand(judge, grant)
}

/// The same by the items at marked places.
fn stands_by(c: &Catalogue, marks: &Marks, walk: &mut Walk, grant: Grant<'_>, by: &Name) -> bool
    requires room { IsRoomFor walk.old c.now.items }
    requires marks { length marks.now ≡ length c.now.items }
    ensures answer { IsTrue result ↔ spec.IsStanding (marked c.now.items marks.now) grant.entry by.now }
    ensures room { walk.new ≡ walk.old }
{
    let judge = Judge::new(c, Some(marks), walk);
    let answer = stands(&judge, grant, by);
    judge.end();
    answer
}

/// Whether the items at marked places support an item that a user or a role granted. Where who made the grant has no marked option and there
/// are only a few, going through these is less than trying each role that is granted to anybody.
pub fn granted_told(
    c: &Catalogue,
    marks: &Marks,
    walk: &mut Walk,
    options: &[GrantOption<'_>],
    x: &Item,
    granted: Granted<'_>,
    hint: Hint,
) -> bool
    requires room { IsRoomFor walk.old c.now.items }
    requires marks { length marks.now ≡ length c.now.items }
    requires options { AreListed c.now.items options.now }
    requires by { spec.IsBy granted }
    requires item { x.now ≡ spec.grant_item granted.option granted.grant }
    ensures answer { IsTrue result ↔ Supported c.now.items (marked c.now.items marks.now) x.now }
    ensures room { walk.new ≡ walk.old }
{
    if !is_ready(c, marks, granted.grant, granted.option, hint.made) {
        return false;
    }
    let Some(start) = closed_from(options, marks, granted.grant, granted.by, hint.own) else {
        return stands_by(c, marks, walk, granted.grant, granted.by);
    };
    if are_few(options, granted.grant, start) {
        return supported(c, marks, walk, x);
    }
    if !has_way(c, marks, walk, options, granted.grant, granted.by) {
        return false;
    }
    stands_by(c, marks, walk, granted.grant, granted.by)
}
