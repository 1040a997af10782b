//! Grant options and admin options in the order of what they let grant, and to whom: those to one grantee are found by a search.

ghost use Rattle.std.specs.Prelude.{◌≡◌, ◌↔◌, ◌<◌, All, HoldsAt, IfNone, IfOk, IfSome, IsTrue, false, length, true};
ghost use Rattle.std.specs.List.{AllWithin};
ghost use Rattle.std.specs.Ordering.{is_lt};
ghost use Rattle.cat_items.specs.declared.item.Item.{Item};
ghost use Rattle.cat_items.specs.declared.need.Auth.TheVariants.{Public};
ghost use Rattle.cat_items.specs.Order.{auth_cmp};
ghost use Rattle.role_graph.specs.Actors.{auth_of};
ghost use Rattle.part_rounds.specs.Grants.{IsOptionTo};
ghost use Rattle.part_rounds.specs.Grantees.{AreByTitle, AreListed, AreOptions, HasOptionTo, HasTitle, IsOption, IsStartFor, IsTitled, StartsAt, title_cmp, titled};

use crate::grants::Grant;
use crate::hints::NOWHERE;
use cat_items::{Catalogue, Item, Marks, Need};
use role_graph::Actor;
use sql_tree::Name;
use std::alloc::{AllocError, Global};
use std::cmp::Ordering;

/// What an option lets grant, and to whom the option was granted.
#[derive(Clone, Copy)]
pub enum Title<'a> {
    Role(&'a Name, &'a Name),
    Right(&'a Need, Actor<'a>),
}

/// An option: its title, and its place.
#[derive(Clone, Copy)]
pub struct GrantOption<'a> {
    pub title: Title<'a>,
    pub at: usize,
}

/// The title of an item that is an option.
fn title_in(x: &Item) -> Option<Title<'_>>
    ensures some { IfSome result (λ t. IsTitled t x.now) }
    ensures none { IfNone result (¬ (IsOption x.now)) }
{
    match x {
        Item::RoleAdmin(grant) => {
            let grant = grant.get();
            Some(Title::Role(&grant.role, &grant.grantee))
        }
        Item::Grantable(right) => {
            let right = right.get();
            Some(Title::Right(&right.need, (&right.grantee).into()))
        }
        _ => None,
    }
}

/// The options of a catalogue, by their places.
fn options_of<'a>(alloc: Global, c: &'a Catalogue) -> Result<Vec<GrantOption<'a>>, AllocError>
    ensures { IfOk result (λ options. AreOptions c.now.items options.items) }
{
    let items = c.items();
    let mut options = Vec::new(alloc);
    for at in 0..items.len() {
        if let Some(title) = title_in(&items[at]) {
            options.push(GrantOption { title, at })?;
        }
    }
    Ok(options)
}

/// Compares whom options are granted to.
fn compare_grantees(a: Actor<'_>, b: Actor<'_>) -> Ordering
    ensures { result ≡ auth_cmp (auth_of a.entry) (auth_of b.entry) }
{
    match (a, b) {
        (Actor::Named(one), Actor::Named(other)) => one.cmp(other),
        (Actor::System, Actor::System) => Ordering::Equal,
        (Actor::Public, Actor::Public) => Ordering::Equal,
        (Actor::System, _) => Ordering::Less,
        (_, Actor::Named(_)) => Ordering::Less,
        _ => Ordering::Greater,
    }
}

/// Roles come first, and then rights.
pub fn compare_titles(a: Title<'_>, b: Title<'_>) -> Ordering
    ensures { result ≡ title_cmp a.entry b.entry }
{
    match (a, b) {
        (Title::Role(role, to), Title::Role(other, other_to)) => {
            role.cmp(other).then(to.cmp(other_to))
        }
        (Title::Right(need, to), Title::Right(other, other_to)) => {
            need.cmp(other).then(compare_grantees(to, other_to))
        }
        (Title::Role(_, _), _) => Ordering::Less,
        _ => Ordering::Greater,
    }
}

/// The options of a catalogue, by title. `Err` is want of memory.
pub fn listed<'a>(alloc: Global, c: &'a Catalogue) -> Result<Vec<GrantOption<'a>>, AllocError>
    ensures { IfOk result (λ options. AreListed c.now.items options.items) }
{
    let mut options = options_of(alloc, c)?;
    options.sort_unstable_by(|a, b| compare_titles(a.title, b.title));
    Ok(options)
}

/// Whether the option at a place comes before those of a title.
fn is_before(options: &[GrantOption<'_>], title: Title<'_>, at: usize) -> bool
    requires { at < length options.now }
    ensures { HoldsAt (λ o. result ≡ is_lt (title_cmp o.title title.entry)) options.now at }
{
    compare_titles(options[at].title, title).is_lt()
}

/// Whether no option from a place on comes before those of a title.
fn none_is_before(options: &[GrantOption<'_>], title: Title<'_>, from: usize) -> bool
    requires { AreByTitle options.now }
    ensures { IsTrue result → AllWithin (λ o. is_lt (title_cmp o.title title.entry) ≡ false) options.now from (length options.now) }
{
    from >= options.len() || !is_before(options, title, from)
}

/// Whether all options up to a place come before those of a title.
fn all_are_before(options: &[GrantOption<'_>], title: Title<'_>, to: usize) -> bool
    requires { AreByTitle options.now }
    ensures { IsTrue result → AllWithin (λ o. is_lt (title_cmp o.title title.entry) ≡ true) options.now 0 to }
{
    match to.checked_sub(1) {
        None => true,
        Some(last) => last < options.len() && is_before(options, title, last),
    }
}

/// Where the options of a title start: at a place that is given, or else by a search.
fn start_of(options: &[GrantOption<'_>], title: Title<'_>, hint: usize) -> usize
    requires { AreByTitle options.now }
    ensures { StartsAt options.now (titled title.entry) result }
{
    if none_is_before(options, title, hint) && all_are_before(options, title, hint) {
        return hint;
    }
    options.partition_point(|option| compare_titles(option.title, title).is_lt())
}

/// Whether an option of this title is marked, from where those start on.
fn is_marked_from(
    options: &[GrantOption<'_>],
    marks: &Marks,
    title: Title<'_>,
    start: usize,
) -> bool
    requires order { AreByTitle options.now }
    requires within { All (λ o. o.at < length marks.now) options.now }
    requires start { StartsAt options.now (titled title) start }
    ensures { IsTrue result ↔ HasTitle options.now marks.now title.entry }
{
    for at in start..options.len() {
        let option = &options[at];
        if compare_titles(option.title, title).is_gt() {
            return false;
        }
        if marks.marked(option.at) {
            return true;
        }
    }
    false
}

/// Whether an option of this title is marked. They may start at this place.
fn is_marked(options: &[GrantOption<'_>], marks: &Marks, title: Title<'_>, hint: usize) -> bool
    requires order { AreByTitle options.now }
    requires within { All (λ o. o.at < length marks.now) options.now }
    ensures { IsTrue result ↔ HasTitle options.now marks.now title.entry }
{
    let start = start_of(options, title, hint);
    is_marked_from(options, marks, title, start)
}

/// The title of an option to this grantee that lets grant the same. Nobody but a user or a role is granted a role.
pub fn title_to<'a>(grant: Grant<'a>, to: Actor<'a>) -> Option<Title<'a>>
    ensures some { IfSome result (λ t. (x : Item) → IsTitled t x ↔ IsOptionTo grant.entry (auth_of to.entry) x) }
    ensures none { IfNone result ((x : Item) → ¬ (IsOptionTo grant.entry (auth_of to.entry) x)) }
{
    match (grant, to) {
        (Grant::Role(grant), Actor::Named(to)) => Some(Title::Role(&grant.role, to)),
        (Grant::Right(right), to) => Some(Title::Right(&right.need, to)),
        _ => None,
    }
}

/// Whether an option to this grantee that lets grant the same is marked. They may start at the place that is given.
pub fn is_marked_to(
    options: &[GrantOption<'_>],
    marks: &Marks,
    grant: Grant<'_>,
    to: Actor<'_>,
    hint: usize,
) -> bool
    requires order { AreByTitle options.now }
    requires within { All (λ o. o.at < length marks.now) options.now }
    ensures { IsTrue result ↔ HasOptionTo options.now marks.now grant.entry (auth_of to.entry) }
{
    match title_to(grant, to) {
        Some(title) => is_marked(options, marks, title, hint),
        None => false,
    }
}

/// Compares a title with those of the options that let grant the same.
fn compare_subject(title: Title<'_>, grant: Grant<'_>) -> Ordering {
    match (title, grant) {
        (Title::Role(role, _), Grant::Role(grant)) => role.cmp(&grant.role),
        (Title::Right(need, _), Grant::Right(right)) => need.cmp(&right.need),
        (Title::Role(_, _), _) => Ordering::Less,
        _ => Ordering::Greater,
    }
}

/// Where the options start that let grant the same, of a right those to PUBLIC: a search.
pub fn start_for(options: &[GrantOption<'_>], grant: Grant<'_>) -> usize
    requires { AreByTitle options.now }
    ensures { IsStartFor grant.entry options.now result }
{
    match grant {
        Grant::Role(_) => {
            options.partition_point(|option| compare_subject(option.title, grant).is_lt())
        }
        Grant::Right(right) => {
            start_of(options, Title::Right(&right.need, Actor::Public), NOWHERE)
        }
    }
}

/// Whether an option to PUBLIC that lets grant the same is marked.
pub fn is_marked_to_public(
    options: &[GrantOption<'_>],
    marks: &Marks,
    grant: Grant<'_>,
    start: usize,
) -> bool
    requires order { AreByTitle options.now }
    requires within { All (λ o. o.at < length marks.now) options.now }
    requires start { IsStartFor grant options.now start }
    ensures { IsTrue result ↔ HasOptionTo options.now marks.now grant.entry Public }
{
    match title_to(grant, Actor::Public) {
        Some(title) => is_marked_from(options, marks, title, start),
        None => false,
    }
}

/// Up to how many options that let grant the same are gone through one by one.
const FEW: usize = 8;

/// Whether only a few options let grant the same, from where they start on.
pub fn are_few(options: &[GrantOption<'_>], grant: Grant<'_>, start: usize) -> bool {
    match options.get(start.saturating_add(FEW)) {
        Some(option) => compare_subject(option.title, grant).is_ne(),
        None => true,
    }
}
