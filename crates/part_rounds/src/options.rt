//! Grant options of the system's rights to SELECT: those to one grantee on one object are granted together.

ghost use Rattle.std.specs.Prelude.{◌≡◌, ◌↔◌, Bool, List, length, IfNone, IfSome, IsTrue};
ghost use Rattle.finite_chains.specs.Chains.{IsWithin};
ghost use Rattle.cat_items.specs.declared.item.Item.{Item};
ghost use Rattle.cat_items.specs.declared.item.Item.TheVariants as item;
ghost use Rattle.cat_items.specs.declared.item.Right.{Right};
ghost use Rattle.cat_items.specs.declared.need.Auth.TheVariants as auth;
ghost use Rattle.cat_items.specs.Supported.{Supported};
ghost use Rattle.role_graph.specs.Marked.{marked};
ghost use Rattle.role_graph.specs.Roles.{IsRoomFor};
ghost use Rattle.part_rounds.specs.Grantees.{AreListed};
ghost use Rattle.part_rounds.specs.Options as spec;

use crate::granted::{granted_told, is_made};
use crate::grantees::GrantOption;
use crate::grants::{Grant, granted_in};
use crate::hints::Hint;
use cat_items::{Auth, Catalogue, Item, Marks, Right};
use grant_chain::supported;
use role_graph::{Judge, Walk};
use sql_tree::Action;

/// What was found of the grant option of a right by the system to SELECT: whether the system grants it.
#[derive(Clone, Copy)]
pub struct Found<'a> {
    pub right: &'a Right,
    pub granted: bool,
}

/// An answer of an item, and what was found last.
#[derive(Clone, Copy)]
pub struct Answer<'a> {
    pub holds: bool,
    pub found: Option<Found<'a>>,
}

fn is_system(grantor: &Auth) -> bool
    ensures { IsTrue result ↔ (grantor.now ≡ auth.System) }
{
    match grantor {
        Auth::System => true,
        Auth::Public => false,
        Auth::Named(_) => false,
    }
}

/// Whether a right is by the system, to SELECT.
fn is_to_select(right: &Right) -> bool
    ensures { IsTrue result ↔ spec.IsToSelect right.now }
{
    is_system(&right.grantor) && right.need.action == Action::Select
}

/// The right whose grant option an item is, where it is one by the system to SELECT.
fn option_to_select(x: &Item) -> Option<&Right>
    ensures some { IfSome result (λ r. (x.now ≡ item.Grantable r.now) × spec.IsToSelect r.now) }
    ensures none { IfNone result ((r : Right) → x.now ≡ item.Grantable r → ¬ (spec.IsToSelect r)) }
{
    match x {
        Item::Grantable(right) => {
            let right = right.get();
            if is_to_select(right) {
                Some(right)
            } else {
                None
            }
        }
        _ => None,
    }
}

/// Whether two rights are on one object, and to one user or role.
fn are_alike(a: &Right, b: &Right) -> bool
    ensures { IsTrue result ↔ spec.AreAlike a.now b.now }
{
    match (&a.grantee, &b.grantee) {
        (Auth::Named(one), Auth::Named(other)) => one.same(other) && a.need.on.same(&b.need.on),
        _ => false,
    }
}

/// What was found of a right that is like this one.
fn recalled(found: Option<Found<'_>>, right: &Right) -> Option<bool>
    ensures some { IfSome result (λ granted. spec.IsFound found.entry right.now granted) }
    ensures none { IfNone result ((granted : Bool) → ¬ (spec.IsFound found.entry right.now granted)) }
{
    match found {
        None => None,
        Some(of) => {
            if are_alike(of.right, right) {
                Some(of.granted)
            } else {
                None
            }
        }
    }
}

/// Whether a right is held, and its object stands, with its column: by the items at marked places.
fn is_held_there(c: &Catalogue, marks: &Marks, walk: &mut Walk, right: &Right) -> bool
    requires room { IsRoomFor walk.old c.now.items }
    requires marks { length marks.now ≡ length c.now.items }
    ensures answer { IsTrue result ↔ spec.IsHeldThere (marked c.now.items marks.now) right.now }
    ensures room { walk.new ≡ walk.old }
{
    if !is_made(c, marks, Grant::Right(right)) {
        return false;
    }
    let judge = Judge::new(c, Some(marks), walk);
    let answer = judge.stands((&right.need).into());
    judge.end();
    answer
}

/// Whether the items at marked places support the grant option of a right by the system to SELECT.
fn option_told<'a>(
    c: &'a Catalogue,
    marks: &Marks,
    walk: &mut Walk,
    x: &Item,
    right: &'a Right,
    found: Option<Found<'a>>,
) -> Answer<'a>
    requires room { IsRoomFor walk.old c.now.items }
    requires marks { length marks.now ≡ length c.now.items }
    requires option { (x.now ≡ item.Grantable right.now) × spec.IsToSelect right.now }
    requires found { spec.Knows c.now.items (marked c.now.items marks.now) found }
    ensures answer { IsTrue result.holds ↔ Supported c.now.items (marked c.now.items marks.now) x.now }
    ensures found { spec.Knows c.now.items (marked c.now.items marks.now) result.found }
    ensures room { walk.new ≡ walk.old }
{
    if !is_held_there(c, marks, walk, right) {
        return Answer {
            holds: false,
            found,
        };
    }
    if let Some(granted) = recalled(found, right) {
        return Answer {
            holds: granted,
            found,
        };
    }
    let granted = supported(c, marks, walk, x);
    Answer {
        holds: granted,
        found: Some(Found { right, granted }),
    }
}

/// Whether the items at marked places support an item, which is judged by itself.
fn told_alone(
    c: &Catalogue,
    marks: &Marks,
    walk: &mut Walk,
    options: &[GrantOption<'_>],
    x: &Item,
    hint: Hint,
) -> bool
    requires room { IsRoomFor walk.old c.now.items }
    requires marks { length marks.now ≡ length c.now.items }
    requires options { AreListed c.now.items options.now }
    ensures answer { IsTrue result ↔ Supported c.now.items (marked c.now.items marks.now) x.now }
    ensures room { walk.new ≡ walk.old }
{
    match granted_in(x) {
        Some(granted) => granted_told(c, marks, walk, options, x, granted, hint),
        None => supported(c, marks, walk, x),
    }
}

/// Whether the items at marked places support an item.
pub fn told<'a>(
    c: &'a Catalogue,
    marks: &Marks,
    walk: &mut Walk,
    options: &[GrantOption<'_>],
    x: &'a Item,
    hint: Hint,
    found: Option<Found<'a>>,
) -> Answer<'a>
    requires room { IsRoomFor walk.old c.now.items }
    requires marks { length marks.now ≡ length c.now.items }
    requires options { AreListed c.now.items options.now }
    requires found { spec.Knows c.now.items (marked c.now.items marks.now) found }
    ensures answer { IsTrue result.holds ↔ Supported c.now.items (marked c.now.items marks.now) x.now }
    ensures found { spec.Knows c.now.items (marked c.now.items marks.now) result.found }
    ensures room { walk.new ≡ walk.old }
{
    match option_to_select(x) {
        None => Answer {
            holds: told_alone(c, marks, walk, options, x, hint),
            found,
        },
        Some(right) => option_told(c, marks, walk, x, right, found),
    }
}

/// What is still known once there is another mark: what is granted is granted by more marks, too.
pub fn kept<'a>(found: Option<Found<'a>>) -> Option<Found<'a>>
    ensures { (c s t : List Item) → IsWithin s t → spec.Knows c s found.entry → spec.Knows c t result }
{
    match found {
        Some(of) if of.granted => Some(of),
        _ => None,
    }
}
