//! Rights, and how one is like another.

ghost use Rattle.std.specs.Prelude.{◌≡◌, ◌↔◌, IsTrue};
ghost use Rattle.std.specs.Option.{option_copied};
ghost use Rattle.topic_lists.specs.RightNames as spec;

use cat_items::{Auth, Item, Need, Right};
use sql_tree::Name;

/// The right that an item is.
pub fn right_in(x: &Item) -> Option<&Right>
    ensures { option_copied result ≡ spec.right_in x.now }
{
    match x {
        Item::Held(right) => Some(right.get()),
        Item::Grantable(right) => Some(right.get()),
        _ => None,
    }
}

/// The right that the item before is.
pub fn right_before(before: Option<&Item>) -> Option<&Right>
    ensures { option_copied result ≡ spec.right_before (option_copied before.entry) }
{
    match before {
        None => None,
        Some(x) => right_in(x),
    }
}

fn same_column(a: &Option<Name>, b: &Option<Name>) -> bool
    ensures { IsTrue result ↔ (a.now ≡ b.now) }
{
    match (a, b) {
        (None, None) => true,
        (Some(a), Some(b)) => a.same(b),
        _ => false,
    }
}

fn same_auth(a: &Auth, b: &Auth) -> bool
    ensures { IsTrue result ↔ (a.now ≡ b.now) }
{
    match (a, b) {
        (Auth::System, Auth::System) => true,
        (Auth::Public, Auth::Public) => true,
        (Auth::Named(a), Auth::Named(b)) => a.same(b),
        _ => false,
    }
}

/// Whether another right is of the same action on the same object.
pub fn is_at(need: &Need, other: Option<&Right>) -> bool
    ensures { IsTrue result ↔ spec.IsAt need.now (option_copied other.entry) }
{
    match other {
        None => false,
        Some(right) => right.need.action == need.action && right.need.on.same(&need.on),
    }
}

/// Whether another right is of the same need.
pub fn is_of(need: &Need, other: Option<&Right>) -> bool
    ensures { IsTrue result ↔ spec.IsOf need.now (option_copied other.entry) }
{
    match other {
        None => false,
        Some(right) => {
            right.need.action == need.action
                && right.need.on.same(&need.on)
                && same_column(&right.need.column, &need.column)
        }
    }
}

/// Whether another right is to the same one.
pub fn is_to(grantee: &Auth, other: Option<&Right>) -> bool
    ensures { IsTrue result ↔ spec.IsTo grantee.now (option_copied other.entry) }
{
    match other {
        None => false,
        Some(right) => same_auth(&right.grantee, grantee),
    }
}

/// Whether another right is by the same one.
pub fn is_by(grantor: &Auth, other: Option<&Right>) -> bool
    ensures { IsTrue result ↔ spec.IsBy grantor.now (option_copied other.entry) }
{
    match other {
        None => false,
        Some(right) => same_auth(&right.grantor, grantor),
    }
}
