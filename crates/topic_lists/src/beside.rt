//! Rights that look for the same by way of a view.

ghost use Rattle.std.specs.Prelude.{◌≡◌, ◌↔◌, IsTrue};
ghost use Rattle.std.specs.Option.{option_copied};
ghost use Rattle.topic_lists.specs.Beside as spec;

use cat_items::{Auth, Item, Right};
use sql_tree::{Action, Path};

/// The object of a right, where this is one by the system to SELECT.
fn selected_by(right: &Right) -> Option<&Path>
    ensures { option_copied result ≡ spec.selected_by right.now.grantor right.now.need }
{
    match &right.grantor {
        Auth::System => match right.need.action {
            Action::Select => Some(&right.need.on),
            _ => None,
        },
        Auth::Public => None,
        Auth::Named(_) => None,
    }
}

/// The object of an item, where this is a right by the system to SELECT.
fn selected(x: &Item) -> Option<&Path>
    ensures { option_copied result ≡ spec.selected x.now }
{
    match x {
        Item::Held(right) => selected_by(right.get()),
        Item::Grantable(right) => selected_by(right.get()),
        _ => None,
    }
}

/// Whether two items are rights by the system to SELECT on one object.
fn are_beside(x: &Item, y: &Item) -> bool
    ensures { IsTrue result ↔ spec.AreBeside x.now y.now }
{
    match (selected(x), selected(y)) {
        (Some(on), Some(other)) => on.same(other),
        _ => false,
    }
}

/// Whether an item is such a right beside the one before.
pub fn is_beside(x: &Item, before: Option<&Item>) -> bool
    ensures { IsTrue result ↔ spec.IsBeside x.now (option_copied before.entry) }
{
    match before {
        None => false,
        Some(y) => are_beside(x, y),
    }
}
