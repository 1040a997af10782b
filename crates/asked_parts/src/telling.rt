//! By which items others ask.

ghost use Rattle.std.specs.Prelude.{◌≡◌, ◌⊎◌, ◌↔◌, false, IsTrue};
ghost use Rattle.std.specs.List.{Contains};
ghost use Rattle.cat_items.specs.declared.item.Item.{Item};
ghost use Rattle.cat_items.specs.Ranges.{IsRoleAuthorization, IsView};
ghost use Rattle.cat_items.specs.Reach.{Has};
ghost use Rattle.asked_parts.specs.Rounds.{IsBased, IsGiven, IsGiver, Tells, TellsTo};

use cat_items::{Auth, Catalogue, Column, Item, Part, places};
use sql_tree::Object;

fn is_based(domain: &Option<Object>) -> bool
    ensures { IsTrue result ↔ IsBased domain.now }
{
    match domain {
        None => false,
        Some(_) => true,
    }
}

fn has_view(part: &Catalogue, view: &Object) -> bool
    ensures { IsTrue result ↔ Has part.now.items (IsView view.now) }
{
    !places(part, Part::View(view.into())).is_empty()
}

/// Whether a column is based on a domain, or is one of a view of the part.
fn column_tells(part: &Catalogue, column: &Column) -> bool
    ensures { IsTrue result ↔ (IsBased column.now.domain ⊎ Has part.now.items (IsView column.now.table)) }
{
    is_based(&column.domain) || has_view(part, &column.table)
}

fn tells(part: &Catalogue, x: &Item) -> bool
    ensures { IsTrue result ↔ Tells part.now.items x.now }
{
    match x {
        Item::Schema(_) => true,
        Item::View(_) => true,
        Item::Column(column) => column_tells(part, column.get()),
        Item::Routine(_) => true,
        Item::RoleAuth(_) => true,
        _ => false,
    }
}

/// Whether others ask by any of these items.
fn any_tells(part: &Catalogue, items: &[Item]) -> bool
    ensures { result ≡ false → (y : Item) → Contains items.now y → Tells part.now.items y → ⊥ }
{
    for item in items {
        if tells(part, item) {
            return true;
        }
    }
    false
}

fn is_role_authorization(x: &Item) -> bool
    ensures { IsTrue result ↔ IsRoleAuthorization x.now }
{
    match x {
        Item::RoleAuth(_) => true,
        _ => false,
    }
}

fn any_authorization(items: &[Item]) -> bool
    ensures { result ≡ false → (y : Item) → Contains items.now y → IsRoleAuthorization y → ⊥ }
{
    for item in items {
        if is_role_authorization(item) {
            return true;
        }
    }
    false
}

fn is_giver(a: &Auth) -> bool
    ensures { IsTrue result ↔ IsGiver a.now }
{
    match a {
        Auth::System => false,
        Auth::Public => true,
        Auth::Named(_) => true,
    }
}

fn is_given(x: &Item) -> bool
    ensures { IsTrue result ↔ IsGiven x.now }
{
    match x {
        Item::Held(right) => is_giver(&right.get().grantor),
        Item::Grantable(right) => is_giver(&right.get().grantor),
        Item::RoleAuth(_) => true,
        Item::RoleAdmin(_) => true,
        _ => false,
    }
}

fn all_given(items: &[Item]) -> bool
    ensures { IsTrue result → (x : Item) → Contains items.now x → IsGiven x }
{
    for item in items {
        if !is_given(item) {
            return false;
        }
    }
    true
}

/// Whether any of these suspects may ask by any of what was found, which the part has.
pub(crate) fn ask_again(part: &Catalogue, suspects: &[Item], found: &[Item]) -> bool
    ensures { result ≡ false → (x y : Item) → Contains suspects.now x → Contains found.now y → TellsTo part.now.items x y → ⊥ }
{
    any_authorization(found) || (!all_given(suspects) && any_tells(part, found))
}
