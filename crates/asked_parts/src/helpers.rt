//! Keys that no catalogue has.

ghost use Rattle.std.specs.Prelude.{◌≡◌, ◌↔◌, IsTrue};
ghost use Rattle.cat_items.specs.declared.need.Auth.TheVariants as auth;
ghost use Rattle.board_graph.specs.BoardKeys.{IsHelper, IsPlace};

use cat_items::{Auth, Item, Right};

fn is_system(grantee: &Auth) -> bool
    ensures { IsTrue result ↔ (grantee.now ≡ auth.System) }
{
    match grantee {
        Auth::System => true,
        Auth::Public => false,
        Auth::Named(_) => false,
    }
}

fn is_public(grantor: &Auth) -> bool
    ensures { IsTrue result ↔ (grantor.now ≡ auth.Public) }
{
    match grantor {
        Auth::System => false,
        Auth::Public => true,
        Auth::Named(_) => false,
    }
}

fn is_place(right: &Right) -> bool
    ensures { IsTrue result ↔ IsPlace right.now.grantor right.now.grantee }
{
    is_public(&right.grantor) || is_system(&right.grantee)
}

/// Whether a key is a helper's: of a topic, or of a right that the system could grant. No catalogue has such an item. No memory.
pub fn is_helper(key: &Item) -> bool
    ensures { IsTrue result ↔ IsHelper key.now }
{
    match key {
        Item::RoleAuth(grant) => is_public(&grant.get().grantor),
        Item::RoleAdmin(grant) => is_public(&grant.get().grantor),
        Item::Held(right) => is_place(right.get()),
        Item::Grantable(right) => is_place(right.get()),
        _ => false,
    }
}
