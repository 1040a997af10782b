//! Keys that no catalogue has, and which of these are topics'.

ghost use Rattle.std.specs.Prelude.{◌≡◌, ◌↔◌, IsTrue, Bool, true, false, List};
ghost use Rattle.std.specs.List.{Contains};
ghost use Rattle.cat_items.specs.declared.item.Item.{Item};
ghost use Rattle.cascade_laws.specs.Topics.{Topic};
ghost use Rattle.board_graph.specs.Boards.{IsOwnTopic};
ghost use Rattle.board_graph.specs.BoardKeys.{IsHelper, IsKeyOf, topic_key};
ghost use Rattle.key_tests.specs.Tests as spec;

use crate::auths::{is_public, is_system};
use cat_items::{Item, Right};

fn is_place(right: &Right) -> bool
    ensures { result ≡ spec.is_place right.now.grantor right.now.grantee }
{
    is_public(&right.grantor) || is_system(&right.grantee)
}

/// Whether it is a key that no catalogue has: that of a topic, or of a right that the system could grant. No memory.
pub fn is_helper(key: &Item) -> bool
    ensures value { result ≡ spec.is_helper key.now }
    ensures helper { IsTrue result ↔ IsHelper key.now }
{
    match key {
        Item::RoleAuth(grant) => is_public(&grant.get().grantor),
        Item::RoleAdmin(grant) => is_public(&grant.get().grantor),
        Item::Held(right) => is_place(right.get()),
        Item::Grantable(right) => is_place(right.get()),
        _ => false,
    }
}

fn is_topic_right(right: &Right) -> bool
    ensures { result ≡ spec.is_topic_place right.now.grantor right.now.grantee }
{
    is_public(&right.grantor) || (is_system(&right.grantor) && is_system(&right.grantee))
}

/// Whether a key of a board is a topic's (`topic`), and not that of an item or of a right that the system could grant, where
/// no item has a helper's key (`other`). No memory.
pub fn is_topic(key: &Item) -> bool
    ensures value { result ≡ spec.is_topic key.now }
    ensures topic { (t : Topic) → IsOwnTopic t → key.now ≡ topic_key t → result ≡ true }
    ensures other { (c : List Item) (x : Item) → ((y : Item) → Contains c y → IsHelper y → ⊥) → IsKeyOf c x key.now → result ≡ false }
{
    match key {
        Item::RoleAuth(grant) => is_public(&grant.get().grantor),
        Item::RoleAdmin(grant) => is_public(&grant.get().grantor),
        Item::Held(right) => is_topic_right(right.get()),
        _ => false,
    }
}
