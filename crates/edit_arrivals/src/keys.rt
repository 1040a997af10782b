//! Keys of items, and of rights that the system could grant and that don't stand.

ghost use Rattle.std.specs.Prelude.{◌≡◌, IfOk, OnOk};
ghost use Rattle.std.specs.declared.cmp.Ordering.TheVariants.{Less};
ghost use Rattle.cat_items.specs.declared.item.Item.{Item};
ghost use Rattle.cat_items.specs.Order.{item_cmp};
ghost use Rattle.cat_items.specs.Relevant.{IsOptionOn};
ghost use Rattle.board_graph.specs.BoardKeys.{IsKeyOf};
ghost use Rattle.board_plans.specs.Planning.{IsAddedTo};
ghost use Rattle.edit_arrivals.specs.Steps as spec;

use cat_items::{Catalogue, Item};
use item_lists::stands_from;
use key_tests::ghost_key;
use std::alloc::{AllocError, Global};

/// How many of what was found, and of the rights that the system could grant, a walk along both has passed.
#[derive(Clone, Copy)]
pub struct Passed {
    pub found: usize,
    pub rights: usize,
}

/// The key of an item, in a walk that has passed only what comes before it: its own where it stands, that of its ghost where it doesn't and the
/// system could grant it.
pub fn next_key(
    alloc: Global,
    found: &Catalogue,
    rights: &[Item],
    passed: &mut Passed,
    x: &Item,
) -> Result<Option<Item>, AllocError>
    requires rights { spec.AreSystemRights found.now.items rights.now }
    requires passed { spec.IsBehind found.now.items rights.now passed.old x.now }
    ensures key { IfOk result (spec.IsTheOne (IsKeyOf found.now.items x.now)) }
    ensures passed { OnOk result ((y : Item) → item_cmp x.now y ≡ Less → spec.IsBehind found.now.items rights.now passed.new y) }
{
    if stands_from(found.items(), &mut passed.found, x) {
        return Ok(Some(x.copy()?));
    }
    if stands_from(rights, &mut passed.rights, x) {
        return Ok(Some(ghost_key(alloc, x)?));
    }
    Ok(None)
}

/// What an item's option adds to.
fn option_of(x: &Item) -> Result<Option<Item>, AllocError>
    ensures { IfOk result (spec.IsTheOne (IsOptionOn x.now)) }
{
    match x {
        Item::Grantable(right) => Ok(Some(Item::Held(right.share()?))),
        Item::RoleAdmin(grant) => Ok(Some(Item::RoleAuth(grant.share()?))),
        _ => Ok(None),
    }
}

/// The key of what an item's option adds to, in a walk that has passed only what comes before that.
pub fn added_to(
    alloc: Global,
    found: &Catalogue,
    rights: &[Item],
    passed: &mut Passed,
    x: &Item,
) -> Result<Option<Item>, AllocError>
    requires rights { spec.AreSystemRights found.now.items rights.now }
    requires passed { spec.IsOptionBehind found.now.items rights.now passed.old x.now }
    ensures added { IfOk result (spec.IsTheOne (IsAddedTo found.now.items x.now)) }
    ensures passed { OnOk result ((y : Item) → item_cmp x.now y ≡ Less → spec.IsOptionBehind found.now.items rights.now passed.old y → spec.IsOptionBehind found.now.items rights.now passed.new y) }
{
    match option_of(x)? {
        None => Ok(None),
        Some(other) => next_key(alloc, found, rights, passed, &other),
    }
}
