//! How a part begins.

ghost use Rattle.std.specs.Prelude.{◌≡◌, ◌⊎◌, ◌↔◌, ◌+◌, ◌≤◌, length, IfOk, OnOk};
ghost use Rattle.std.specs.List.{Contains};
ghost use Rattle.cat_items.specs.declared.item.Item.{Item};
ghost use Rattle.cat_items.specs.Catalogues.{IsInOrder};
ghost use Rattle.edit_rules.specs.Chosen.{IsRightOrRoleGrant};
ghost use Rattle.topic_keys.specs.Lists.{Gets};
ghost use Rattle.asked_parts.specs.Rounds as spec;
ghost use Rattle.asked_parts.specs.Under.{IsUnmarked};

use crate::growing::put_copies;
use crate::helpers::is_helper;
use cat_items::{Catalogue, Item};
use edit_rules::put;
use indexmap::IndexSet;
use item_index::{Index, Steps};
use std::alloc::{AllocError, Global};
use std::hash::BuildHasher;
use std::sync::ledger::Ledger;

/// What an item's option adds to.
fn added_to(x: &Item) -> Result<Option<Item>, AllocError>
    ensures { IfOk result (λ added. added ≡ spec.option_of x.now) }
{
    match x {
        Item::Grantable(right) => Ok(Some(Item::Held(right.share()?))),
        Item::RoleAdmin(grant) => Ok(Some(Item::RoleAuth(grant.share()?))),
        _ => Ok(None),
    }
}

/// Puts in a right or a role grant, if it is an item of the board and has no mark.
fn put_own<S: BuildHasher + Drop, L: Ledger>(
    board: &Index<Item, S>,
    marks: &IndexSet<usize>,
    key: &Item,
    part: &mut Catalogue,
    steps: &mut Steps<L>,
) -> Result<(), AllocError>
    requires { IsRightOrRoleGrant key.now }
    ensures members { OnOk result (Gets (λ y. (y ≡ key.now) × IsUnmarked board.now marks.now.keys y) part.old.items part.new.items) }
    ensures ticks { steps.new ≤ steps.old + 1 }
{
    if is_helper(key) {
        return Ok(());
    }
    match board.node(key, steps) {
        None => Ok(()),
        Some(node) => {
            if marks.contains(&node) {
                return Ok(());
            }
            put(part, key.copy()?)
        }
    }
}

/// Puts in what an item's option adds to, if it is an item of the board and has no mark.
fn put_added_to<S: BuildHasher + Drop, L: Ledger>(
    board: &Index<Item, S>,
    marks: &IndexSet<usize>,
    x: &Item,
    part: &mut Catalogue,
    steps: &mut Steps<L>,
) -> Result<(), AllocError>
    ensures members { OnOk result (Gets (spec.IsAddedTo board.now marks.now.keys x.now) part.old.items part.new.items) }
    ensures ticks { steps.new ≤ steps.old + 1 }
{
    match added_to(x)? {
        None => Ok(()),
        Some(key) => put_own(board, marks, &key, part, steps),
    }
}

/// The suspects, and what their options add to.
pub(crate) fn begun<S: BuildHasher + Drop, L: Ledger>(
    alloc: Global,
    board: &Index<Item, S>,
    marks: &IndexSet<usize>,
    suspects: &[Item],
    steps: &mut Steps<L>,
) -> Result<Catalogue, AllocError>
    requires { IsInOrder suspects.now }
    ensures order { IfOk result (λ part. IsInOrder part.items) }
    ensures members { IfOk result (λ part. (y : Item) → Contains part.items y ↔ (Contains suspects.now y ⊎ spec.IsAddedToBySome board.now marks.now.keys suspects.now y)) }
    ensures ticks { steps.new ≤ steps.old + length suspects.now }
{
    let mut part = Catalogue::of_sorted(Vec::new(alloc));
    put_copies(alloc, &mut part, suspects)?;
    for x in suspects {
        put_added_to(board, marks, x, &mut part, steps)?;
    }
    let _ = part.items();
    Ok(part)
}
