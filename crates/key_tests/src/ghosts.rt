//! Keys of ghosts: of rights that the system could grant, and that don't stand.

ghost use Rattle.std.specs.Prelude.{◌≡◌, IfOk, List, Some};
ghost use Rattle.cat_items.specs.declared.need.Auth.TheVariants as auths;
ghost use Rattle.cat_items.specs.declared.item.Item.{Item};
ghost use Rattle.cat_items.specs.Survivors.{IsSystemRight};
ghost use Rattle.board_graph.specs.BoardKeys as keys;
ghost use Rattle.key_tests.specs.Tests as spec;

use crate::auths::{is_named, is_system};
use cat_items::{Auth, Item, Right, Shared};
use std::alloc::{AllocError, Global};

/// The right of the ghost's key.
fn ghost_right(right: &Right) -> Result<Right, AllocError>
    ensures { IfOk result (λ ghost. ghost ≡ record right.now { grantor = right.now.grantee; grantee = auths.System }) }
{
    Ok(Right {
        need: right.need.copy()?,
        grantor: right.grantee.copy()?,
        grantee: Auth::System,
    })
}

/// The key of the ghost of a right. `Err` is want of memory.
pub fn ghost_key(alloc: Global, x: &Item) -> Result<Item, AllocError>
    ensures { IfOk result (λ key. key ≡ keys.ghost_key x.now) }
{
    match x {
        Item::Held(right) => Ok(Item::Held(Shared::new(alloc, ghost_right(right.get())?)?)),
        Item::Grantable(right) => {
            let right = ghost_right(right.get())?;
            Ok(Item::Grantable(Shared::new(alloc, right)?))
        }
        _ => x.copy(),
    }
}

/// Whether a right is by the system to a user or a role.
pub fn is_by_system(right: &Right) -> bool
    ensures { result ≡ spec.is_by_system right.now.grantor right.now.grantee }
{
    is_system(&right.grantor) && is_named(&right.grantee)
}

fn may_be_ghost(x: &Item) -> bool
    ensures { result ≡ spec.may_be_ghost x.now }
{
    match x {
        Item::Held(right) => is_by_system(right.get()),
        Item::Grantable(right) => is_by_system(right.get()),
        _ => false,
    }
}

/// The key of the ghost of a right by the system to a user or a role, as each is that the system could grant (`possible`).
/// `Err` is want of memory.
pub fn ghost_of(alloc: Global, x: &Item) -> Result<Option<Item>, AllocError>
    ensures value { IfOk result (λ ghost. ghost ≡ spec.ghost_of x.now) }
    ensures possible { IfOk result (λ ghost. (c : List Item) → IsSystemRight c x.now → ghost ≡ Some (keys.ghost_key x.now)) }
{
    if !may_be_ghost(x) {
        return Ok(None);
    }
    Ok(Some(ghost_key(alloc, x)?))
}
