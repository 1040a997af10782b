//! The rights by the system that keys of a board are of.

ghost use Rattle.std.specs.Prelude.{◌≡◌, ◌↔◌, IfOk, Some};
ghost use Rattle.cat_items.specs.declared.item.Item.{Item};
ghost use Rattle.cat_items.specs.declared.item.Item.TheVariants as item;
ghost use Rattle.edit_suspects.specs.Helpers as helpers;
ghost use Rattle.edit_parts.specs.Possible as spec;
ghost use Rattle.edit_parts.specs.Touched.{IsRightOf};

use cat_items::{Auth, Item, Right, Shared};
use std::alloc::{AllocError, Global};

fn is_system(grantee: &Auth) -> bool
    ensures { result ≡ helpers.is_system grantee.now }
{
    match grantee {
        Auth::System => true,
        Auth::Public | Auth::Named(_) => false,
    }
}

fn is_named(grantor: &Auth) -> bool
    ensures { result ≡ helpers.is_named grantor.now }
{
    match grantor {
        Auth::Named(_) => true,
        Auth::System | Auth::Public => false,
    }
}

fn is_ghost(right: &Right) -> bool
    ensures { result ≡ spec.is_ghost right.now }
{
    is_named(&right.grantor) && is_system(&right.grantee)
}

fn is_by_system(right: &Right) -> bool
    ensures { result ≡ helpers.is_by_system right.now.grantor right.now.grantee }
{
    is_system(&right.grantor) && is_named(&right.grantee)
}

/// The right that a ghost's right stands for.
fn possible_right(right: &Right) -> Result<Option<Right>, AllocError>
    ensures { IfOk result (λ found. found ≡ spec.possible_right right.now) }
{
    if !is_ghost(right) {
        return Ok(None);
    }
    Ok(Some(Right {
        need: right.need.copy()?,
        grantor: Auth::System,
        grantee: right.grantor.copy()?,
    }))
}

/// The right itself, if it is by the system, or the one that it stands for.
fn right_of(right: &Right) -> Result<Option<Right>, AllocError>
    ensures { IfOk result (λ found. found ≡ spec.right_of right.now) }
{
    if is_by_system(right) {
        return Ok(Some(right.copy()?));
    }
    possible_right(right)
}

fn held_of(alloc: Global, right: &Right) -> Result<Option<Item>, AllocError>
    ensures { IfOk result (λ found. (x : Item) → (found ≡ Some x) ↔ IsRightOf (item.Held right.now) x) }
{
    match right_of(right)? {
        None => Ok(None),
        Some(right) => Ok(Some(Item::Held(Shared::new(alloc, right)?))),
    }
}

fn grantable_of(alloc: Global, right: &Right) -> Result<Option<Item>, AllocError>
    ensures { IfOk result (λ found. (x : Item) → (found ≡ Some x) ↔ IsRightOf (item.Grantable right.now) x) }
{
    match right_of(right)? {
        None => Ok(None),
        Some(right) => Ok(Some(Item::Grantable(Shared::new(alloc, right)?))),
    }
}

/// The right by the system whose key this is, or its ghost's.
pub(crate) fn right_by_key(alloc: Global, key: &Item) -> Result<Option<Item>, AllocError>
    ensures { IfOk result (λ found. (x : Item) → (found ≡ Some x) ↔ IsRightOf key.now x) }
{
    match key {
        Item::Held(right) => held_of(alloc, right.get()),
        Item::Grantable(right) => grantable_of(alloc, right.get()),
        _ => Ok(None),
    }
}
