//! The rights that GRANT adds.

ghost use Rattle.std.specs.Prelude.{◌≡◌, ◌↔◌, ◌⊎◌, IfOk, OnOk};
ghost use Rattle.std.specs.List.{Contains};
ghost use Rattle.cat_items.specs.declared.need.Need.{Need};
ghost use Rattle.cat_items.specs.declared.item.Item.{Item};
ghost use Rattle.cat_items.specs.Catalogues.{IsInOrder};
ghost use Rattle.cat_items.specs.Fit.{IsRight};
ghost use Rattle.grant_edit.specs.Grants.{IsGrant, IsOfRight};
ghost use Rattle.grant_edit.specs.Named.{named_grantees};

use crate::named::auth_of;
use cat_items::{Auth, Item, Need, Right, Shared, compare_items};
use sql_tree::{Grantee, Items, Name};
use std::alloc::{AllocError, Global};

/// Puts a right into rights in order, unless it is there.
fn put(items: &mut Vec<Item>, x: Item) -> Result<(), AllocError>
    requires order { IsInOrder items.old.items }
    requires right { IsRight x }
    ensures order { OnOk result (IsInOrder items.new.items) }
    ensures members { OnOk result ((y : Item) → Contains items.new.items y ↔ (Contains items.old.items y ⊎ (y ≡ x))) }
{
    match items.as_slice().binary_search_by(|y| compare_items(y, &x)) {
        Ok(_) => Ok(()),
        Err(at) => {
            items.insert(at, x)?;
            Ok(())
        }
    }
}

/// A right, held and with `option` with grant option too.
fn put_right(
    alloc: Global,
    items: &mut Vec<Item>,
    right: Right,
    option: bool,
) -> Result<(), AllocError>
    requires { IsInOrder items.old.items }
    ensures order { OnOk result (IsInOrder items.new.items) }
    ensures members { OnOk result ((y : Item) → Contains items.new.items y ↔ (Contains items.old.items y ⊎ IsOfRight right option y)) }
{
    let right = Shared::new(alloc, right)?;
    if option {
        put(items, Item::Grantable(right.share()?))?;
    }
    put(items, Item::Held(right))
}

/// A privilege to each grantee.
fn put_privilege(
    alloc: Global,
    items: &mut Vec<Item>,
    need: &Need,
    grantor: &Name,
    grantees: &Items<Grantee>,
    option: bool,
) -> Result<(), AllocError>
    requires { IsInOrder items.old.items }
    ensures order { OnOk result (IsInOrder items.new.items) }
    ensures members { OnOk result ((y : Item) → Contains items.new.items y ↔ (Contains items.old.items y ⊎ IsGrant (λ n. n ≡ need.now) grantor.now (named_grantees grantees.now) option y)) }
{
    for grantee in grantees.as_slice() {
        let right = Right {
            need: need.copy()?,
            grantor: Auth::Named(grantor.copy()?),
            grantee: auth_of(grantee)?,
        };
        put_right(alloc, items, right, option)?;
    }
    Ok(())
}

/// Each privilege to each grantee.
pub fn grants(
    alloc: Global,
    needs: &Vec<Need>,
    grantor: &Name,
    grantees: &Items<Grantee>,
    option: bool,
) -> Result<Vec<Item>, AllocError>
    ensures order { IfOk result (λ v. IsInOrder v.items) }
    ensures members { IfOk result (λ v. (y : Item) → Contains v.items y ↔ IsGrant (Contains needs.now.items) grantor.now (named_grantees grantees.now) option y) }
{
    let mut items = Vec::new(alloc);
    for need in needs {
        put_privilege(alloc, &mut items, need, grantor, grantees, option)?;
    }
    Ok(items)
}
