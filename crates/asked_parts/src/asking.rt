//! The keys that suspects ask for.

ghost use Rattle.std.specs.Prelude.{◌↔◌, IfOk};
ghost use Rattle.std.specs.List.{Contains};
ghost use Rattle.cat_items.specs.declared.item.Item.{Item};
ghost use Rattle.topic_keys.specs.Lists.{AreKnownByKey};
ghost use Rattle.asked_parts.specs.Parts as spec;

use cat_items::{Catalogue, Item};
use indexmap::IndexSet;
use reached_roles::RoleGrants;
use std::alloc::{AllocError, Global};
use topic_keys::in_order;
use topic_lists::put_asked;

fn set_of(alloc: Global, keys: Vec<Item>) -> Result<IndexSet<Item>, AllocError>
    requires { AreKnownByKey keys.items }
    ensures { IfOk result (λ set. (k : Item) → Contains set.keys k ↔ Contains keys.items k) }
{
    let mut set = IndexSet::new(alloc);
    for key in keys {
        set.insert(key)?;
    }
    Ok(set)
}

/// These keys in order. Many suspects ask for the same, so equal keys are first told by their hashes.
fn ordered(alloc: Global, keys: Vec<Item>) -> Result<Catalogue, AllocError>
    requires { AreKnownByKey keys.items }
    ensures { IfOk result (λ all. (k : Item) → Contains all.items k ↔ Contains keys.items k) }
{
    let set = set_of(alloc, keys)?;
    let distinct: Vec<Item> = set.into_iter().collect(alloc)?;
    Ok(Catalogue::of_sorted(in_order(distinct)))
}

/// The keys of the topics that these suspects ask for.
pub(crate) fn asked_by(
    alloc: Global,
    part: &Catalogue,
    suspects: &[Item],
) -> Result<Catalogue, AllocError>
    ensures { IfOk result (λ keys. (k : Item) → Contains keys.items k ↔ spec.IsAskedBy part.now.items suspects.now k) }
{
    let roles = RoleGrants::of(alloc, part)?;
    let mut all = Vec::new(alloc);
    let mut before = None;
    for x in suspects {
        put_asked(alloc, part, &roles, x, before, &mut all)?;
        before = Some(x);
    }
    ordered(alloc, all)
}
