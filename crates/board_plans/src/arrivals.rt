//! Keys that come in.

ghost use Rattle.std.specs.Prelude.{◌≡◌, [], IfOk, map};
ghost use Rattle.std.specs.List.{AllZip, fold};
ghost use Rattle.indexmap.specs.IndexSet.{insert_key};
ghost use Rattle.cat_items.specs.contracts.item.ItemPartialEq.TheImpl as same;
ghost use Rattle.board_plans.specs.Ends.{IsPlaceOf};

use cat_items::Item;
use indexmap::IndexSet;
use sql_tree::Items;
use std::alloc::{AllocError, Global};

/// A key that comes in, of an item that stands or of a right that the system could grant, and the keys that it is linked with.
#[derive(Drop)]
pub struct Arrival {
    pub key: Item,
    /// The topics that it depends on.
    pub depends_on: Items<Item>,
    /// The topics under which it stands.
    pub stands_under: Items<Item>,
    /// Of an option: what it adds to.
    pub adds_to: Option<Item>,
}

/// The keys of these, each once, and the place of each. `Err` is want of memory.
pub fn keys_of_all(
    alloc: Global,
    arrivals: &[Arrival],
) -> Result<(IndexSet<Item>, Vec<usize>), AllocError>
    ensures keys { IfOk result (λ r. r.0.keys ≡ fold (insert_key same.ghosts.eq) [] (map (λ a. a.key) arrivals.now)) }
    ensures places { IfOk result (λ r. AllZip (λ a place. IsPlaceOf same.ghosts.eq r.0.keys a.key place) arrivals.now r.1.items) }
{
    let mut keys = IndexSet::new(alloc);
    let mut places = Vec::new(alloc);
    for arrival in arrivals {
        let (place, _) = keys.insert_full(arrival.key.copy()?)?;
        places.push(place)?;
    }
    Ok((keys, places))
}
