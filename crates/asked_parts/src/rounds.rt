//! Rounds in which a part grows by what its suspects ask for.

ghost use Rattle.std.specs.Prelude.{◌≡◌, ◌+◌, ◌<◌, ◌≤◌, ◌⊎◌, true, false, List, length, IfOk, OnOk};
ghost use Rattle.std.specs.List.{Contains, sum_by};
ghost use Rattle.finite_chains.specs.Chains.{IsWithin};
ghost use Rattle.cat_items.specs.declared.item.Item.{Item};
ghost use Rattle.board_steps.specs.Plans.{HasNoHelper, IsFullBoard};
ghost use Rattle.asked_parts.specs.Parts.{HasAsked, IsAskedAnew, IsAskedBy, IsPartOf};
ghost use Rattle.asked_parts.specs.Rounds.{HasAskedAll, IsClosed, IsLeast, IsUnderWay, WasAsked};
ghost use Rattle.asked_parts.specs.Under.{AreApart, look_ups};

use crate::asking::asked_by;
use crate::beginning::begun;
use crate::growing::put_copies;
use crate::schemas::schema_keys;
use crate::speakers::speakers;
use crate::telling::ask_again;
use crate::under::items_under;
use cat_items::{Catalogue, Item};
use indexmap::IndexSet;
use item_index::{Index, Steps};
use item_lists::without;
use std::alloc::{AllocError, Global};
use std::hash::BuildHasher;
use std::sync::ledger::Ledger;

/// Looks up these keys, which are asked for over the part and weren't yet, and puts in what stands under them: whether more may be asked for by it.
fn look_up<S: BuildHasher + Drop, L: Ledger>(
    alloc: Global,
    board: &Index<Item, S>,
    marks: &IndexSet<usize>,
    suspects: &Catalogue,
    keys: Catalogue,
    part: &mut Catalogue,
    asked: &mut Catalogue,
    steps: &mut Steps<L>,
) -> Result<bool, AllocError>
    requires apart { AreApart board.now marks.now.keys suspects.now.items }
    requires way { IsUnderWay board.now marks.now.keys suspects.now.items part.old.items asked.old.items }
    requires keys { (k : Item) → Contains keys.items k → IsAskedAnew part.old.items suspects.now.items asked.old.items k }
    ensures way { OnOk result (IsUnderWay board.now marks.now.keys suspects.now.items part.new.items asked.new.items) }
    ensures closed { ((k : Item) → IsAskedBy part.old.items suspects.now.items k → Contains asked.old.items k ⊎ Contains keys.items k)
        → IfOk result (λ more. more ≡ false → IsClosed board.now marks.now.keys suspects.now.items part.new.items) }
    ensures more { IfOk result (λ more. more ≡ true → length part.old.items < length part.new.items) }
    ensures least { OnOk result (IsLeast board.now marks.now.keys suspects.now.items part.old.items → IsLeast board.now marks.now.keys suspects.now.items part.new.items) }
    ensures spent { OnOk result (steps.new + sum_by (look_ups board.now) asked.old.items ≤ steps.old + sum_by (look_ups board.now) asked.new.items) }
    ensures few { (p all : List Item) → IsLeast board.now marks.now.keys suspects.now.items part.old.items → IsClosed board.now marks.now.keys suspects.now.items p → HasAsked p suspects.now.items all
        → steps.new + sum_by (look_ups board.now) asked.old.items ≤ steps.old + sum_by (look_ups board.now) all }
{
    let found = items_under(alloc, board, marks, keys.items(), steps)?;
    asked.reserve(keys.items().len())?;
    asked.put_in_all(keys.into_items());
    let grew = put_copies(alloc, part, found.items())?;
    Ok(grew && ask_again(part, suspects.items(), found.items()))
}

/// Puts in what these of the suspects ask for over the part, and that wasn't asked for yet: whether more may be asked for by it.
fn round<S: BuildHasher + Drop, L: Ledger>(
    alloc: Global,
    board: &Index<Item, S>,
    marks: &IndexSet<usize>,
    suspects: &Catalogue,
    asking: &[Item],
    part: &mut Catalogue,
    asked: &mut Catalogue,
    steps: &mut Steps<L>,
) -> Result<bool, AllocError>
    requires asking { IsWithin asking.now suspects.now.items }
    requires apart { AreApart board.now marks.now.keys suspects.now.items }
    requires way { IsUnderWay board.now marks.now.keys suspects.now.items part.old.items asked.old.items }
    ensures way { OnOk result (IsUnderWay board.now marks.now.keys suspects.now.items part.new.items asked.new.items) }
    ensures closed { IsWithin suspects.now.items asking.now → IfOk result (λ more. more ≡ false → IsClosed board.now marks.now.keys suspects.now.items part.new.items) }
    ensures more { IfOk result (λ more. more ≡ true → length part.old.items < length part.new.items) }
    ensures least { OnOk result (IsLeast board.now marks.now.keys suspects.now.items part.old.items → IsLeast board.now marks.now.keys suspects.now.items part.new.items) }
    ensures spent { OnOk result (steps.new + sum_by (look_ups board.now) asked.old.items ≤ steps.old + sum_by (look_ups board.now) asked.new.items) }
    ensures few { (p keys : List Item) → IsLeast board.now marks.now.keys suspects.now.items part.old.items → IsClosed board.now marks.now.keys suspects.now.items p → HasAsked p suspects.now.items keys
        → steps.new + sum_by (look_ups board.now) asked.old.items ≤ steps.old + sum_by (look_ups board.now) keys }
{
    let all = asked_by(alloc, part, asking)?;
    let keys = without(alloc, all.items(), asked.items())?;
    look_up(alloc, board, marks, suspects, keys, part, asked, steps)
}

/// Puts in more suspects, and all that the suspects ask for and that wasn't asked for yet: `suspects` are all of them. It looks up what the
/// option of each further one adds to, and once each key that wasn't asked for, with what its node rests on. `Err` is want of memory.
pub fn ask_more<S: BuildHasher + Drop, L: Ledger>(
    alloc: Global,
    board: &Index<Item, S>,
    marks: &IndexSet<usize>,
    suspects: &Catalogue,
    more: &Catalogue,
    part: &mut Catalogue,
    asked: &mut Catalogue,
    steps: &mut Steps<L>,
) -> Result<(), AllocError>
    requires apart { AreApart board.now marks.now.keys suspects.now.items }
    requires before { WasAsked board.now marks.now.keys suspects.now.items more.now.items part.old.items asked.old.items }
    ensures asked { OnOk result (HasAskedAll board.now marks.now.keys suspects.now.items part.new.items asked.new.items) }
    ensures part { (c : List Item) → HasNoHelper c → IsFullBoard board.now c → OnOk result (IsPartOf board.now c marks.now.keys suspects.now.items part.new.items) }
    ensures spent { OnOk result (steps.new + sum_by (look_ups board.now) asked.old.items ≤ steps.old + (length more.now.items + sum_by (look_ups board.now) asked.new.items)) }
    ensures ticks { (p keys : List Item) → IsClosed board.now marks.now.keys suspects.now.items p → HasAsked p suspects.now.items keys
        → steps.new + sum_by (look_ups board.now) asked.old.items ≤ steps.old + (length more.now.items + sum_by (look_ups board.now) keys) }
{
    if more.items().is_empty() {
        return Ok(());
    }
    let _ = suspects.items();
    let first = begun(alloc, board, marks, more.items(), steps)?;
    put_copies(alloc, part, first.items())?;
    let schemas = schema_keys(alloc, more.items(), asked)?;
    look_up(alloc, board, marks, suspects, schemas, part, asked, steps)?;
    let asking = speakers(alloc, more.items())?;
    while round(
        alloc,
        board,
        marks,
        suspects,
        asking.as_slice(),
        part,
        asked,
        steps,
    )? {}
    while round(
        alloc,
        board,
        marks,
        suspects,
        suspects.items(),
        part,
        asked,
        steps,
    )? {}
    Ok(())
}

/// A part of an edited catalogue, and the keys that were asked for.
#[derive(Drop)]
pub struct Asked {
    pub part: Catalogue,
    pub keys: Catalogue,
}

/// The part of an edited catalogue over which rounds are made: the suspects, and of the items that have no mark those that the suspects ask
/// for, no more; and the keys that they ask for. It looks up what each suspect's option adds to, and once each key that is asked for, with what its
/// node rests on. `Err` is want of memory.
pub fn part_of<S: BuildHasher + Drop, L: Ledger>(
    alloc: Global,
    board: &Index<Item, S>,
    marks: &IndexSet<usize>,
    suspects: &Catalogue,
    steps: &mut Steps<L>,
) -> Result<Asked, AllocError>
    requires { AreApart board.now marks.now.keys suspects.now.items }
    ensures asked { IfOk result (λ asked. HasAskedAll board.now marks.now.keys suspects.now.items asked.part.items asked.keys.items) }
    ensures part { (c : List Item) → HasNoHelper c → IsFullBoard board.now c → IfOk result (λ asked. IsPartOf board.now c marks.now.keys suspects.now.items asked.part.items) }
    ensures least { (c p : List Item) → HasNoHelper c → IsFullBoard board.now c → IsPartOf board.now c marks.now.keys suspects.now.items p → IfOk result (λ asked. IsWithin asked.part.items p) }
    ensures spent { IfOk result (λ asked. steps.new ≤ steps.old + (length suspects.now.items + sum_by (look_ups board.now) asked.keys.items)) }
    ensures ticks { (p keys : List Item) → IsClosed board.now marks.now.keys suspects.now.items p → HasAsked p suspects.now.items keys
        → steps.new ≤ steps.old + (length suspects.now.items + sum_by (look_ups board.now) keys) }
{
    let mut part = Catalogue::of_sorted(Vec::new(alloc));
    let mut keys = Catalogue::of_sorted(Vec::new(alloc));
    let _ = suspects.items();
    ask_more(
        alloc, board, marks, suspects, suspects, &mut part, &mut keys, steps,
    )?;
    Ok(Asked { part, keys })
}
