//! Ends of links, where keys come in that no number has which stays.

ghost use Rattle.std.specs.Prelude.{◌+◌, ◌≤◌, IfOk, OnOk, length, map};
ghost use Rattle.std.specs.List.{AllZip, flat_map, sum_by};
ghost use Rattle.std.specs.Option.{option_to_list};
ghost use Rattle.cat_items.specs.contracts.item.ItemPartialEq.TheImpl as same;
ghost use Rattle.board_plans.specs.Arrivals.{links_by};
ghost use Rattle.board_plans.specs.Ends as spec;

use crate::arrivals::Arrival;
use cat_items::Item;
use graph_changes::End;
use indexmap::IndexSet;
use item_index::{Index, Steps};
use std::alloc::{AllocError, Global};
use std::sync::ledger::Ledger;

/// Where a key is once these numbers went out: among those that come in, or at a number that stays; else it comes in.
fn end_of<L: Ledger>(
    board: &Index<Item>,
    out: &IndexSet<usize>,
    key: &Item,
    keys: &mut IndexSet<Item>,
    steps: &mut Steps<L>,
) -> Result<End, AllocError>
    ensures end { IfOk result (λ end. spec.Ends same.ghosts.eq board.now out.now.keys keys.old.keys keys.new.keys key.now end) }
    ensures few { steps.new ≤ steps.old + 1 }
{
    if let Some(place) = keys.get_index_of(key) {
        return Ok(End::Comes(place));
    }
    if let Some(number) = board.node(key, steps) {
        if !out.contains(&number) {
            return Ok(End::Stays(number));
        }
    }
    let (place, _) = keys.insert_full(key.copy()?)?;
    Ok(End::Comes(place))
}

/// Pushes the links of a key, whose own end is known, to the topics that it depends on.
fn push_depends<L: Ledger>(
    board: &Index<Item>,
    out: &IndexSet<usize>,
    arrival: &Arrival,
    own: End,
    keys: &mut IndexSet<Item>,
    ends: &mut Vec<(End, End)>,
    steps: &mut Steps<L>,
) -> Result<(), AllocError>
    requires { spec.IsEnd same.ghosts.eq board.now out.now.keys keys.old.keys arrival.now.key own }
    ensures pushed { OnOk result (spec.ArePushed same.ghosts.eq board.now out.now.keys keys.old.keys keys.new.keys (map (λ other. (arrival.now.key, other)) arrival.now.depends_on) ends.old.items ends.new.items) }
    ensures few { steps.new ≤ steps.old + length arrival.now.depends_on }
{
    for other in arrival.depends_on.as_slice() {
        let to = end_of(board, out, other, keys, steps)?;
        ends.push((own, to))?;
    }
    Ok(())
}

/// Pushes the links to it from the topics under which it stands.
fn push_stands<L: Ledger>(
    board: &Index<Item>,
    out: &IndexSet<usize>,
    arrival: &Arrival,
    own: End,
    keys: &mut IndexSet<Item>,
    ends: &mut Vec<(End, End)>,
    steps: &mut Steps<L>,
) -> Result<(), AllocError>
    requires { spec.IsEnd same.ghosts.eq board.now out.now.keys keys.old.keys arrival.now.key own }
    ensures pushed { OnOk result (spec.ArePushed same.ghosts.eq board.now out.now.keys keys.old.keys keys.new.keys (map (λ other. (other, arrival.now.key)) arrival.now.stands_under) ends.old.items ends.new.items) }
    ensures few { steps.new ≤ steps.old + length arrival.now.stands_under }
{
    for other in arrival.stands_under.as_slice() {
        let from = end_of(board, out, other, keys, steps)?;
        ends.push((from, own))?;
    }
    Ok(())
}

/// Pushes the link of an option to what it adds to.
fn push_adds<L: Ledger>(
    board: &Index<Item>,
    out: &IndexSet<usize>,
    arrival: &Arrival,
    own: End,
    keys: &mut IndexSet<Item>,
    ends: &mut Vec<(End, End)>,
    steps: &mut Steps<L>,
) -> Result<(), AllocError>
    requires { spec.IsEnd same.ghosts.eq board.now out.now.keys keys.old.keys arrival.now.key own }
    ensures pushed { OnOk result (spec.ArePushed same.ghosts.eq board.now out.now.keys keys.old.keys keys.new.keys (map (λ other. (arrival.now.key, other)) (option_to_list arrival.now.adds_to)) ends.old.items ends.new.items) }
    ensures few { steps.new ≤ steps.old + length (option_to_list arrival.now.adds_to) }
{
    if let Some(other) = &arrival.adds_to {
        let to = end_of(board, out, other, keys, steps)?;
        ends.push((own, to))?;
    }
    Ok(())
}

fn push_links<L: Ledger>(
    board: &Index<Item>,
    out: &IndexSet<usize>,
    arrival: &Arrival,
    own: End,
    keys: &mut IndexSet<Item>,
    ends: &mut Vec<(End, End)>,
    steps: &mut Steps<L>,
) -> Result<(), AllocError>
    requires { spec.IsEnd same.ghosts.eq board.now out.now.keys keys.old.keys arrival.now.key own }
    ensures pushed { OnOk result (spec.ArePushed same.ghosts.eq board.now out.now.keys keys.old.keys keys.new.keys (links_by arrival.now) ends.old.items ends.new.items) }
    ensures few { steps.new ≤ steps.old + length (links_by arrival.now) }
{
    push_depends(board, out, arrival, own, keys, ends, steps)?;
    push_stands(board, out, arrival, own, keys, ends, steps)?;
    push_adds(board, out, arrival, own, keys, ends, steps)
}

/// The links of these, by their ends: a key comes in that none of `keys` is, and that no number has which stays. Of each link one end is
/// looked up, since the place of the other is given. `Err` is want of memory.
pub fn ends_of<L: Ledger>(
    alloc: Global,
    board: &Index<Item>,
    out: &IndexSet<usize>,
    arrivals: &[Arrival],
    places: &[usize],
    keys: &mut IndexSet<Item>,
    steps: &mut Steps<L>,
) -> Result<Vec<(End, End)>, AllocError>
    requires { AllZip (λ a place. spec.IsPlaceOf same.ghosts.eq keys.old.keys a.key place) arrivals.now places.now }
    ensures ends { IfOk result (λ ends. spec.AreEnds same.ghosts.eq board.now out.now.keys keys.old.keys keys.new.keys (flat_map links_by arrivals.now) ends.items) }
    ensures few { steps.new ≤ steps.old + sum_by (λ a. length (links_by a)) arrivals.now }
{
    let mut ends = Vec::new(alloc);
    for (at, arrival) in arrivals.iter().enumerate() {
        let own = End::Comes(places[at]);
        push_links(board, out, arrival, own, keys, &mut ends, steps)?;
    }
    Ok(ends)
}
