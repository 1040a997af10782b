//! The rescue of suspects.

ghost use Rattle.std.specs.Prelude.{◌≡◌, IfOk, length};
ghost use Rattle.finite_chains.specs.Chains.{IsWithin};
ghost use Rattle.cat_items.specs.Catalogues.{IsInOrder};
ghost use Rattle.role_graph.specs.Marked.{marked};
ghost use Rattle.role_graph.specs.Roles.{IsRoomFor};
ghost use Rattle.part_rescue.specs.Rescued.{AreUnsuspected, AreRescued};

use cat_items::{Catalogue, Item, Marks};
use item_lists::stands_from;
use part_rounds::mark_supported;
use role_graph::Walk;
use std::alloc::{AllocError, Global};

/// Marks the items of the part that are no suspects, in one walk along both lists.
fn clear(alloc: Global, part: &Catalogue, suspects: &Catalogue) -> Result<Marks, AllocError>
    ensures { IfOk result (λ marks. AreUnsuspected suspects.now.items part.now.items marks) }
{
    let items = part.items();
    let listed = suspects.items();
    let mut marks = Marks::new(alloc, part)?;
    let mut from = 0;
    for at in 0..items.len() {
        if !stands_from(listed, &mut from, &items[at]) {
            marks.mark(at);
        }
    }
    Ok(marks)
}

/// Marks what stands of a part that has these suspects: first what is no suspect, and then what the marked items support, until they support nothing
/// more. `Err` is want of memory: the marks take it, and lists of the part's options and of what is to be followed.
pub fn rescued(
    alloc: Global,
    part: &Catalogue,
    suspects: &Catalogue,
    walk: &mut Walk,
) -> Result<Marks, AllocError>
    requires suspects { IsWithin suspects.now.items part.now.items }
    requires room { IsRoomFor walk.old part.now.items }
    ensures rescued { IfOk result (λ marks. AreRescued suspects.now.items part.now.items marks) }
    ensures room { walk.new ≡ walk.old }
{
    let mut marks = clear(alloc, part, suspects)?;
    mark_supported(alloc, part, &mut marks, walk)?;
    Ok(marks)
}

/// Copies the items at marked places.
fn marked_items(alloc: Global, part: &Catalogue, marks: &Marks) -> Result<Vec<Item>, AllocError>
    requires { length marks.now ≡ length part.now.items }
    ensures items { IfOk result (λ kept. kept.items ≡ marked part.now.items marks.now) }
    ensures order { IfOk result (λ kept. IsInOrder kept.items) }
{
    let items = part.items();
    let mut kept = Vec::new(alloc);
    for at in 0..items.len() {
        if marks.marked(at) {
            kept.push(items[at].copy()?)?;
        }
    }
    Ok(kept)
}

/// The marked items of a part as a catalogue. `Err` is want of memory.
pub fn found_of(alloc: Global, part: &Catalogue, marks: &Marks) -> Result<Catalogue, AllocError>
    requires { length marks.now ≡ length part.now.items }
    ensures items { IfOk result (λ found. found.items ≡ marked part.now.items marks.now) }
    ensures order { IfOk result (λ found. IsInOrder found.items) }
{
    Ok(Catalogue::of_sorted(marked_items(alloc, part, marks)?))
}
