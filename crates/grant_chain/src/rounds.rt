//! The survivors of a catalogue, by rounds.

ghost use Rattle.std.specs.Prelude.{◌≡◌, ◌<◌, ◌≤◌, false, not, length, count_by, IfOk, IsTrue};
ghost use Rattle.finite_chains.specs.Chains.{HasSurvivors};
ghost use Rattle.cat_items.specs.Catalogues.{IsInOrder};
ghost use Rattle.cat_items.specs.Supported.{Supported};
ghost use Rattle.cat_items.specs.Survivors.{AreSurvivors};
ghost use Rattle.role_graph.specs.Marked.{marked};
ghost use Rattle.role_graph.specs.Roles.{IsRoomFor};
ghost use Rattle.grant_chain.specs.Rounds.{HaveClosed, IsTried, Survive};

use crate::support::supported;
use cat_items::{Catalogue, Item, Marks};
use role_graph::Walk;
use std::alloc::{AllocError, Global};

/// Marks the item at a place, where it isn't marked and the marked ones support it.
fn try_mark(c: &Catalogue, marks: &mut Marks, walk: &mut Walk, at: usize) -> bool
    requires within { at < length c.now.items }
    requires room { IsRoomFor walk.old c.now.items }
    requires marks { length marks.old ≡ length c.now.items }
    ensures tried { IsTried (Supported c.now.items) c.now.items marks.old at result marks.new }
    ensures room { walk.new ≡ walk.old }
{
    if marks.marked(at) || !supported(c, marks, walk, &c.items()[at]) {
        return false;
    }
    marks.mark(at);
    true
}

/// Marks items that the marked ones support, and tells whether there was one.
fn round(c: &Catalogue, marks: &mut Marks, walk: &mut Walk) -> bool
    requires room { IsRoomFor walk.old c.now.items }
    requires marks { length marks.old ≡ length c.now.items }
    ensures marks { length marks.new ≡ length c.now.items }
    ensures sound { Survive (Supported c.now.items) c.now.items marks.old → Survive (Supported c.now.items) c.now.items marks.new }
    ensures kept { count_by not marks.new ≤ count_by not marks.old }
    ensures more { IsTrue result → count_by not marks.new < count_by not marks.old }
    ensures closed { result ≡ false → HaveClosed (Supported c.now.items) c.now.items marks.new }
    ensures room { walk.new ≡ walk.old }
{
    let items = c.items();
    let mut more = false;
    for at in 0..items.len() {
        if try_mark(c, marks, walk, at) {
            more = true;
        }
    }
    more
}

/// Marks the survivors.
fn close(c: &Catalogue, marks: &mut Marks, walk: &mut Walk)
    requires room { IsRoomFor walk.old c.now.items }
    requires marks { length marks.old ≡ length c.now.items }
    requires sound { Survive (Supported c.now.items) c.now.items marks.old }
    ensures marks { length marks.new ≡ length c.now.items }
    ensures survivors { HasSurvivors (Supported c.now.items) c.now.items (marked c.now.items marks.new) }
{
    let mut more = true;
    while more {
        more = round(c, marks, walk);
    }
}

/// Copies the items at marked places.
fn marked_items(alloc: Global, c: &Catalogue, marks: &Marks) -> Result<Vec<Item>, AllocError>
    requires { length marks.now ≡ length c.now.items }
    ensures items { IfOk result (λ kept. kept.items ≡ marked c.now.items marks.now) }
    ensures order { IfOk result (λ kept. IsInOrder kept.items) }
{
    let items = c.items();
    let mut kept = Vec::new(alloc);
    for at in 0..items.len() {
        if marks.marked(at) {
            kept.push(items[at].copy()?)?;
        }
    }
    Ok(kept)
}

/// What survives of a catalogue by finite chains of support. `Err` is want of memory.
///
/// It is slow: it asks of each item once a round, and there may be as many rounds as items.
pub fn survivors(alloc: Global, c: &Catalogue) -> Result<Catalogue, AllocError>
    ensures { IfOk result (λ found. AreSurvivors c.now.items found.items) }
{
    let mut marks = Marks::new(alloc, c)?;
    let mut walk = Walk::new(alloc, c)?;
    close(c, &mut marks, &mut walk);
    let kept = marked_items(alloc, c, &marks)?;
    Ok(Catalogue::of_sorted(kept))
}
