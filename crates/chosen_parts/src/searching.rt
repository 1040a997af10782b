//! Whether an item of parts passes a test.

ghost use Rattle.std.specs.Prelude.{◌≤◌, ◌↔◌, IsTrue, length};
ghost use Rattle.cat_items.specs.Reach.{Has};
ghost use Rattle.chosen_parts.specs.Parts.{LieIn, PassesBetween};

use cat_items::{Catalogue, Item, Part, places};
use edit_rules::Chooses;

/// Whether an item from one place to before another passes a test.
fn has_between<T: Chooses>(items: &[Item], from: usize, to: usize, test: &T) -> bool
    requires { to ≤ length items.now }
    ensures { IsTrue result ↔ PassesBetween (T.fits test.now) items.now from to }
{
    for at in from..to {
        if test.chooses(&items[at]) {
            return true;
        }
    }
    false
}

/// Whether an item of a catalogue passes a test, where all that do are of these parts. It takes no memory.
pub fn has_in<T: Chooses>(c: &Catalogue, parts: &[Part<'_>], test: &T) -> bool
    requires { LieIn c.now.items parts.now (T.fits test.now) }
    ensures { IsTrue result ↔ Has c.now.items (T.fits test.now) }
{
    let items = c.items();
    for part in parts {
        let range = places(c, *part);
        if has_between(items, range.start, range.end, test) {
            return true;
        }
    }
    false
}
