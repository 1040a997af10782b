//! Questions to a part of a catalogue.

ghost use Rattle.std.specs.Prelude.{◌↔◌, IsTrue};
ghost use Rattle.cat_items.specs.Ranges.{IsIn};
ghost use Rattle.cat_items.specs.Reach.{Has};

use cat_items::{Catalogue, Part, places};
use role_graph::Matches;

/// Whether an item of a part passes a test. It takes no memory.
pub fn has_in<T: Matches>(c: &Catalogue, part: Part<'_>, test: &T) -> bool
    ensures { IsTrue result ↔ Has c.now.items (λ x. IsIn part.entry x × T.fits test.now x) }
{
    let items = c.items();
    let range = places(c, part);
    let first = range.start;
    let end = range.end;
    for at in first..end {
        if test.matches(&items[at]) {
            return true;
        }
    }
    false
}
