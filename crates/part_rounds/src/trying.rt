//! One item is tried.

ghost use Rattle.std.specs.Prelude.{◌≡◌, ◌<◌, length};
ghost use Rattle.cat_items.specs.Supported.{Supported};
ghost use Rattle.role_graph.specs.Marked.{marked};
ghost use Rattle.role_graph.specs.Roles.{IsRoomFor};
ghost use Rattle.grant_chain.specs.Rounds.{IsTried};
ghost use Rattle.part_rounds.specs.Grantees.{AreListed};
ghost use Rattle.part_rounds.specs.Options.{Knows};

use crate::hints::{Guide, hint_at};
use crate::options::{Answer, Found, kept, told};
use cat_items::{Catalogue, Marks};
use role_graph::Walk;

/// Marks the item at a place, where it isn't marked and the marked ones support it: whether it did, and what is known then.
pub fn try_mark<'a>(
    c: &'a Catalogue,
    marks: &mut Marks,
    walk: &mut Walk,
    guide: Guide<'_>,
    at: usize,
    found: Option<Found<'a>>,
) -> Answer<'a>
    requires within { at < length c.now.items }
    requires room { IsRoomFor walk.old c.now.items }
    requires marks { length marks.old ≡ length c.now.items }
    requires options { AreListed c.now.items guide.options.now }
    requires found { Knows c.now.items (marked c.now.items marks.old) found }
    ensures tried { IsTried (Supported c.now.items) c.now.items marks.old at result.holds marks.new }
    ensures found { Knows c.now.items (marked c.now.items marks.new) result.found }
    ensures room { walk.new ≡ walk.old }
{
    if marks.marked(at) {
        return Answer {
            holds: false,
            found,
        };
    }
    let hint = hint_at(guide, at);
    let told = told(c, marks, walk, guide.options, &c.items()[at], hint, found);
    if !told.holds {
        return told;
    }
    marks.mark(at);
    Answer {
        holds: true,
        found: kept(told.found),
    }
}
