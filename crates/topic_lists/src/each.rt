//! Needs by way of the items of a part of a catalogue.

ghost use Rattle.std.specs.Prelude.{OnOk};
ghost use Rattle.cat_items.specs.Ranges.{IsIn};
ghost use Rattle.cat_items.specs.Reach.{Has};
ghost use Rattle.topic_keys.specs.Lists.{Gets};

use cat_items::{Catalogue, Item, Need, Part, places};
use std::alloc::AllocError;

/// What has needs by way of items.
pub trait Carries {
    ghost use Rattle.std.specs.Prelude.{OnOk};
    ghost use Rattle.cat_items.specs.declared.item.Item.{Item};
    ghost use Rattle.cat_items.specs.declared.need.Need.{Need};
    ghost use Rattle.topic_keys.specs.Lists.{Gets};

    ghost carries: { Self → Item → Need → Type 0 };

    fn push_from(&self, y: &Item, needs: &mut Vec<Need>) -> Result<(), AllocError>
        ensures { OnOk result (Gets (carries self.now y.now) needs.old.items needs.new.items) };
}

/// Puts in the needs by way of each item of a part. `Err` is want of memory.
pub fn push_each<T: Carries>(
    c: &Catalogue,
    part: Part<'_>,
    by: &T,
    needs: &mut Vec<Need>,
) -> Result<(), AllocError>
    ensures { OnOk result (Gets (λ need. Has c.now.items (λ y. IsIn part.entry y × T.carries by.now y need)) needs.old.items needs.new.items) }
{
    let items = c.items();
    let all = places(c, part);
    for at in all.start..all.end {
        by.push_from(&items[at], needs)?;
    }
    Ok(())
}
