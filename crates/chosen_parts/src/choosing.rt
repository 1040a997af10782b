//! Copies of the items of parts that pass a test.

ghost use Rattle.std.specs.Prelude.{◌≤◌, IfOk, OnOk, length, take};
ghost use Rattle.cat_items.specs.Catalogues.{IsInOrder};
ghost use Rattle.edit_rules.specs.Chosen.{AreChosen};
ghost use Rattle.chosen_parts.specs.Parts.{LieIn};

use crate::stretches::places_of;
use cat_items::{Catalogue, Item, Part};
use edit_rules::Chooses;
use sql_tree::Items;
use std::alloc::{AllocError, Global};

/// Puts copies of the items that pass a test and stand from one place to before another behind those from before.
fn choose_between<T: Chooses>(
    items: &[Item],
    from: usize,
    to: usize,
    test: &T,
    found: &mut Vec<Item>,
) -> Result<(), AllocError>
    requires order { IsInOrder items.now }
    requires forward { from ≤ to }
    requires within { to ≤ length items.now }
    requires before { AreChosen (take from items.now) (T.fits test.now) found.old.items }
    ensures { OnOk result (AreChosen (take to items.now) (T.fits test.now) found.new.items) }
{
    for at in from..to {
        let x = &items[at];
        if test.chooses(x) {
            found.push(x.copy()?)?;
        }
    }
    Ok(())
}

/// Copies of the items of a catalogue that pass a test, in order, where all of them are of these parts. `Err` is want of memory.
///
/// It looks at each item of the parts once, and at no other but to find their places.
pub fn chosen_in<T: Chooses>(
    alloc: Global,
    c: &Catalogue,
    parts: &[Part<'_>],
    test: &T,
) -> Result<Items<Item>, AllocError>
    requires { LieIn c.now.items parts.now (T.fits test.now) }
    ensures { IfOk result (λ found. AreChosen c.now.items (T.fits test.now) found) }
{
    let items = c.items();
    let ranges = places_of(alloc, c, parts)?;
    let mut found = Vec::new(alloc);
    let mut at = 0;
    for range in &ranges {
        let from = range.start.max(at);
        let to = range.end.max(from);
        choose_between(items, from, to, test, &mut found)?;
        at = to;
    }
    Ok(Items::from_vec(found))
}
