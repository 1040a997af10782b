//! The items of a catalogue that are chosen.

ghost use Rattle.std.specs.Prelude.{◌↔◌, IfOk, IsTrue};
ghost use Rattle.edit_rules.specs.Chosen.{AreChosen};

use cat_items::{Catalogue, Item};
use sql_tree::Items;
use std::alloc::{AllocError, Global};

/// A test of an item by itself.
pub trait Chooses {
    ghost use Rattle.cat_items.specs.declared.item.Item.{Item};

    ghost fits: { Self → Item → Type 0 };

    fn chooses(&self, x: &Item) -> bool
        ensures { IsTrue result ↔ fits self.now x.now };
}

/// Copies of the items of a catalogue that pass a test, in order. `Err` is want of memory.
///
/// It looks at each item once.
pub fn chosen<T: Chooses>(alloc: Global, c: &Catalogue, test: &T) -> Result<Items<Item>, AllocError>
    ensures { IfOk result (λ items. AreChosen c.now.items (T.fits test.now) items) }
{
    let mut found = Vec::new(alloc);
    for x in c.items() {
        if test.chooses(x) {
            found.push(x.copy()?)?;
        }
    }
    Ok(Items::from_vec(found))
}
