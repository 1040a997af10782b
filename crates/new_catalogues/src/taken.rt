//! What an edit takes or changes beyond its target.

ghost use Rattle.std.specs.Prelude.{◌↔◌, Contains, IfSome, IfNone, IsTrue};
ghost use Rattle.cat_items.specs.declared.item.Item.{Item};
ghost use Rattle.cat_items.specs.Catalogues.{IsInOrder};
ghost use Rattle.cat_items.specs.Edits.{IsFurther};
ghost use Rattle.new_catalogues.specs.Further.{IsLeastFurther};

use cat_items::{Catalogue, Edit, Item, compare_items, same_item};

/// Whether a list in order has an item with all these fields, and not with its key alone. It takes no memory.
pub fn has(items: &[Item], x: &Item) -> bool
    requires { IsInOrder items.now }
    ensures { IsTrue result ↔ Contains items.now x.now }
{
    match items.binary_search_by(|y| compare_items(y, x)) {
        Ok(at) => same_item(&items[at], x),
        Err(_) => false,
    }
}

/// The least item beyond the target that the edit takes, or puts back with other fields; `new` is what it makes
/// of the catalogue. It takes no memory.
///
/// The behaviour RESTRICT is refused where there is one.
pub fn further<'a>(c: &'a Catalogue, edit: &Edit, new: &Catalogue) -> Option<&'a Item>
    requires order { IsInOrder edit.now.target }
    ensures least { IfSome result (λ x. IsLeastFurther c.now.items edit.now new.now.items x.now) }
    ensures none { IfNone result ((x : Item) → IsFurther c.now.items edit.now new.now.items x → ⊥) }
{
    for x in c.items() {
        if !has(edit.target.as_slice(), x) && !has(new.items(), x) {
            return Some(x);
        }
    }
    None
}
