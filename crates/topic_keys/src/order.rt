//! Lists that are put in order once, when all is there.

ghost use Rattle.std.specs.List.{Contains};
ghost use Rattle.edit_rules.specs.Chosen.{AreAll};
ghost use Rattle.topic_keys.specs.Lists.{AreKnownByKey};

use cat_items::{Item, compare_items};

/// These items in order, each once. It takes no memory.
pub fn in_order(items: Vec<Item>) -> Vec<Item>
    requires { AreKnownByKey items.items }
    ensures { AreAll (Contains items.items) result.items }
{
    let mut all = items;
    all.sort_unstable_by(|a, b| compare_items(a, b));
    all.dedup_by(|a, b| compare_items(a, b).is_eq());
    all
}
