//! Numbers go out, then keys come in, then links are made.

ghost use Rattle.std.specs.Prelude.{◌≡◌, ◌≤◌, List, length};
ghost use Rattle.std.specs.List.{All};
ghost use Rattle.item_index.specs.Graphs.{IsNode};
ghost use Rattle.item_index.specs.Undo.{HaveKeys, changed, inserted_all, linked_all, removed_all};
ghost use Rattle.graph_steps.specs.Steps.{AreNewKeys};
ghost use Rattle.graph_changes.specs.Changes.{CanChange};

use item_index::Index;
use std::hash::{BuildHasher, Hash};

pub(crate) fn remove_all<K: Eq + Hash + Drop, S: BuildHasher + Drop>(
    index: &mut Index<K, S>,
    out: &[usize],
)
    requires { (old : List K) × HaveKeys index.old out.now old }
    ensures { index.new ≡ removed_all index.old out.now }
{
    for node in out {
        index.remove(*node);
    }
}

fn insert_all<K: Eq + Hash + Drop, S: BuildHasher + Drop>(index: &mut Index<K, S>, keys: Vec<K>)
    requires new { AreNewKeys K.eq index.old keys.items }
    requires room { length keys.items ≤ index.old.spare_keys }
    ensures { index.new ≡ inserted_all index.old keys.items }
{
    for key in keys {
        index.insert(key);
    }
}

fn link_all<K: Eq + Hash + Drop, S: BuildHasher + Drop>(
    index: &mut Index<K, S>,
    links: &[(usize, usize)],
)
    requires ends { All (λ l. IsNode index.old l.0 × IsNode index.old l.1) links.now }
    requires room { length links.now ≤ index.old.spare_links }
    ensures { index.new ≡ linked_all index.old links.now }
{
    for (node, rests_on) in links {
        index.link(*node, *rests_on);
    }
}

/// Takes out these numbers, then puts in these keys, then makes these links. No memory.
///
/// A change that is undone in reverse is a change too: the numbers that were given go out, last first, what had gone
/// out comes in, last first, and the links that went are made again.
pub fn change<K: Eq + Hash + Drop, S: BuildHasher + Drop>(
    index: &mut Index<K, S>,
    out: &[usize],
    keys: Vec<K>,
    links: &[(usize, usize)],
)
    requires { CanChange K.eq index.old out.now keys.items links.now }
    ensures { index.new ≡ changed index.old out.now keys.items links.now }
{
    remove_all(index, out);
    insert_all(index, keys);
    link_all(index, links);
}
