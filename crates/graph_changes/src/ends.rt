//! A change whose links are given before the numbers of what comes in are known.

ghost use Rattle.std.specs.Prelude.{◌≡◌, ◌+◌, ◌≤◌, ◌++◌, length, map, vec_capacity, vec_len};
ghost use Rattle.std.specs.List.{All};
ghost use Rattle.item_index.specs.Graphs.{IsNode};
ghost use Rattle.item_index.specs.Undo.{changed, inserted_all, linked_all, numbers_given, removed_all};
ghost use Rattle.graph_steps.specs.Steps.{AreNewKeys};
ghost use Rattle.graph_changes.specs.Changes.{CanChange};
ghost use Rattle.graph_changes.specs.Ends as spec;

use crate::many::remove_all;
use item_index::Index;
use std::hash::{BuildHasher, Hash};

/// An end of a link that is to be made.
#[derive(Clone, Copy)]
pub enum End {
    /// A number that stays.
    Stays(usize),
    /// The place of a key among those that come in: its number is known once it is put in.
    Comes(usize),
}

fn number_of(end: End, given: &[usize]) -> usize
    requires { spec.IsPlaced (length given.now) end }
    ensures { result ≡ spec.number_of given.now end }
{
    match end {
        End::Stays(number) => number,
        End::Comes(place) => given[place],
    }
}

/// Puts in these keys, and notes the number of each.
fn insert_noting<K: Eq + Hash + Drop, S: BuildHasher + Drop>(
    index: &mut Index<K, S>,
    keys: Vec<K>,
    numbers: &mut Vec<usize>,
)
    requires new { AreNewKeys K.eq index.old keys.items }
    requires room { length keys.items ≤ index.old.spare_keys }
    requires noted { vec_len numbers.old + length keys.items ≤ vec_capacity numbers.old }
    ensures index { index.new ≡ inserted_all index.old keys.items }
    ensures numbers { numbers.new.items ≡ numbers.old.items ++ numbers_given index.old keys.items }
{
    for key in keys {
        let number = index.insert(key);
        numbers.push_reserved(number);
    }
}

fn link_ends<K: Eq + Hash + Drop, S: BuildHasher + Drop>(
    index: &mut Index<K, S>,
    given: &[usize],
    links: &[(End, End)],
)
    requires placed { All (spec.ArePlaced (length given.now)) links.now }
    requires ends { All (λ l. IsNode index.old l.0 × IsNode index.old l.1) (map (spec.link_of given.now) links.now) }
    requires room { length links.now ≤ index.old.spare_links }
    ensures { index.new ≡ linked_all index.old (map (spec.link_of given.now) links.now) }
{
    for (node, rests_on) in links {
        let node = number_of(*node, given);
        let rests_on = number_of(*rests_on, given);
        index.link(node, rests_on);
    }
}

/// Takes out these numbers, then puts in these keys, then makes these links, of which an end may be a key that comes
/// in. `numbers` is emptied, and gets the numbers of these keys in turn. No memory: `numbers` has room for them.
pub fn change_by_ends<K: Eq + Hash + Drop, S: BuildHasher + Drop>(
    index: &mut Index<K, S>,
    out: &[usize],
    keys: Vec<K>,
    numbers: &mut Vec<usize>,
    links: &[(End, End)],
)
    requires change { CanChange K.eq index.old out.now keys.items (spec.links_of index.old out.now keys.items links.now) }
    requires placed { All (spec.ArePlaced (length keys.items)) links.now }
    requires room { length keys.items ≤ vec_capacity numbers.old }
    ensures index { index.new ≡ changed index.old out.now keys.items (spec.links_of index.old out.now keys.items links.now) }
    ensures numbers { numbers.new.items ≡ numbers_given (removed_all index.old out.now) keys.items }
{
    remove_all(index, out);
    numbers.clear();
    insert_noting(index, keys, numbers);
    link_ends(index, numbers.as_slice(), links);
}
