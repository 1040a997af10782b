//! An index of keys by number, with links both ways.

ghost use Rattle.std.specs.Prelude.{◌≡◌, ◌+◌, ◌<◌, ◌≤◌, ◌^◌, ℕ, [], ◌∷◌, ◌++◌, List, length, max, slice_get, None, true, IfOk, IfSome, OnOk, OnErr, vec_len, vec_capacity};
ghost use Rattle.item_index.specs.Graphs.{AreLinks, HasKey, IsNode, IsWhole, inserted, linked, links_without, next_number, no_graph, node_of, removed, with_spare};
ghost use Rattle.item_index.specs.Shelves.{list_at};

use crate::filing::{file_all, file_of, find, refile};
use crate::lists::Lists;
use crate::steps::Steps;
use crate::unlinking::unlink;
use std::alloc::{AllocError, Global};
use std::hash::{BuildHasher, BuildHasherDefault, FoldHasher, Hash};
use std::marker::Model;
use std::sync::ledger::Ledger;

/// How many numbers there may be: each is kept in 32 bits.
const MOST_NUMBERS: usize = 1 << 32;

/// Keys that are known by numbers, and links between the numbers: `node` rests on `rests_on`, and `rests_on` has
/// `node` among its dependents.
///
/// Contracts see the graph: the key of each number, the free numbers, the two lists of each number in order of
/// linking, and for how many more keys and links there is room. `AreLinks` says of one list that it has all
/// links in the order in which they were made. Only `new` and `reserve` take memory.
///
/// `node` hashes its key once, and a link is found at each place of a list in the same time. A removed link is
/// looked for at its other end from the end of the list, since what was linked last mostly goes first. There is
/// room for 24 bytes a link, and for at most 64 a key beside the key; `reserve` makes room for a quarter more
/// than it is asked for. There may be 2^32 numbers, and 2,290,000,000 links: for more, memory counts as wanting.
#[derive(Drop)]
pub struct Index<K: Eq + Hash, S: BuildHasher = BuildHasherDefault<FoldHasher>> {
    keys: Vec<Option<K>>,
    free: Vec<u32>,
    rests: Lists,
    dependents: Lists,
    files: Lists,
    hasher: S,
    spare_keys: usize,
    spare_links: usize,
}

impl<K: Eq + Hash, S: BuildHasher> Model for Index<K, S> {
    ghost use Rattle.std.specs.Prelude.{◌<◌, ◌≤◌, length, reverse, vec_len, vec_capacity};
    ghost use Rattle.item_index.specs.Graphs.{Graph};

    ghost Value = { Graph K };

    ghost use Rattle.item_index.specs.Graphs.{AreWhole, HasRoom};
    ghost use Rattle.item_index.specs.Filing.{AreFiled, hash_by};

    ghost view = { λ x. record { keys = x.keys.items; free = reverse x.free.items; rests = x.rests.lists; dependents = x.dependents.lists; spare_keys = x.spare_keys; spare_links = x.spare_links } };

    ghost invariant = { λ x. AreWhole K.eq x.keys.items (reverse x.free.items) x.rests.lists x.dependents.lists
        × AreFiled (λ k. hash_by S.BuildHasher S.Hasher.Hasher x.hasher (K.hash_input k)) x.keys.items x.files.lists
        × (0 < length x.files.lists)
        × (x.spare_keys ≤ x.files.spare) × (x.spare_links ≤ x.rests.spare) × (x.spare_links ≤ x.dependents.spare)
        × HasRoom (vec_len x.keys) (vec_len x.free) x.spare_keys (vec_capacity x.keys) (vec_capacity x.free) x.rests.spare_lists x.dependents.spare_lists };
}

/// Makes room for so many more numbers in each store but the files. `Err` is want of memory.
fn make_room<K>(
    keys: &mut Vec<Option<K>>,
    free: &mut Vec<u32>,
    rests: &mut Lists,
    dependents: &mut Lists,
    more: usize,
) -> Result<(), AllocError>
    requires { vec_len keys.old + more ≤ 2 ^ 32 }
    ensures keys { keys.new.items ≡ keys.old.items }
    ensures keys_grown { vec_capacity keys.old ≤ vec_capacity keys.new }
    ensures keys_room { OnOk result (vec_len keys.old + more ≤ vec_capacity keys.new) }
    ensures free { free.new.items ≡ free.old.items }
    ensures free_grown { vec_capacity free.old ≤ vec_capacity free.new }
    ensures free_room { OnOk result (vec_len keys.old + more ≤ vec_capacity free.new) }
    ensures rests { (rests.new.lists ≡ rests.old.lists) × (rests.new.spare ≡ rests.old.spare) }
    ensures rests_grown { rests.old.spare_lists ≤ rests.new.spare_lists }
    ensures rests_room { OnOk result (more ≤ rests.new.spare_lists) }
    ensures dependents { (dependents.new.lists ≡ dependents.old.lists) × (dependents.new.spare ≡ dependents.old.spare) }
    ensures dependents_grown { dependents.old.spare_lists ≤ dependents.new.spare_lists }
    ensures dependents_room { OnOk result (more ≤ dependents.new.spare_lists) }
{
    let room = (keys.len() + more).saturating_sub(free.len());
    keys.reserve(more)?;
    free.reserve(room)?;
    rests.reserve_lists(more)?;
    dependents.reserve_lists(more)
}

impl<K: Eq + Hash + Drop> Index<K> {
    /// An index with no keys, and no room for any. `Err` is want of memory.
    pub fn new(alloc: Global) -> Result<Index<K>, AllocError>
        ensures { IfOk result (λ g. g ≡ no_graph) }
    {
        let hasher = BuildHasherDefault::new();
        let keys = Vec::new(alloc);
        let files = file_all(alloc, &hasher, keys.as_slice(), 1, 0)?;
        Ok(Index {
            keys,
            free: Vec::new(alloc),
            rests: Lists::new(alloc),
            dependents: Lists::new(alloc),
            files,
            hasher,
            spare_keys: 0,
            spare_links: 0,
        })
    }
}

impl<K: Eq + Hash + Drop, S: BuildHasher + Drop> Index<K, S> {
    /// Makes room for at least so many more keys and links. `Err` is want of memory, and leaves all as before.
    pub fn reserve(&mut self, keys: usize, links: usize) -> Result<(), AllocError>
        ensures ok { OnOk result (self.new ≡ with_spare self.old (max self.old.spare_keys keys) (max self.old.spare_links links)) }
        ensures err { OnErr result (self.new ≡ self.old) }
    {
        let spare_links = self.spare_links;
        self.reserve_links(links)?;
        if let Err(refused) = self.reserve_keys(keys) {
            self.spare_links = spare_links;
            return Err(refused);
        }
        Ok(())
    }

    fn reserve_links(&mut self, links: usize) -> Result<(), AllocError>
        ensures ok { OnOk result (self.new ≡ with_spare self.old self.old.spare_keys (max self.old.spare_links links)) }
        ensures err { OnErr result (self.new ≡ self.old) }
    {
        if links > self.spare_links {
            self.rests.reserve(links)?;
            self.dependents.reserve(links)?;
            self.spare_links = links;
        }
        Ok(())
    }

    fn reserve_keys(&mut self, keys: usize) -> Result<(), AllocError>
        ensures ok { OnOk result (self.new ≡ with_spare self.old (max self.old.spare_keys keys) self.old.spare_links) }
        ensures err { OnErr result (self.new ≡ self.old) }
    {
        if keys <= self.spare_keys {
            return Ok(());
        }
        let numbers = self.keys.len();
        if keys > MOST_NUMBERS - numbers {
            return Err(AllocError);
        }
        refile(
            *self.keys.allocator(),
            &self.hasher,
            self.keys.as_slice(),
            &mut self.files,
            keys,
        )?;
        make_room(
            &mut self.keys,
            &mut self.free,
            &mut self.rests,
            &mut self.dependents,
            keys,
        )?;
        self.spare_keys = keys;
        Ok(())
    }

    /// The number whose key equals this. One look-up. No memory.
    pub fn node<L: Ledger>(&self, key: &K, steps: &mut Steps<L>) -> Option<usize>
        ensures node { result ≡ node_of K.eq self.now key.now }
        ensures found { IfSome result (λ n. (k : K) × HasKey self.now n k × (K.eq key.now k ≡ true)) }
        ensures ticks { steps.new ≡ steps.old + 1 }
        ensures whole { IsWhole K.eq self.now }
    {
        steps.tick();
        let file = file_of(&self.hasher, key, self.files.len());
        find(self.keys.as_slice(), self.files.list(file), key)
    }

    /// The key of a number. One look-up. No memory.
    pub fn key<L: Ledger>(&self, node: usize, steps: &mut Steps<L>) -> &K
        requires { IsNode self.now node }
        ensures key { HasKey self.now node result.now }
        ensures ticks { steps.new ≡ steps.old + 1 }
    {
        steps.tick();
        match &self.keys[node] {
            Some(key) => key,
            None => unreachable!(),
        }
    }

    /// The number that was linked to this at a place, of those that rest on it. One look-up. No memory.
    pub fn dependents<L: Ledger>(
        &self,
        node: usize,
        at: usize,
        steps: &mut Steps<L>,
    ) -> Option<usize>
        requires { IsNode self.now node }
        ensures dependents { result ≡ slice_get (list_at self.now.dependents node) at }
        ensures small { IfSome result (λ n. at < 2 ^ 63) }
        ensures ticks { steps.new ≡ steps.old + 1 }
        ensures whole { IsWhole K.eq self.now }
    {
        steps.tick();
        self.dependents.get(node, at)
    }

    /// The number that this was linked to at a place, of those that it rests on. One look-up. No memory.
    pub fn rests<L: Ledger>(&self, node: usize, at: usize, steps: &mut Steps<L>) -> Option<usize>
        requires { IsNode self.now node }
        ensures rests { result ≡ slice_get (list_at self.now.rests node) at }
        ensures small { IfSome result (λ n. at < 2 ^ 63) }
        ensures ticks { steps.new ≡ steps.old + 1 }
        ensures whole { IsWhole K.eq self.now }
    {
        steps.tick();
        self.rests.get(node, at)
    }

    /// What the type keeps of each index, for who calls for it in a proof. No look-up. No memory.
    pub fn keeps_whole(&self)
        ensures { IsWhole K.eq self.now }
    {
        let _ = &self.free;
    }

    /// Puts in a key that isn't there, and returns its number: that which was freed last, or else the next new
    /// one. No memory.
    pub fn insert(&mut self, key: K) -> usize
        requires new { node_of K.eq self.old key ≡ None }
        requires room { 0 < self.old.spare_keys }
        ensures number { result ≡ next_number self.old }
        ensures graph { self.new ≡ inserted self.old key }
        ensures key { HasKey self.new result key }
        ensures kept { (n : ℕ) (k : K) → HasKey self.old n k → HasKey self.new n k }
        ensures unlinked { (list_at self.new.rests result ≡ []) × (list_at self.new.dependents result ≡ []) }
    {
        if self.free.is_empty() {
            self.insert_new(key)
        } else {
            self.insert_again(key)
        }
    }

    /// Puts in a key at the next new number.
    fn insert_new(&mut self, key: K) -> usize
        requires new { node_of K.eq self.old key ≡ None }
        requires room { 0 < self.old.spare_keys }
        requires none { self.old.free ≡ [] }
        ensures number { result ≡ next_number self.old }
        ensures graph { self.new ≡ inserted self.old key }
        ensures key { HasKey self.new result key }
        ensures kept { (n : ℕ) (k : K) → HasKey self.old n k → HasKey self.new n k }
        ensures unlinked { (list_at self.new.rests result ≡ []) × (list_at self.new.dependents result ≡ []) }
    {
        let number = self.keys.len();
        let file = file_of(&self.hasher, &key, self.files.len());
        self.keys.push_reserved(Some(key));
        self.rests.push_list();
        self.dependents.push_list();
        self.files.push(file, number as u32);
        self.spare_keys -= 1;
        number
    }

    /// Puts in a key at the number that was freed last.
    fn insert_again(&mut self, key: K) -> usize
        requires new { node_of K.eq self.old key ≡ None }
        requires room { 0 < self.old.spare_keys }
        requires some { 0 < length self.old.free }
        ensures number { result ≡ next_number self.old }
        ensures graph { self.new ≡ inserted self.old key }
        ensures key { HasKey self.new result key }
        ensures kept { (n : ℕ) (k : K) → HasKey self.old n k → HasKey self.new n k }
        ensures unlinked { (list_at self.new.rests result ≡ []) × (list_at self.new.dependents result ≡ []) }
    {
        let last = self.free.len() - 1;
        let number = self.free[last];
        self.free.truncate(last);
        let file = file_of(&self.hasher, &key, self.files.len());
        self.keys[number as usize] = Some(key);
        self.files.push(file, number);
        self.spare_keys -= 1;
        number as usize
    }

    /// Links a number to one that it rests on, after the links that there are. No memory.
    pub fn link(&mut self, node: usize, rests_on: usize)
        requires node { IsNode self.old node }
        requires rests_on { IsNode self.old rests_on }
        requires room { 0 < self.old.spare_links }
        ensures graph { self.new ≡ linked self.old node rests_on }
        ensures order { (links : List (ℕ × ℕ)) → AreLinks self.old links → AreLinks self.new (links ++ (node, rests_on) ∷ []) }
    {
        self.rests.push(node, rests_on as u32);
        self.dependents.push(rests_on, node as u32);
        self.spare_links -= 1;
    }

    /// Takes out a number with its links. The other links keep their order. No memory.
    pub fn remove(&mut self, node: usize)
        requires { IsNode self.old node }
        ensures graph { self.new ≡ removed self.old node }
        ensures order { (links : List (ℕ × ℕ)) → AreLinks self.old links → AreLinks self.new (links_without node links) }
    {
        let file = match &self.keys[node] {
            Some(key) => file_of(&self.hasher, key, self.files.len()),
            None => unreachable!(),
        };
        let number = node as u32;
        let resting = unlink(&mut self.rests, &mut self.dependents, number);
        let depending = unlink(&mut self.dependents, &mut self.rests, number);
        self.files.take_out(file, number);
        self.keys[node] = None;
        self.free.push_reserved(number);
        self.spare_keys += 1;
        self.spare_links += resting + depending;
    }
}
