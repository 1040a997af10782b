//! Catalogues.

ghost use Rattle.std.specs.Prelude.{◌≡◌, ◌≢◌, ◌<◌, ◌≤◌, ◌+◌, ◌-◌, ◌↔◌, ◌⊎◌, ℕ, List, Contains, AllPairs, IfSome, IfNone, IfOk, OnOk, OnErr, IsTrue, IsFalse, vec_len, length, remove, slice_get};
ghost use Rattle.std.specs.Vec.{vec_capacity};
ghost use Rattle.finite_chains.specs.Chains.{IsWithin};
ghost use Rattle.cat_items.specs.Batch.{HaveNoKeyInCommon, IsJoined, IsWithout};
ghost use Rattle.cat_items.specs.Catalogues.{IsInOrder, HasKeyAt, IsCut, IsUserOf, OwnsSchema, schema_key};
ghost use Rattle.cat_items.specs.Order.{item_cmp};

use crate::batch::{merge, part_off};
use crate::item::Item;
use crate::room::{append_in_room, insert_in_room};
use sql_tree::Name;
use std::alloc::{AllocError, Global};
use std::cmp::Ordering;
use std::marker::Model;

/// Compares two items by kind, and then by their key fields: names by bytes, a proper prefix first.
pub fn compare_items(a: &Item, b: &Item) -> Ordering
    ensures { result ≡ item_cmp a.now b.now }
{
    a.cmp(b)
}

/// A catalogue: items in order, no two of one kind with one key. Contracts see the items, and for how many
/// more there is room.
#[derive(Drop)]
pub struct Catalogue {
    items: Vec<Item>,
}

impl Model for Catalogue {
    ghost use Rattle.std.specs.Prelude.{◌-◌, vec_len};
    ghost use Rattle.std.specs.Vec.{vec_capacity};
    ghost use Rattle.cat_items.specs.Catalogues.{IsInOrder, Listing};

    ghost Value = { Listing };

    ghost use Rattle.sql_tree.specs.contracts.expr.Expr as expr;
    ghost use Rattle.sql_tree.specs.contracts.expr.Query as query;
    ghost use Rattle.std.specs.Coded.{codes};

    ghost coded = { Prim.hlevel (codes, expr.the_row.coded, query.the_row.coded) };

    ghost view = { λ c. record { items = c.items.items; spare = vec_capacity c.items - vec_len c.items } };

    ghost invariant = { λ c. IsInOrder c.items.items };
}

impl Catalogue {
    /// The catalogue of the users of these names. `Err` is want of memory.
    pub fn opening(alloc: Global, users: &Vec<Name>) -> Result<Catalogue, AllocError>
        requires { AllPairs (λ a b. a ≢ b) users.now.items }
        ensures order { IfOk result (λ c. IsInOrder c.items) }
        ensures members { IfOk result (λ c. (x : Item) → Contains c.items x ↔ IsUserOf users.now.items x) }
    {
        let mut c = Catalogue::of_sorted(Vec::with_capacity(alloc, users.len())?);
        for name in users {
            c.put_in(Item::User(name.copy()?));
        }
        Ok(c)
    }

    /// The catalogue of these items. It takes no memory.
    pub fn of_sorted(items: Vec<Item>) -> Catalogue
        requires { IsInOrder items.items }
        ensures items { result.items ≡ items.items }
        ensures spare { result.spare ≡ vec_capacity items - vec_len items }
    {
        Catalogue { items }
    }

    /// The list of its items. It takes no memory.
    pub fn into_items(self) -> Vec<Item>
        ensures items { result.items ≡ self.items }
        ensures order { IsInOrder result.items }
        ensures spare { vec_capacity result ≡ vec_len result + self.spare }
    {
        let _ = &self.items;
        let Catalogue { items } = self;
        items
    }

    /// Its items.
    pub fn items(&self) -> &[Item]
        ensures items { result.now ≡ self.now.items }
        ensures order { IsInOrder self.now.items }
    {
        self.items.as_slice()
    }

    /// Makes room for so many items more, or leaves all as it was. `Err` is want of memory.
    pub fn reserve(&mut self, more: usize) -> Result<(), AllocError>
        ensures items { self.new.items ≡ self.old.items }
        ensures ok { OnOk result (more ≤ self.new.spare) }
        ensures grown { self.old.spare ≤ self.new.spare }
        ensures err { OnErr result (self.new ≡ self.old) }
    {
        self.items.reserve(more)
    }

    /// Takes out the item at this place. It takes no memory.
    pub fn take_out(&mut self, at: usize) -> Item
        requires { at < length self.old.items }
        ensures item { slice_get self.old.items at ≡ Some result }
        ensures rest { self.new.items ≡ remove self.old.items at }
        ensures spare { self.new.spare ≡ self.old.spare + 1 }
    {
        self.items.remove(at)
    }

    /// Puts in an item whose key no item has. It takes no memory.
    pub fn put_in(&mut self, item: Item)
        requires new { (k : ℕ) → HasKeyAt self.old.items k item → ⊥ }
        requires room { 0 < self.old.spare }
        ensures order { IsInOrder self.new.items }
        ensures members { (x : Item) → Contains self.new.items x ↔ (Contains self.old.items x ⊎ (x ≡ item)) }
        ensures len { length self.new.items ≡ length self.old.items + 1 }
        ensures spare { self.new.spare + 1 ≡ self.old.spare }
    {
        let at = cut(self.items.as_slice(), &item);
        insert_in_room(&mut self.items, at, item);
    }

    /// Puts in an item where none has its key. Whether it was put in; `Err` is want of memory, and leaves the list.
    pub fn put_new(&mut self, item: Item) -> Result<bool, AllocError>
        ensures order { IsInOrder self.new.items }
        ensures new { IfOk result (λ put. IsTrue put → (k : ℕ) → HasKeyAt self.old.items k item → ⊥) }
        ensures members { IfOk result (λ put. IsTrue put → (x : Item) → Contains self.new.items x ↔ (Contains self.old.items x ⊎ (x ≡ item))) }
        ensures len { IfOk result (λ put. IsTrue put → length self.new.items ≡ length self.old.items + 1) }
        ensures found { IfOk result (λ put. IsFalse put → (k : ℕ) × HasKeyAt self.old.items k item) }
        ensures same { IfOk result (λ put. IsFalse put → self.new ≡ self.old) }
        ensures err { OnErr result (self.new ≡ self.old) }
    {
        match gap(self.items.as_slice(), &item) {
            Some(at) => {
                self.items.reserve(1)?;
                insert_in_room(&mut self.items, at, item);
                Ok(true)
            }
            None => Ok(false),
        }
    }

    /// Takes out all these items, in one pass. It takes no memory.
    pub fn take_out_all(&mut self, items: &[Item])
        requires out_order { IsInOrder items.now }
        requires out_within { IsWithin items.now self.old.items }
        ensures order { IsInOrder self.new.items }
        ensures members { IsWithout self.old.items items.now self.new.items }
        ensures len { length self.new.items + length items.now ≡ length self.old.items }
        ensures spare { self.new.spare ≡ self.old.spare + length items.now }
    {
        let kept = part_off(self.items.as_mut_slice(), items);
        self.items.truncate(kept);
    }

    /// Puts in all these items, whose keys no item has, in one pass. It takes no memory.
    pub fn put_in_all(&mut self, items: Vec<Item>)
        requires more_order { IsInOrder items.items }
        requires new { HaveNoKeyInCommon self.old.items items.items }
        requires room { vec_len items ≤ self.old.spare }
        ensures order { IsInOrder self.new.items }
        ensures members { IsJoined self.old.items items.items self.new.items }
        ensures len { length self.new.items ≡ length self.old.items + vec_len items }
        ensures spare { self.old.spare ≤ self.new.spare + vec_len items }
    {
        let old = self.items.len();
        append_in_room(&mut self.items, items);
        merge(self.items.as_mut_slice(), old);
    }
}

/// How many items come before this one.
pub fn cut(items: &[Item], item: &Item) -> usize
    requires { IsInOrder items.now }
    ensures { IsCut items.now result item.now }
{
    match items.binary_search_by(|x| compare_items(x, item)) {
        Ok(at) => at,
        Err(at) => at,
    }
}

/// The cut of an item that often comes behind the last, or `None` where an item has its key.
fn gap(items: &[Item], item: &Item) -> Option<usize>
    requires { IsInOrder items.now }
    ensures cut { IfSome result (λ at. IsCut items.now at item.now) }
    ensures new { IfSome result (λ at. (k : ℕ) → HasKeyAt items.now k item.now → ⊥) }
    ensures found { IfNone result ((k : ℕ) × HasKeyAt items.now k item.now) }
{
    match items.last() {
        Some(last) if compare_items(last, item).is_lt() => Some(items.len()),
        _ => match items.binary_search_by(|x| compare_items(x, item)) {
            Ok(_) => None,
            Err(at) => Some(at),
        },
    }
}

/// The place of the item with the kind and the key of `item`. It takes no memory.
pub fn find(c: &Catalogue, item: &Item) -> Option<usize>
    ensures found { IfSome result (λ k. HasKeyAt c.now.items k item.now) }
    ensures none { IfNone result ((k : ℕ) → HasKeyAt c.now.items k item.now → ⊥) }
{
    match c.items().binary_search_by(|x| compare_items(x, item)) {
        Ok(at) => Some(at),
        Err(_) => None,
    }
}

/// The owner of the schema of this name. It takes no memory.
pub fn owner_of<'a>(c: &'a Catalogue, schema: &Name) -> Option<&'a Name>
    ensures found { IfSome result (λ owner. OwnsSchema c.now.items schema.now owner.now) }
    ensures none { IfNone result ((owner : List ℕ) → OwnsSchema c.now.items schema.now owner → ⊥) }
{
    let items = c.items();
    match items.binary_search_by(|x| compare_schema(x, schema)) {
        Ok(at) => match &items[at] {
            Item::Schema(found) => Some(&found.get().owner),
            _ => None,
        },
        Err(_) => None,
    }
}

/// Compares an item with the schema of this name.
fn compare_schema(x: &Item, schema: &Name) -> Ordering
    ensures { result ≡ item_cmp x.now (schema_key schema.now) }
{
    match x {
        Item::User(_) | Item::Role(_) => Ordering::Less,
        Item::Schema(found) => found.get().name.cmp(schema),
        _ => Ordering::Greater,
    }
}
