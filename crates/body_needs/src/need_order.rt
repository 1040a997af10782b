//! Needs in order, each once.

ghost use Rattle.std.specs.Prelude.{◌≡◌, ◌≢◌, ◌↔◌, IfOk, IsTrue};
ghost use Rattle.std.specs.List.{Contains};
ghost use Rattle.cat_items.specs.declared.need.Need.{Need};
ghost use Rattle.cat_items.specs.Needs.{AreNeeds};
ghost use Rattle.cat_items.specs.Order.{need_cmp};

use cat_items::Need;
use sql_tree::Items;
use std::alloc::{AllocError, Global};
use std::cmp::Ordering;

fn compare(a: &Need, b: &Need) -> Ordering
    ensures { result ≡ need_cmp a.now b.now }
{
    a.cmp(b)
}

fn is_same(a: &Need, b: &Need) -> bool
    ensures { IsTrue result ↔ (a.now ≡ b.now) }
{
    compare(a, b).is_eq()
}

/// These needs. `Err` is want of memory.
pub fn copies(alloc: Global, all: &[Need]) -> Result<Vec<Need>, AllocError>
    ensures { IfOk result (λ copies. copies.items ≡ all.now) }
{
    let mut copies = Vec::new(alloc);
    for one in all {
        copies.push(one.copy()?)?;
    }
    Ok(copies)
}

/// These needs but this one. `Err` is want of memory.
pub fn others(alloc: Global, all: &[Need], own: &Need) -> Result<Vec<Need>, AllocError>
    ensures { IfOk result (λ others. (x : Need) → Contains others.items x ↔ (Contains all.now x × (x ≢ own.now))) }
{
    let mut others = Vec::new(alloc);
    for one in all {
        if !is_same(one, own) {
            others.push(one.copy()?)?;
        }
    }
    Ok(others)
}

/// These needs in order, each once.
pub fn each_once(all: Vec<Need>) -> Items<Need>
    ensures { AreNeeds result (Contains all.items) }
{
    let mut needs = all;
    needs.sort_unstable_by(|a, b| compare(a, b));
    needs.dedup_by(|a, b| compare(a, b).is_eq());
    Items::from_vec(needs)
}
