//! The suspects of an edit.

ghost use Rattle.std.specs.Prelude.{◌≡◌, ◌↔◌, ◌⊎◌, ◌+◌, ◌*◌, ◌≤◌, List, IsTrue, IfOk, OnOk, length, true};
ghost use Rattle.std.specs.List.{Contains, sum_by};
ghost use Rattle.item_index.specs.Graphs.{IsWhole};
ghost use Rattle.graph_steps.specs.Steps.{AreNodes};
ghost use Rattle.cat_items.specs.contracts.item.ItemPartialEq.TheImpl as same;
ghost use Rattle.cat_items.specs.declared.item.Item.{Item};
ghost use Rattle.cat_items.specs.declared.need.Auth.TheVariants as auth;
ghost use Rattle.finite_chains.specs.Chains.{IsWithin};
ghost use Rattle.cat_items.specs.Catalogues.{IsInOrder};
ghost use Rattle.cat_items.specs.Fit.{IsFit};
ghost use Rattle.cat_items.specs.Good.{IsGood};
ghost use Rattle.cat_items.specs.Survivors.{IsSystemRight, IsWithSystem};
ghost use Rattle.edit_rules.specs.Chosen.{IsRightOrRoleGrant};
ghost use Rattle.board_graph.specs.BoardKeys as keys;
ghost use Rattle.board_marks.specs.Marks.{IsMarked};
ghost use Rattle.board_steps.specs.Plans.{HasNoHelper, IsFullBoard};
ghost use Rattle.topic_keys.specs.Lists.{Gets};
ghost use Rattle.edit_suspects.specs.Seeds.{HaveSpread};
ghost use Rattle.edit_suspects.specs.Suspects.{AreFresh, is_suspect};
ghost use Rattle.asked_parts.specs.Parts.{HasAsked, IsPartOf};
ghost use Rattle.asked_parts.specs.Rounds.{HasAskedAll, IsClosed};
ghost use Rattle.asked_parts.specs.Under.{AreApart, look_ups};
ghost use Rattle.edit_parts.specs.Parts as spec;
ghost use Rattle.edit_parts.specs.Touched.{FitsBoard};

use crate::touched::{TouchedItems, touched_items};
use asked_parts::{Asked, ask_more, part_of};
use cat_items::{Auth, Catalogue, Edit, Item, Right, Shared};
use edit_rules::put;
use indexmap::IndexSet;
use item_index::{Index, Steps};
use item_lists::{merged, without};
use std::alloc::{AllocError, Global};
use std::hash::BuildHasher;
use std::sync::ledger::Ledger;
use system_rights::system_items;

fn ghost_right(right: &Right) -> Result<Right, AllocError>
    ensures { IfOk result (λ ghost_right. ghost_right ≡ record right.now { grantor = right.now.grantee; grantee = auth.System }) }
{
    Ok(Right {
        need: right.need.copy()?,
        grantor: right.grantee.copy()?,
        grantee: Auth::System,
    })
}

/// The key of the ghost of a right.
fn ghost_key(alloc: Global, x: &Item) -> Result<Item, AllocError>
    ensures { IfOk result (λ key. key ≡ keys.ghost_key x.now) }
{
    match x {
        Item::Held(right) => Ok(Item::Held(Shared::new(alloc, ghost_right(right.get())?)?)),
        Item::Grantable(right) => Ok(Item::Grantable(Shared::new(
            alloc,
            ghost_right(right.get())?,
        )?)),
        _ => x.copy(),
    }
}

/// Whether no node without a mark has this key of a right.
fn is_marked<S: BuildHasher + Drop, L: Ledger>(
    board: &Index<Item, S>,
    marks: &IndexSet<usize>,
    key: &Item,
    steps: &mut Steps<L>,
) -> bool
    requires { IsRightOrRoleGrant key.now }
    ensures marked { IsTrue result ↔ IsMarked board.now marks.now.keys key.now }
    ensures ticks { steps.new ≡ steps.old + 1 }
{
    match board.node(key, steps) {
        None => true,
        Some(node) => marks.contains(&node),
    }
}

/// Whether no node without a mark has the key of the ghost of this right.
fn is_ghost_marked<S: BuildHasher + Drop, L: Ledger>(
    alloc: Global,
    board: &Index<Item, S>,
    marks: &IndexSet<usize>,
    right: &Item,
    steps: &mut Steps<L>,
) -> Result<bool, AllocError>
    requires { IsRightOrRoleGrant right.now }
    ensures marked { IfOk result (λ marked. IsTrue marked ↔ IsMarked board.now marks.now.keys (keys.ghost_key right.now)) }
    ensures ticks { steps.new ≤ steps.old + 1 }
{
    let key = ghost_key(alloc, right)?;
    Ok(is_marked(board, marks, &key, steps))
}

/// Puts in a right, if neither it nor its ghost has a node without a mark.
fn put_suspect<S: BuildHasher + Drop, L: Ledger>(
    alloc: Global,
    board: &Index<Item, S>,
    marks: &IndexSet<usize>,
    right: &Item,
    suspects: &mut Catalogue,
    steps: &mut Steps<L>,
) -> Result<(), AllocError>
    requires { IsRightOrRoleGrant right.now }
    ensures members { OnOk result (Gets (spec.IsUnlessKept board.now marks.now.keys right.now) suspects.old.items suspects.new.items) }
    ensures ticks { steps.new ≤ steps.old + 2 }
{
    if !is_marked(board, marks, right, steps) {
        return Ok(());
    }
    if !is_ghost_marked(alloc, board, marks, right, steps)? {
        return Ok(());
    }
    put(suspects, right.copy()?)
}

/// Puts in those of these rights that have no node without a mark.
fn put_suspects<S: BuildHasher + Drop, L: Ledger>(
    alloc: Global,
    board: &Index<Item, S>,
    marks: &IndexSet<usize>,
    rights: &[Item],
    suspects: &mut Catalogue,
    steps: &mut Steps<L>,
) -> Result<(), AllocError>
    requires { (x : Item) → Contains rights.now x → IsRightOrRoleGrant x }
    ensures members { OnOk result (Gets (λ x. (right : Item) × Contains rights.now right × spec.IsUnlessKept board.now marks.now.keys right x) suspects.old.items suspects.new.items) }
    ensures ticks { steps.new ≤ steps.old + 2 * length rights.now }
{
    for right in rights {
        put_suspect(alloc, board, marks, right, suspects, steps)?;
    }
    Ok(())
}

/// Copies of the touched items and rights in one list.
pub(crate) fn joined(
    alloc: Global,
    items: &Catalogue,
    rights: &Catalogue,
) -> Result<Catalogue, AllocError>
    requires { (x : Item) → Contains rights.now.items x → IsRightOrRoleGrant x }
    ensures order { IfOk result (λ all. IsInOrder all.items) }
    ensures members { IfOk result (λ all. (x : Item) → Contains all.items x ↔ (Contains items.now.items x ⊎ Contains rights.now.items x)) }
{
    let all = merged(alloc, items.items(), rights.items())?;
    Ok(all)
}

/// The part of the touched items and rights and of all suspects: what further suspects ask for is asked for too, where there are any.
fn part_of_both<S: BuildHasher + Drop, L: Ledger>(
    alloc: Global,
    board: &Index<Item, S>,
    marks: &IndexSet<usize>,
    start: &Catalogue,
    rights: &Catalogue,
    suspects: &Catalogue,
    asked: Asked,
    steps: &mut Steps<L>,
) -> Result<Catalogue, AllocError>
    requires granted { (x : Item) → Contains rights.now.items x → IsRightOrRoleGrant x }
    requires start { (x : Item) → Contains start.now.items x → Contains suspects.now.items x ⊎ Contains rights.now.items x }
    requires rights { IsWithin rights.now.items start.now.items }
    requires further { (x : Item) → Contains suspects.now.items x → Contains start.now.items x ⊎ IsRightOrRoleGrant x }
    requires apart { (all : List Item) → spec.AreBoth suspects.now.items rights.now.items all → AreApart board.now marks.now.keys all }
    requires asked { HasAskedAll board.now marks.now.keys start.now.items asked.part.items asked.keys.items }
    ensures rights { IfOk result (λ part. IsWithin rights.now.items part.items) }
    ensures part { (c : List Item) → HasNoHelper c → IsFullBoard board.now c → IfOk result (λ part. (all : List Item) × spec.AreBoth suspects.now.items rights.now.items all × IsPartOf board.now c marks.now.keys all part.items) }
    ensures ticks { (all p keys : List Item) → (IsWithin start.now.items all × IsWithin suspects.now.items all) → IsClosed board.now marks.now.keys all p → HasAsked p all keys
        → steps.new + (length start.now.items + sum_by (look_ups board.now) asked.keys.items) ≤ steps.old + (length all + sum_by (look_ups board.now) keys) }
{
    let more = without(alloc, suspects.items(), start.items())?;
    let Asked { mut part, mut keys } = asked;
    if more.items().is_empty() {
        return Ok(part);
    }
    let all = joined(alloc, suspects, rights)?;
    ask_more(
        alloc, board, marks, &all, &more, &mut part, &mut keys, steps,
    )?;
    Ok(part)
}

/// Asks for the further suspects too, and takes out of the part the touched rights that are none.
fn ask_for_rights<S: BuildHasher + Drop, L: Ledger>(
    alloc: Global,
    board: &Index<Item, S>,
    marks: &IndexSet<usize>,
    start: &Catalogue,
    rights: &Catalogue,
    suspects: &Catalogue,
    asked: Asked,
    steps: &mut Steps<L>,
) -> Result<Catalogue, AllocError>
    requires granted { (x : Item) → Contains rights.now.items x → IsRightOrRoleGrant x }
    requires start { (x : Item) → Contains start.now.items x → Contains suspects.now.items x ⊎ Contains rights.now.items x }
    requires rights { IsWithin rights.now.items start.now.items }
    requires further { (x : Item) → Contains suspects.now.items x → Contains start.now.items x ⊎ IsRightOrRoleGrant x }
    requires apart { (all : List Item) → spec.AreBoth suspects.now.items rights.now.items all → AreApart board.now marks.now.keys all }
    requires asked { HasAskedAll board.now marks.now.keys start.now.items asked.part.items asked.keys.items }
    ensures part { (c : List Item) → HasNoHelper c → IsFullBoard board.now c → IfOk result (λ part. (all whole : List Item) × spec.AreBoth suspects.now.items rights.now.items all × IsPartOf board.now c marks.now.keys all whole × spec.IsLeftOf suspects.now.items all whole part.items) }
    ensures ticks { (all p keys : List Item) → (IsWithin start.now.items all × IsWithin suspects.now.items all) → IsClosed board.now marks.now.keys all p → HasAsked p all keys
        → steps.new + (length start.now.items + sum_by (look_ups board.now) asked.keys.items) ≤ steps.old + (length all + sum_by (look_ups board.now) keys) }
{
    let part = part_of_both(alloc, board, marks, start, rights, suspects, asked, steps)?;
    let gone = without(alloc, rights.items(), suspects.items())?;
    let left = without(alloc, part.items(), gone.items())?;
    Ok(left)
}

/// The suspects of an edit, and the part of the edited catalogue over which they are judged.
#[derive(Drop)]
pub struct Suspected {
    pub suspects: Catalogue,
    pub part: Catalogue,
}

/// The suspects of an edit: the items that it touches and leaves or adds, and of the rights that the system could grant for the edited
/// list those that are touched, or could not be granted before; and all that they ask for. It finds them over the part that the touched items and
/// rights ask for: it looks up the key of each marked number, what `part_of` does, of each right that the system could grant for that part its node and its
/// ghost's, and what the suspects among these ask for beside. `Err` is want of memory.
pub fn suspects_of<S: BuildHasher + Drop, L: Ledger>(
    alloc: Global,
    board: &Index<Item, S>,
    marks: &IndexSet<usize>,
    edit: &Edit,
    steps: &mut Steps<L>,
) -> Result<Suspected, AllocError>
    requires nodes { AreNodes board.now marks.now.keys }
    requires fits { FitsBoard board.now edit.now }
    requires spread { HaveSpread board.now edit.now marks.now.keys }
    ensures order { IfOk result (λ found. IsInOrder found.suspects.items) }
    ensures suspects { IfOk result (λ found. (c edited f fresh : List Item) → IsGood c → IsWhole same.ghosts.eq board.now → IsFullBoard board.now c → IsFit c edit.now edited → IsWithSystem edited f → AreFresh c edited fresh
        → (x : Item) → Contains found.suspects.items x ↔ (Contains f x × (is_suspect board.now marks.now.keys edit.now.added fresh x ≡ true))) }
    ensures part { IfOk result (λ found. (c edited fresh : List Item) → IsGood c → IsWhole same.ghosts.eq board.now → IsFullBoard board.now c → IsFit c edit.now edited → AreFresh c edited fresh → IsPartOf board.now c marks.now.keys found.suspects.items found.part.items) }
    ensures ticks { (c all part keys rights : List Item) → HasNoHelper c → IsFullBoard board.now c → spec.HasAllTouched board.now marks.now.keys edit.now part all → IsPartOf board.now c marks.now.keys all part → HasAsked part all keys
        → ((x : Item) → IsSystemRight part x → Contains rights x) → steps.new ≤ steps.old + (length marks.now.keys + (length all + (sum_by (look_ups board.now) keys + 2 * length rights))) }
{
    let TouchedItems { mut items, rights } = touched_items(alloc, board, marks, edit, steps)?;
    let start = joined(alloc, &items, &rights)?;
    let asked = part_of(alloc, board, marks, &start, steps)?;
    let possible = system_items(alloc, &asked.part)?;
    put_suspects(alloc, board, marks, possible.as_slice(), &mut items, steps)?;
    let part = ask_for_rights(alloc, board, marks, &start, &rights, &items, asked, steps)?;
    let _ = items.items();
    Ok(Suspected {
        suspects: items,
        part,
    })
}
