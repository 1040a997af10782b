//! Boards: the graphs of catalogues.

ghost use Rattle.std.specs.Prelude.{◌≡◌, ◌+◌, ◌≤◌, ℕ, Bool, IfOk, IfSome, List, OnOk};
ghost use Rattle.item_index.specs.Graphs.{AreLinks, Graph, no_graph, with_spare};
ghost use Rattle.item_index.specs.Undo.{IsAsBefore};
ghost use Rattle.cat_items.specs.contracts.item.ItemPartialEq.TheImpl as same;
ghost use Rattle.cat_items.specs.declared.item.Item.{Item};
ghost use Rattle.cat_items.specs.Bound.{IsBound};
ghost use Rattle.cat_items.specs.Catalogues.{IsInOrder};
ghost use Rattle.cat_items.specs.Fit.{IsFit};
ghost use Rattle.cat_items.specs.Good.{IsGood};
ghost use Rattle.board_graph.specs.Boards.{Holds};
ghost use Rattle.board_changes.specs.Left.{IsAsLeft};
ghost use Rattle.board_changes.specs.Readiness.{IsPlanned, IsReady, TakesBack};
ghost use Rattle.board_steps.specs.Plans.{IsFullBoard};
ghost use Rattle.revoke_cascade.specs.Boards.{IsBoardOf, IsStillTaken, IsTaken, adds};
ghost use Rattle.revoke_cascade.specs.Outcomes.{IsOutcome, plan_in};

use crate::cascade::Taken;
use crate::preparing::{Prepared, prepare_on};
use board_changes::{Ran, Ready, run, take_back};
use cat_items::{Catalogue, Edit, Item};
use item_index::{Index, Steps};
use sql_tree::Items;
use std::alloc::{AllocError, Global};
use std::marker::{Brand, Model};
use std::sync::ledger::{Blank, Ledger};

/// A board: an index with a node for each item of a catalogue, for each right that the system could grant and that doesn't stand, and for what items
/// depend on, linked both ways. Contracts see its graph, and which catalogue that is of (`Holds`).
#[derive(Drop)]
pub struct Board {
    index: Index<Item>,
}

impl Model for Board {
    ghost use Rattle.std.specs.Prelude.{List};
    ghost use Rattle.item_index.specs.Graphs.{Graph};
    ghost use Rattle.cat_items.specs.declared.item.Item.{Item};
    ghost use Rattle.revoke_cascade.specs.Boards.{IsBoardOf};
    ghost use Rattle.sql_tree.specs.contracts.expr.Expr as expr;
    ghost use Rattle.sql_tree.specs.contracts.expr.Query as query;
    ghost use Rattle.std.specs.Coded.{codes};

    ghost Value = { Graph Item };

    ghost coded = { Prim.hlevel (codes, expr.the_row.coded, query.the_row.coded) };

    ghost view = { λ b. b.index };

    ghost invariant = { λ b. (c : List Item) × IsBoardOf b.index c };
}

/// The edit that adds all items of a catalogue.
fn adding(alloc: Global, c: &Catalogue) -> Result<Edit, AllocError>
    ensures { IfOk result (λ edit. edit ≡ adds c.now.items) }
{
    let mut added = Vec::with_capacity(alloc, c.items().len())?;
    for x in c.items() {
        added.push(x.copy()?)?;
    }
    Ok(Edit {
        target: Items::new(alloc),
        changed: Items::new(alloc),
        added: Items::from_vec(added),
    })
}

/// Makes of an empty index the board of a catalogue, with a count of look-ups of its own.
fn fill<L: Ledger>(
    alloc: Global,
    index: &mut Index<Item>,
    c: &Catalogue,
    blank: Blank,
) -> Result<(), AllocError>
    requires name { blank.name ≡ L.name }
    requires parts { blank.parts ≡ L.parts }
    requires whole { blank.parts ≡ 1 }
    requires empty { index.old ≡ no_graph }
    requires good { IsGood c.now.items }
    ensures { OnOk result (IsBoardOf index.new c.now.items) }
{
    let mut steps: Steps<L> = Steps::new(blank);
    let edit = adding(alloc, c)?;
    index.keeps_whole();
    let nothing = Catalogue::of_sorted(Vec::new(alloc));
    let Prepared { ready: made, .. } = prepare_on(
        alloc, index, &nothing, &edit, false, &mut steps,
    )?;
    let Some(ready) = made else {
        unreachable!();
    };
    let _ = run(index, ready);
    Ok(())
}

impl Board {
    /// The board of a catalogue. `Err` is want of memory.
    pub fn new(alloc: Global, c: &Catalogue) -> Result<Board, AllocError>
        requires { IsGood c.now.items }
        ensures { IfOk result (λ board. Holds board c.now.items) }
    {
        let mut index = Index::new(alloc)?;
        fill::<Brand>(alloc, &mut index, c, Blank::new(1))?;
        Ok(Board { index })
    }

    /// Makes an edit ready, unless it is restricted and goes further than its target.
    pub(crate) fn prepare<L: Ledger>(
        &mut self,
        alloc: Global,
        c: &Catalogue,
        edit: &Edit,
        restricted: bool,
        steps: &mut Steps<L>,
    ) -> Result<Prepared, AllocError>
        requires { (edited : List Item) × IsGood c.now.items × Holds self.old c.now.items × IsFit c.now.items edit.now edited }
        ensures board { self.new ≡ with_spare self.old self.new.spare_keys self.new.spare_links }
        ensures grown { (self.old.spare_keys ≤ self.new.spare_keys) × (self.old.spare_links ≤ self.new.spare_links) }
        ensures ready { IfOk result (λ prepared. IfSome prepared.ready (IsReady same.ghosts.eq self.new)) }
        ensures outcome { IfOk result (λ prepared. (edited : List Item) → IsGood c.now.items → Holds self.old c.now.items → IsFit c.now.items edit.now edited → (new : List Item) × IsOutcome self.new c.now.items edit.now restricted new prepared.effects (plan_in prepared.ready)) }
        ensures few { (edited : List Item) (bound : ℕ) → IsGood c.now.items → Holds self.old c.now.items → IsFit c.now.items edit.now edited → IsBound c.now.items edit.now edited bound → steps.new ≤ steps.old + bound }
    {
        self.index.keeps_whole();
        prepare_on(alloc, &mut self.index, c, edit, restricted, steps)
    }

    /// Carries out what is ready.
    pub(crate) fn run(&mut self, ready: Ready) -> Ran
        requires ready { IsReady same.ghosts.eq self.old ready }
        requires planned { (c new : List Item) × (suspect : Item → Bool) × IsInOrder new × IsPlanned same.ghosts.eq self.old c new suspect ready.plan }
        ensures board { (c new : List Item) (suspect : Item → Bool) → IsPlanned same.ghosts.eq self.old c new suspect ready.plan → IsFullBoard self.new new }
        ensures back { TakesBack same.ghosts.eq self.old self.new result }
    {
        run(&mut self.index, ready)
    }

    /// Takes a run back, where the board is as that run left it: `prepare` may have made room since, and later runs may have been taken back. The board
    /// then is what it was before that run, with each number its key, and the same links in whatever order. No memory, and no look-up.
    pub fn take_back(&mut self, taken: Taken)
        requires { (before : Graph Item) × (c : List Item) × IsStillTaken before c self.old taken }
        ensures held { (before : Graph Item) (c : List Item) → IsStillTaken before c self.old taken → Holds self.new c }
        ensures left { (before : Graph Item) (c : List Item) → IsStillTaken before c self.old taken → IsAsLeft before self.new }
        ensures before { (before : Graph Item) (c : List Item) → IsTaken before c self.old taken → (links : List (ℕ × ℕ)) → AreLinks before links → IsAsBefore before self.new links }
    {
        let Taken { back, .. } = taken;
        take_back(&mut self.index, back);
    }
}
