//! Cascades: edits that are ready on the board of their catalogue.

ghost use Rattle.std.specs.Prelude.{◌≡◌, ◌+◌, ◌≤◌, ℕ, IfOk, List, vec_len};
ghost use Rattle.item_index.specs.Graphs.{with_spare};
ghost use Rattle.cat_items.specs.declared.edit.Edit.{Edit};
ghost use Rattle.cat_items.specs.declared.item.Item.{Item};
ghost use Rattle.cat_items.specs.Bound.{IsBound};
ghost use Rattle.cat_items.specs.Fit.{IsFit};
ghost use Rattle.cat_items.specs.Good.{IsGood};
ghost use Rattle.board_graph.specs.Boards.{Holds};
ghost use Rattle.revoke_cascade.specs.Boards.{IsCascade, IsTaken, IsTried};

use crate::board::Board;
use crate::preparing::Prepared;
use board_changes::{Ran, Ready};
use cat_items::{Catalogue, Edit};
use catalogue_changes::Effects;
use item_index::Steps;
use std::alloc::{AllocError, Global};
use std::sync::ledger::Ledger;

/// An edit that is ready on the board of its catalogue, and what it does beyond what it says.
#[derive(Drop)]
pub struct Cascade {
    pub effects: Effects,
    pub ready: Ready,
}

/// What a run did beyond what its edit says, and what takes it back.
#[derive(Drop)]
pub struct Taken {
    pub effects: Effects,
    pub back: Ran,
}

/// What is made ready of an edit under RESTRICT.
#[derive(Drop)]
pub enum Tried {
    /// The edit is ready: it goes no further than its target, or isn't restricted.
    Ready(Cascade),
    /// The edit takes or changes an item beyond its target: what it does beyond what it says. Nothing is ready.
    Further(Effects),
}

impl Cascade {
    /// What `prepare` does, unless the edit is `restricted` and takes or changes an item beyond its target (SQL:2003 part 2, 11.21 and 12.7): then nothing is made
    /// ready for the board. Either way the board stays as it is, but for more room, and it takes no more look-ups than the bound of the edit. `Err` is want of
    /// memory.
    pub fn prepare_restricted<L: Ledger>(
        alloc: Global,
        board: &mut Board,
        c: &Catalogue,
        edit: &Edit,
        restricted: bool,
        steps: &mut Steps<L>,
    ) -> Result<Tried, AllocError>
        requires good { IsGood c.now.items }
        requires held { Holds board.old c.now.items }
        requires fit { (edited : List Item) × IsFit c.now.items edit.now edited }
        ensures board { board.new ≡ with_spare board.old board.new.spare_keys board.new.spare_links }
        ensures grown { (board.old.spare_keys ≤ board.new.spare_keys) × (board.old.spare_links ≤ board.new.spare_links) }
        ensures held { Holds board.new c.now.items }
        ensures tried { IfOk result (λ tried. (new : List Item) × IsTried board.new c.now.items edit.now restricted new tried) }
        ensures few { (edited : List Item) (bound : ℕ) → IsBound c.now.items edit.now edited bound → IsFit c.now.items edit.now edited → steps.new ≤ steps.old + bound }
    {
        let Prepared { effects, ready } = board.prepare(alloc, c, edit, restricted, steps)?;
        let Some(ready) = ready else {
            return Ok(Tried::Further(effects));
        };
        Ok(Tried::Ready(Cascade { effects, ready }))
    }

    /// Finds what an edit does to a catalogue, and takes all memory that it takes to carry it out on its board, and to take it back. The
    /// board stays as it is, but for more room. It takes no more look-ups than the bound of the edit. `Err` is want of memory.
    pub fn prepare<L: Ledger>(
        alloc: Global,
        board: &mut Board,
        c: &Catalogue,
        edit: &Edit,
        steps: &mut Steps<L>,
    ) -> Result<Cascade, AllocError>
        requires good { IsGood c.now.items }
        requires held { Holds board.old c.now.items }
        requires fit { (edited : List Item) × IsFit c.now.items edit.now edited }
        ensures board { board.new ≡ with_spare board.old board.new.spare_keys board.new.spare_links }
        ensures grown { (board.old.spare_keys ≤ board.new.spare_keys) × (board.old.spare_links ≤ board.new.spare_links) }
        ensures held { Holds board.new c.now.items }
        ensures cascade { IfOk result (λ cascade. (new : List Item) × IsCascade board.new c.now.items edit.now new cascade) }
        ensures few { (edited : List Item) (bound : ℕ) → IsBound c.now.items edit.now edited bound → IsFit c.now.items edit.now edited → steps.new ≤ steps.old + bound }
    {
        match Cascade::prepare_restricted(alloc, board, c, edit, false, steps)? {
            Tried::Ready(cascade) => Ok(cascade),
            Tried::Further(_) => unreachable!(),
        }
    }

    /// How many items the run gains beyond those that the edit adds. No memory.
    pub fn room(&self) -> usize
        ensures { result ≡ vec_len self.now.effects.gained }
    {
        self.effects.gained.len()
    }

    /// Carries the edit out: the board then is that of the new catalogue. No memory, and no look-up.
    pub fn run(self, board: &mut Board) -> Taken
        requires { (c : List Item) × (edit : Edit) × (new : List Item) × IsCascade board.old c edit new self × Holds board.old c }
        ensures held { (c new : List Item) (edit : Edit) → IsGood c → Holds board.old c → IsCascade board.old c edit new self → Holds board.new new }
        ensures effects { result.effects ≡ self.effects }
        ensures taken { (c new : List Item) (edit : Edit) → IsGood c → Holds board.old c → IsCascade board.old c edit new self → IsTaken board.old c board.new result }
    {
        let Cascade { effects, ready } = self;
        let back = board.run(ready);
        Taken { effects, back }
    }
}
