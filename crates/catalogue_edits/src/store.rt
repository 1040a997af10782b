//! The catalogue with its board, and what an edit makes of both.

ghost use Rattle.std.specs.Prelude.{◌≡◌, ◌≤◌, ◌∷◌, [], List, IfOk, IfSome, OnOk, length};
ghost use Rattle.cat_items.specs.declared.item.Item.{Item};
ghost use Rattle.cat_items.specs.Edits.{IsNew};
ghost use Rattle.cat_items.specs.Good.{IsGood};
ghost use Rattle.board_graph.specs.Boards.{Holds};
ghost use Rattle.catalogue_changes.specs.Changes.{IsChange};
ghost use Rattle.catalogue_changes.specs.Effects.{IsMadeBy};
ghost use Rattle.catalogue_changes.specs.Widths.{IsNarrow};
ghost use Rattle.edit_rules.specs.First.{HasPassed, IsTested, Tested};
ghost use Rattle.edit_laws.specs.Sound.{IsSound};
ghost use Rattle.own_places.specs.Places.{HasPlaces};
ghost use Rattle.catalogue_edits.specs.Limits.{too_many_columns, too_many_items};
ghost use Rattle.catalogue_edits.specs.LookUps.{TakesFew};
ghost use Rattle.catalogue_edits.specs.Restrict.{still_needed};
ghost use Rattle.catalogue_edits.specs.Revisions.{outcome_refusals};
ghost use Rattle.catalogue_edits.specs.Stores.{IsAdmitted};

use crate::places::{KnownPlaces, note_coming};
use cat_items::{Catalogue, Edit, EditError, Limits, Refusal};
use catalogue_changes::{
    Change, Effects, change_of, columns_beyond_after, count_after, least_further, make,
};
use item_index::Steps;
use own_places::OwnPlaces;
use revoke_cascade::{Board, Cascade, Tried};
use std::alloc::{AllocError, Global};
use std::marker::Model;
use std::sync::ledger::Ledger;

/// A good catalogue with its board, by which the outcome of an edit is found without going over the catalogue. Contracts see the catalogue's items.
#[derive(Drop)]
pub struct Store {
    catalogue: Catalogue,
    board: Board,
    places: Option<KnownPlaces>,
}

impl Model for Store {
    ghost use Rattle.std.specs.Prelude.{List};
    ghost use Rattle.cat_items.specs.declared.item.Item.{Item};
    ghost use Rattle.sql_tree.specs.contracts.expr.Expr as expr;
    ghost use Rattle.sql_tree.specs.contracts.expr.Query as query;
    ghost use Rattle.std.specs.Coded.{codes};
    ghost use Rattle.cat_items.specs.Good.{IsGood};
    ghost use Rattle.board_graph.specs.Boards.{Holds};
    ghost use Rattle.catalogue_edits.specs.KnownPlaces.{KnowsPlaces};

    ghost Value = { List Item };

    ghost coded = { Prim.hlevel (codes, expr.the_row.coded, query.the_row.coded) };

    ghost view = { λ s. s.catalogue.items };

    ghost invariant = { λ s. IsGood s.catalogue.items × Holds s.board s.catalogue.items × KnowsPlaces s.catalogue.items s.places };
}

/// Refuses what takes or changes something beyond its target, where it may not.
fn test_restrict(
    c: &Catalogue,
    edit: &Edit,
    effects: &Effects,
    restrict: Option<bool>,
) -> Result<(), EditError>
    requires { (edited : List Item) × (new : List Item) × IsMadeBy c.now.items edited edit.now new effects.now }
    ensures { HasPassed (still_needed c.now.items restrict edit.now ∷ []) result }
{
    let _ = c;
    let Some(by_rights) = restrict else {
        return Ok(());
    };
    match least_further(edit, effects) {
        None => Ok(()),
        Some(item) => Err(EditError::Refused(Refusal::StillNeeded {
            item: item.copy()?,
            by_rights,
        })),
    }
}

/// Refuses a catalogue of too many items, and one with a table or a view of too many columns.
fn test_limits(
    limits: &Limits,
    c: &Catalogue,
    edit: &Edit,
    change: &Change,
) -> Result<(), EditError>
    requires good { IsGood c.now.items }
    requires narrow { IsNarrow c.now.items limits.now.columns }
    requires change { (new : List Item) × IsNew c.now.items edit.now new × IsChange c.now.items new change.now }
    ensures tested { HasPassed (too_many_items limits.now c.now.items edit.now ∷ too_many_columns limits.now c.now.items edit.now ∷ []) result }
    ensures narrow { OnOk result ((new : List Item) → IsChange c.now.items new change.now → IsNarrow new limits.now.columns) }
{
    let _ = edit;
    let count = count_after(c, change) as u64;
    if count > u64::from(limits.items) {
        return Err(EditError::Refused(Refusal::CatalogFull { count }));
    }
    match columns_beyond_after(c, change, limits.columns) {
        None => Ok(()),
        Some(count) => Err(EditError::Refused(Refusal::CatalogFull { count })),
    }
}

/// An edit that nothing refuses, ready on the catalogue and on its board.
#[derive(Drop)]
struct Admitted {
    cascade: Cascade,
    change: Change,
}

/// What an edit does to a catalogue, by its board, or why it may not be done.
fn admit<L: Ledger>(
    alloc: Global,
    limits: &Limits,
    c: &Catalogue,
    board: &mut Board,
    edit: &Edit,
    restrict: Option<bool>,
    steps: &mut Steps<L>,
) -> Result<Admitted, EditError>
    requires good { IsGood c.now.items }
    requires held { Holds board.old c.now.items }
    requires narrow { IsNarrow c.now.items limits.now.columns }
    requires sound { IsSound c.now.items edit.now }
    ensures held { Holds board.new c.now.items }
    ensures tested { IsTested (outcome_refusals limits.now c.now.items restrict edit.now) (λ admitted. (new : List Item) × IsAdmitted board.new c.now.items edit.now new admitted) result }
    ensures narrow { IfOk result (λ admitted. (new : List Item) → IsChange c.now.items new admitted.change → IsNarrow new limits.now.columns) }
    ensures few { TakesFew c.now.items edit.now steps.old steps.new }
{
    let restricted = restrict.is_some();
    let cascade = match Cascade::prepare_restricted(alloc, board, c, edit, restricted, steps)? {
        Tried::Ready(cascade) => cascade,
        Tried::Further(effects) => {
            test_restrict(c, edit, &effects, restrict)?;
            unreachable!()
        }
    };
    let change = change_of(alloc, c, edit, &cascade.effects)?;
    test_limits(limits, c, edit, &change)?;
    Ok(Admitted { cascade, change })
}

impl Store {
    /// A catalogue with its board. `Err` is want of memory.
    pub fn new(alloc: Global, catalogue: Catalogue) -> Result<Store, AllocError>
        requires { IsGood catalogue.items }
        ensures { IfOk result (λ store. store ≡ catalogue.items) }
    {
        let board = Board::new(alloc, &catalogue)?;
        Ok(Store {
            catalogue,
            board,
            places: None,
        })
    }

    /// The catalogue. No memory.
    pub fn catalogue(&self) -> &Catalogue
        ensures items { result.now.items ≡ self.now }
        ensures good { IsGood self.now }
    {
        &self.catalogue
    }

    /// Finds where each authorization has rights or owns, if that isn't known: one pass over the catalogue. Where memory is wanting it stays unknown.
    pub fn find_places(&mut self, alloc: Global)
        ensures { self.new ≡ self.old }
    {
        if self.places.is_none() {
            self.places = KnownPlaces::of(alloc, self.catalogue.items()).ok();
        }
    }

    /// Where each authorization has rights or owns, if that is known: as long as no edit let go of it. It takes no memory.
    pub fn places(&self) -> Option<&OwnPlaces>
        ensures { IfSome result (λ places. HasPlaces self.now places.now) }
    {
        match &self.places {
            Some(known) => Some(&known.places),
            None => None,
        }
    }

    /// Makes of the catalogue what an edit makes of it, unless RESTRICT or the limits refuse that: then, and where memory is wanting, all
    /// stays as it is. It takes no more look-ups than the bound of the edit, however it ends.
    pub(crate) fn change<L: Ledger>(
        &mut self,
        alloc: Global,
        limits: &Limits,
        edit: &Edit,
        restrict: Option<bool>,
        steps: &mut Steps<L>,
    ) -> Result<(), EditError>
        requires sound { IsSound self.old edit.now }
        requires narrow { IsNarrow self.old limits.now.columns }
        ensures tested { Tested (outcome_refusals limits.now self.old restrict edit.now) (λ done. IsNew self.old edit.now self.new) (self.new ≡ self.old) result }
        ensures narrow { IsNarrow self.new limits.now.columns }
        ensures few { TakesFew self.old edit.now steps.old steps.new }
    {
        let Admitted { cascade, change } = admit(
            alloc,
            limits,
            &self.catalogue,
            &mut self.board,
            edit,
            restrict,
            steps,
        )?;
        self.catalogue.reserve(change.coming.items().len())?;
        note_coming(alloc, &mut self.places, change.coming.items());
        make(&mut self.catalogue, change);
        let _ = cascade.run(&mut self.board);
        Ok(())
    }
}
