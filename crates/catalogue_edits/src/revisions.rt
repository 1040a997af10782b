//! What a statement makes of a catalogue.

ghost use Rattle.std.specs.Prelude.{◌≡◌, ◌↔◌, IsTrue};
ghost use Rattle.cat_items.specs.declared.edit.Edit.{Edit};
ghost use Rattle.catalogue_changes.specs.Widths.{IsNarrow};
ghost use Rattle.statement_forms.specs.Written.{IsWritten};
ghost use Rattle.edit_rules.specs.First.{Tested};
ghost use Rattle.catalogue_edits.specs.LookUps.{HasEdit, TakesFew};
ghost use Rattle.catalogue_edits.specs.Revisions.{IsRevised, revision_refusals};
ghost use Rattle.catalogue_edits.specs.Statements.{IsBuiltEdit};

use crate::plan::plan_of;
use crate::store::Store;
use crate::warning::Warning;
use cat_items::{EditError, Limits, Who};
use item_index::Steps;
use sql_tree::Statement;
use std::alloc::Global;
use std::sync::ledger::Ledger;

/// Whether a statement edits the catalogue, and is of a kind that is built.
#[tactic(auto, unfolding(crate::specs::Kinds::kind_of))]
pub fn is_edit(statement: &Statement) -> bool
    ensures { IsTrue result ↔ IsBuiltEdit statement.now }
{
    match statement {
        Statement::CreateSchema(parts) => parts.elements.is_empty(),
        Statement::Connect(_) | Statement::SetConnection(_) | Statement::Disconnect(_) => false,
        Statement::SetSchema(_) | Statement::SetRole(_) | Statement::Select(_) => false,
        _ => true,
    }
}

/// Makes of a catalogue what a statement makes of it, and tells what it warns of; or tells the first of its refusals
/// (SQL:2003 part 2, 11 and 12), and leaves all as it is. `Memory` is want of memory, and leaves all as it is.
///
/// `steps` counts the look-ups in the board: they follow what the edit touches. A statement without an edit takes none, and one with an edit
/// no more than its bound. The catalogue's list is moved in one pass.
pub fn revise<L: Ledger>(
    alloc: Global,
    limits: &Limits,
    store: &mut Store,
    who: &Who,
    statement: &Statement,
    steps: &mut Steps<L>,
) -> Result<Option<Warning>, EditError>
    requires narrow { IsNarrow store.old limits.now.columns }
    requires built { IsBuiltEdit statement.now }
    requires written { IsWritten statement.now }
    ensures tested { Tested (revision_refusals limits.now store.old who.now statement.now)
        (λ warning. IsRevised store.old who.now statement.now warning store.new) (store.new ≡ store.old) result }
    ensures narrow { IsNarrow store.new limits.now.columns }
    ensures idle { ((edit : Edit) → ¬ (HasEdit store.old who.now statement.now edit)) → steps.new ≡ steps.old }
    ensures few { (edit : Edit) → HasEdit store.old who.now statement.now edit → TakesFew store.old edit steps.old steps.new }
{
    let plan = plan_of(alloc, store.catalogue(), who, statement)?;
    store.change(alloc, limits, &plan.edit, plan.restrict, steps)?;
    Ok(plan.warning)
}
