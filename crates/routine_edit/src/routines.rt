//! CREATE FUNCTION and CREATE PROCEDURE.

ghost use Rattle.std.specs.Prelude.{◌≡◌, IfOk};
ghost use Rattle.sql_tree.specs.declared.statement.Statement.TheVariants as statements;
ghost use Rattle.cat_items.specs.Good.{IsGood};
ghost use Rattle.edit_rules.specs.First.{IsTested};
ghost use Rattle.edit_laws.specs.Sound.{IsSound};
ghost use Rattle.statement_forms.specs.Written.{IsWritten};
ghost use Rattle.statement_steps.specs.Steps.{refusals_of};
ghost use Rattle.routine_edit.specs.CreatedRoutines as spec;
ghost use Rattle.routine_edit.specs.Making.{IsFormedRoutine};

use crate::making::NewRoutine;
use cat_items::{Catalogue, Edit, EditError, Who};
use edit_rules::object_in;
use name_scopes::Signature;
use sql_names::EqualCopy;
use sql_tree::{Body, CreateFunction, CreateProcedure};
use statement_steps::edit_of;
use std::alloc::{AllocError, Global};

fn function_signature(
    alloc: Global,
    who: &Who,
    parts: &CreateFunction,
) -> Result<Signature, AllocError>
    ensures { IfOk result (λ signature. signature ≡ spec.function_signature who.now parts.now) }
{
    Ok(Signature {
        routine: object_in(&who.schema, &parts.function)?,
        params: parts.params.equal_copy(alloc)?,
        returns: Some(parts.returns),
    })
}

fn procedure_signature(
    alloc: Global,
    who: &Who,
    parts: &CreateProcedure,
) -> Result<Signature, AllocError>
    ensures { IfOk result (λ signature. signature ≡ spec.procedure_signature who.now parts.now) }
{
    Ok(Signature {
        routine: object_in(&who.schema, &parts.procedure)?,
        params: parts.params.equal_copy(alloc)?,
        returns: None,
    })
}

/// What a routine of this signature with this body adds to a catalogue, or why it is refused.
fn create_routine(
    alloc: Global,
    c: &Catalogue,
    who: &Who,
    signature: Signature,
    body: &Body,
) -> Result<Edit, EditError>
    requires good { IsGood c.now.items }
    requires formed { IsFormedRoutine signature body.now }
    ensures tested { IsTested (refusals_of c.now.items who.now (spec.routine_steps c.now.items who.now signature body.now)) (spec.routine_steps c.now.items who.now signature body.now).edit result }
    ensures sound { IfOk result (IsSound c.now.items) }
{
    edit_of(alloc, c, who, &NewRoutine { signature, body })
}

/// What CREATE FUNCTION adds to a catalogue, or why it is refused (SQL:2003 part 2, 11.50). `Memory` is want of memory.
pub fn create_function(
    alloc: Global,
    c: &Catalogue,
    who: &Who,
    parts: &CreateFunction,
) -> Result<Edit, EditError>
    requires good { IsGood c.now.items }
    requires written { IsWritten (statements.CreateFunction parts.now) }
    ensures tested { IsTested (spec.create_function_refusals c.now.items who.now parts.now) (spec.IsFunctionCreation c.now.items who.now parts.now) result }
    ensures sound { IfOk result (IsSound c.now.items) }
{
    let signature = function_signature(alloc, who, parts)?;
    create_routine(alloc, c, who, signature, &parts.body)
}

/// What CREATE PROCEDURE adds to a catalogue, or why it is refused (SQL:2003 part 2, 11.50). `Memory` is want of memory.
pub fn create_procedure(
    alloc: Global,
    c: &Catalogue,
    who: &Who,
    parts: &CreateProcedure,
) -> Result<Edit, EditError>
    requires good { IsGood c.now.items }
    requires written { IsWritten (statements.CreateProcedure parts.now) }
    ensures tested { IsTested (spec.create_procedure_refusals c.now.items who.now parts.now) (spec.IsProcedureCreation c.now.items who.now parts.now) result }
    ensures sound { IfOk result (IsSound c.now.items) }
{
    let signature = procedure_signature(alloc, who, parts)?;
    create_routine(alloc, c, who, signature, &parts.body)
}
