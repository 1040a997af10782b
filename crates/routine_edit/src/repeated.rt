//! Names that come twice among parameters and in the column lists of a body.

ghost use Rattle.std.specs.Prelude.{◌≡◌, ◌∷◌, [], map, IfOk, OnOk};
ghost use Rattle.std.specs.List.{AllPairs};
ghost use Rattle.sql_names.specs.declared.sort.Param.{Param};
ghost use Rattle.sql_tree.specs.declared.body.Assignment.{Assignment};
ghost use Rattle.edit_rules.specs.First.{HasPassed, tests_of};
ghost use Rattle.statement_steps.specs.Repeated.{repeated_name};
ghost use Rattle.routine_edit.specs.CreatedRoutines as spec;

use cat_items::EditError;
use name_scopes::Signature;
use routine_deps::set_columns;
use sql_tree::{Act, Assignment, Body, Items, Name, Param};
use statement_steps::test_names_differ;
use std::alloc::{AllocError, Global};

fn names_of(alloc: Global, all: &[Param]) -> Result<Items<Name>, AllocError>
    ensures { IfOk result (λ names. names ≡ map (λ (p : Param). p.name) all.now) }
{
    let mut names = Items::new(alloc);
    for one in all {
        names.push(one.name.copy()?)?;
    }
    Ok(names)
}

fn test_set(alloc: Global, all: &[Assignment]) -> Result<(), EditError>
    ensures { HasPassed (repeated_name (map (λ (a : Assignment). a.column) all.now) ∷ []) result }
{
    let names = set_columns(alloc, all)?;
    test_names_differ(&names)
}

fn test_listed(columns: &Items<Name>) -> Result<(), EditError>
    ensures { HasPassed (repeated_name columns.now ∷ []) result }
{
    test_names_differ(columns)
}

fn test_act(alloc: Global, act: &Act) -> Result<(), EditError>
    ensures { HasPassed (spec.repeated_in_act act.now) result }
{
    match act {
        Act::Insert { columns, .. } => test_listed(columns),
        Act::Update { assignments, .. } => test_set(alloc, assignments.as_slice()),
        _ => Ok(()),
    }
}

fn test_acts(alloc: Global, all: &[Act]) -> Result<(), EditError>
    ensures { HasPassed (tests_of spec.repeated_in_act all.now) result }
{
    for one in all {
        test_act(alloc, one)?;
    }
    Ok(())
}

fn test_body(alloc: Global, body: &Body) -> Result<(), EditError>
    ensures { HasPassed (spec.repeated_in_body body.now) result }
{
    match body {
        Body::Return { .. } => Ok(()),
        Body::Atomic { acts, .. } => test_acts(alloc, acts.as_slice()),
    }
}

fn test_params(alloc: Global, signature: &Signature) -> Result<(), EditError>
    ensures { HasPassed (repeated_name (spec.param_names signature.now) ∷ []) result }
{
    let names = names_of(alloc, signature.params.as_slice())?;
    test_names_differ(&names)
}

/// Refuses a name that comes twice among the parameters, in the column list of an INSERT or behind a SET: `Repeated` of that name, the
/// first by its second place. `Memory` is want of memory.
pub fn test_repeated(alloc: Global, signature: &Signature, body: &Body) -> Result<(), EditError>
    ensures { HasPassed (repeated_name (spec.param_names signature.now) ∷ spec.repeated_in_body body.now) result }
{
    test_params(alloc, signature)?;
    test_body(alloc, body)
}
