//! CREATE ASSERTION.

ghost use Rattle.std.specs.Prelude.{IfOk};
ghost use Rattle.sql_tree.specs.declared.statement.Statement.TheVariants as statements;
ghost use Rattle.cat_items.specs.Good.{IsGood};
ghost use Rattle.edit_rules.specs.First.{IsTested};
ghost use Rattle.edit_laws.specs.Sound.{IsSound};
ghost use Rattle.statement_forms.specs.Written.{IsWritten};
ghost use Rattle.assertion_edit.specs.CreatedAssertions as spec;

use crate::making::NewAssertion;
use cat_items::{Catalogue, Edit, EditError, Who};
use edit_rules::object_in;
use sql_tree::CreateAssertion;
use statement_steps::edit_of;
use std::alloc::Global;

/// What CREATE ASSERTION adds to a catalogue, or why it is refused (SQL:2003 part 2, 11.37): its schema or a name in its condition doesn't
/// stand, the session doesn't act for the schema's owner, a constraint or an assertion has its name, its condition isn't BOOLEAN, or the
/// owner lacks a privilege on what the condition reads or calls. `Memory` is want of memory.
pub fn create_assertion(
    alloc: Global,
    c: &Catalogue,
    who: &Who,
    statement: &CreateAssertion,
) -> Result<Edit, EditError>
    requires good { IsGood c.now.items }
    requires written { IsWritten (statements.CreateAssertion statement.now) }
    ensures tested { IsTested (spec.create_assertion_refusals c.now.items who.now statement.now) (spec.IsAssertionCreation c.now.items who.now statement.now) result }
    ensures sound { IfOk result (IsSound c.now.items) }
{
    let new = NewAssertion {
        name: object_in(&who.schema, &statement.assertion)?,
        condition: &statement.condition,
    };
    edit_of(alloc, c, who, &new)
}
