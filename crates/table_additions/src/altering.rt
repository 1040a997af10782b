//! ALTER TABLE.

ghost use Rattle.std.specs.Prelude.{◌≡◌, ◌∷◌, [], IfOk};
ghost use Rattle.sql_tree.specs.declared.statement.Statement.TheVariants as statements;
ghost use Rattle.cat_items.specs.Good.{IsGood};
ghost use Rattle.edit_rules.specs.First.{IsTested};
ghost use Rattle.edit_rules.specs.Names as names;
ghost use Rattle.edit_laws.specs.Sound.{IsSound};
ghost use Rattle.statement_forms.specs.Written.{IsWritten};
ghost use Rattle.statement_steps.specs.Steps.{refusals_of};
ghost use Rattle.table_parts.specs.Parts as parts;
ghost use Rattle.table_parts.specs.declared.parts.Part.TheVariants as part;
ghost use Rattle.table_additions.specs.Additions as adds;
ghost use Rattle.table_additions.specs.Alterations as spec;

use crate::new_parts::NewParts;
use cat_items::{Catalogue, Edit, EditError, Who};
use edit_rules::object_in;
use sql_tree::{
    AlterTable, AlterTableAction, ColumnDefinition, Items, ObjectName, TableConstraint,
    TableElement,
};
use statement_steps::edit_of;
use std::alloc::{AllocError, Global};
use table_changes::alter_standing;
use table_parts::{Part, parts_of};

/// A column and its constraints.
fn column_parts(alloc: Global, definition: &ColumnDefinition) -> Result<Items<Part>, AllocError>
    ensures { IfOk result (λ all. all ≡ parts.column_parts definition.now) }
{
    let mut elements = Items::new(alloc);
    elements.push(TableElement::Column(definition.copy(alloc)?))?;
    parts_of(alloc, &elements)
}

/// A constraint alone.
fn constraint_parts(alloc: Global, constraint: &TableConstraint) -> Result<Items<Part>, AllocError>
    ensures { IfOk result (λ all. all ≡ part.Constraint constraint.now ∷ []) }
{
    let mut all = Items::new(alloc);
    all.push(Part::Constraint(constraint.copy(alloc)?))?;
    Ok(all)
}

/// What ADD of these parts does to a table.
fn add_parts(
    alloc: Global,
    c: &Catalogue,
    who: &Who,
    table: &ObjectName,
    all: Items<Part>,
) -> Result<Edit, EditError>
    requires { IsGood c.now.items }
    ensures { IsTested (refusals_of c.now.items who.now (adds.steps_of_parts c.now.items who.now (names.object_in who.now.schema table.now) all)) (adds.steps_of_parts c.now.items who.now (names.object_in who.now.schema table.now) all).edit result }
{
    let new = NewParts {
        table: object_in(&who.schema, table)?,
        parts: all,
    };
    edit_of(alloc, c, who, &new)
}

fn add_column(
    alloc: Global,
    c: &Catalogue,
    who: &Who,
    table: &ObjectName,
    definition: &ColumnDefinition,
) -> Result<Edit, EditError>
    requires { IsGood c.now.items }
    ensures { IsTested (refusals_of c.now.items who.now (adds.steps_of_parts c.now.items who.now (names.object_in who.now.schema table.now) (parts.column_parts definition.now))) (adds.steps_of_parts c.now.items who.now (names.object_in who.now.schema table.now) (parts.column_parts definition.now)).edit result }
{
    let all = column_parts(alloc, definition)?;
    add_parts(alloc, c, who, table, all)
}

fn add_constraint(
    alloc: Global,
    c: &Catalogue,
    who: &Who,
    table: &ObjectName,
    constraint: &TableConstraint,
) -> Result<Edit, EditError>
    requires { IsGood c.now.items }
    ensures { IsTested (refusals_of c.now.items who.now (adds.steps_of_parts c.now.items who.now (names.object_in who.now.schema table.now) (part.Constraint constraint.now ∷ []))) (adds.steps_of_parts c.now.items who.now (names.object_in who.now.schema table.now) (part.Constraint constraint.now ∷ [])).edit result }
{
    let all = constraint_parts(alloc, constraint)?;
    add_parts(alloc, c, who, table, all)
}

/// What ALTER TABLE makes of a catalogue, or why it is refused (SQL:2003 part 2, 11.10): ADD of a column (11.11) and of a constraint (11.19),
/// and the actions on what stands.
///
/// ADD is refused in this order: `Repeated` of a name that comes twice in it, of a second PRIMARY KEY in it the table; `UnknownName` of the
/// base table and then of the first name in reading order, `Ambiguous` of one in a condition; `NotOwner` of the table's schema; `NameExists`
/// of the column, then of the first constraint; `TypeMismatch`; `NoSuchKey`, where own new keys don't count; `Repeated` of the table where it
/// has a PRIMARY KEY; `CatalogFull` where no place is behind the greatest; `NoPrivilege` of the least that the schema's owner lacks. A new
/// column comes with the rights that stand on the whole table, and places of dropped columns between others stay free. `Memory` is want of
/// memory. Whether the behaviour RESTRICT refuses a drop is not decided here.
pub fn alter_table(
    alloc: Global,
    c: &Catalogue,
    who: &Who,
    statement: &AlterTable,
) -> Result<Edit, EditError>
    requires good { IsGood c.now.items }
    requires written { IsWritten (statements.AlterTable statement.now) }
    ensures tested { IsTested (spec.alter_table_refusals c.now.items who.now statement.now) (spec.IsTableAlteration c.now.items who.now statement.now) result }
    ensures sound { IfOk result (IsSound c.now.items) }
{
    let table = &statement.table;
    match &statement.action {
        AlterTableAction::AddColumn(definition) => add_column(alloc, c, who, table, definition),
        AlterTableAction::AddConstraint(constraint) => {
            add_constraint(alloc, c, who, table, constraint)
        }
        _ => alter_standing(alloc, c, who, statement),
    }
}
