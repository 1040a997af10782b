//! The parts of CREATE TABLE (table definition, SQL:2003 part 2, 11.3).

ghost use Rattle.std.specs.Prelude.{◌≡◌, ◌∷◌, [], ◌++◌, IfOk, OnOk};
ghost use Rattle.table_parts.specs.Parts as spec;

use sql_tree::{
    ColumnConstraint, ColumnDefinition, ColumnOption, Items, Name, TableConstraint,
    TableConstraintKind, TableElement,
};
use std::alloc::{AllocError, Global};

/// A column, or a constraint, whether it is written in a column's definition or by itself.
#[derive(Drop)]
pub enum Part {
    Column(ColumnDefinition),
    Constraint(TableConstraint),
}

/// The list of one name.
fn only(alloc: Global, name: &Name) -> Result<Items<Name>, AllocError>
    ensures { IfOk result (λ names. names ≡ name.now ∷ []) }
{
    let mut names = Items::new(alloc);
    names.push(name.copy()?)?;
    Ok(names)
}

/// A constraint of one column, as a constraint of the table.
fn own_kind(
    alloc: Global,
    column: &Name,
    constraint: &ColumnConstraint,
) -> Result<TableConstraintKind, AllocError>
    ensures { IfOk result (λ kind. kind ≡ spec.own_kind column.now constraint.now) }
{
    match constraint {
        ColumnConstraint::PrimaryKey => Ok(TableConstraintKind::PrimaryKey(only(alloc, column)?)),
        ColumnConstraint::Unique => Ok(TableConstraintKind::Unique(only(alloc, column)?)),
        ColumnConstraint::References(references) => Ok(TableConstraintKind::ForeignKey {
            columns: only(alloc, column)?,
            references: references.copy(alloc)?,
        }),
        ColumnConstraint::Check(condition) => {
            Ok(TableConstraintKind::Check(condition.copy(alloc)?))
        }
    }
}

/// An equal name, where there is one.
fn copy_name(name: &Option<Name>) -> Result<Option<Name>, AllocError>
    ensures { IfOk result (λ copy. copy ≡ name.now) }
{
    match name {
        None => Ok(None),
        Some(name) => Ok(Some(name.copy()?)),
    }
}

/// Puts the constraint that stands among a column's options behind the parts.
fn push_option(
    alloc: Global,
    parts: &mut Items<Part>,
    column: &Name,
    option: &ColumnOption,
) -> Result<(), AllocError>
    ensures { OnOk result (parts.new ≡ parts.old ++ spec.option_parts column.now option.now) }
{
    match option {
        ColumnOption::Constraint { name, constraint } => {
            let kind = own_kind(alloc, column, constraint)?;
            let name = copy_name(name)?;
            parts.push(Part::Constraint(TableConstraint { name, kind }))
        }
        _ => Ok(()),
    }
}

/// Puts a column and its constraints behind the parts.
fn push_column(
    alloc: Global,
    parts: &mut Items<Part>,
    definition: &ColumnDefinition,
) -> Result<(), AllocError>
    ensures { OnOk result (parts.new ≡ parts.old ++ spec.column_parts definition.now) }
{
    parts.push(Part::Column(definition.copy(alloc)?))?;
    for option in definition.options.as_slice() {
        push_option(alloc, parts, &definition.column, option)?;
    }
    Ok(())
}

/// Puts what an element says behind the parts.
fn push_element(
    alloc: Global,
    parts: &mut Items<Part>,
    element: &TableElement,
) -> Result<(), AllocError>
    ensures { OnOk result (parts.new ≡ parts.old ++ spec.element_parts element.now) }
{
    match element {
        TableElement::Column(definition) => push_column(alloc, parts, definition),
        TableElement::Constraint(constraint) => {
            parts.push(Part::Constraint(constraint.copy(alloc)?))
        }
    }
}

/// The parts of CREATE TABLE in reading order. `Err` is want of memory.
pub fn parts_of(alloc: Global, elements: &Items<TableElement>) -> Result<Items<Part>, AllocError>
    ensures { IfOk result (λ parts. parts ≡ spec.parts_in elements.now) }
{
    let mut parts = Items::new(alloc);
    for element in elements.as_slice() {
        push_element(alloc, &mut parts, element)?;
    }
    Ok(parts)
}
