//! What may not come twice.

ghost use Rattle.std.specs.Prelude.{◌≡◌, ◌↔◌, ◌++◌, IfOk, IfNone, IfSome, IsTrue, OnOk, map, take, Contains};
ghost use Rattle.table_parts.specs.Marks as spec;
ghost use Rattle.table_parts.specs.declared.marks.Mark.TheVariants as variants;

use crate::parts::Part;
use sql_tree::{Items, Name, TableConstraintKind};
use std::alloc::{AllocError, Global};

/// Something that may not come twice; `at` is the place of the constraint whose list of columns has the name.
#[derive(Drop)]
pub enum Mark {
    Column(Name),
    /// A constraint's name.
    Constraint(Name),
    /// The words PRIMARY KEY.
    Primary,
    /// A column of the table itself.
    Own { at: usize, name: Name },
    /// A column of a foreign key's target.
    Target { at: usize, name: Name },
}

impl Mark {
    /// Whether the two are equal in all parts.
    pub fn same(&self, other: &Mark) -> bool
        ensures { IsTrue result ↔ (self.now ≡ other.now) }
    {
        match (self, other) {
            (Mark::Column(a), Mark::Column(b)) | (Mark::Constraint(a), Mark::Constraint(b)) => {
                a.same(b)
            }
            (Mark::Primary, Mark::Primary) => true,
            (
                Mark::Own { at, name },
                Mark::Own {
                    at: other_at,
                    name: other_name,
                },
            )
            | (
                Mark::Target { at, name },
                Mark::Target {
                    at: other_at,
                    name: other_name,
                },
            ) => at == other_at && name.same(other_name),
            _ => false,
        }
    }
}

/// Puts the names of a constraint's own columns behind the marks.
fn push_own(marks: &mut Items<Mark>, at: usize, names: &Items<Name>) -> Result<(), AllocError>
    ensures { OnOk result (marks.new ≡ marks.old ++ map (variants.Own at) names.now) }
{
    for name in names.as_slice() {
        let name = name.copy()?;
        marks.push(Mark::Own { at, name })?;
    }
    Ok(())
}

/// Puts the names of a target's columns behind the marks.
fn push_targets(marks: &mut Items<Mark>, at: usize, names: &Items<Name>) -> Result<(), AllocError>
    ensures { OnOk result (marks.new ≡ marks.old ++ map (variants.Target at) names.now) }
{
    for name in names.as_slice() {
        let name = name.copy()?;
        marks.push(Mark::Target { at, name })?;
    }
    Ok(())
}

/// Puts a constraint's name, where it has one, behind the marks.
fn push_name(marks: &mut Items<Mark>, name: &Option<Name>) -> Result<(), AllocError>
    ensures { OnOk result (marks.new ≡ marks.old ++ spec.name_marks name.now) }
{
    match name {
        None => Ok(()),
        Some(name) => marks.push(Mark::Constraint(name.copy()?)),
    }
}

/// Puts what a constraint says behind the marks.
fn push_kind(
    marks: &mut Items<Mark>,
    at: usize,
    kind: &TableConstraintKind,
) -> Result<(), AllocError>
    ensures { OnOk result (marks.new ≡ marks.old ++ spec.kind_marks at kind.now) }
{
    match kind {
        TableConstraintKind::PrimaryKey(columns) => {
            marks.push(Mark::Primary)?;
            push_own(marks, at, columns)
        }
        TableConstraintKind::Unique(columns) => push_own(marks, at, columns),
        TableConstraintKind::ForeignKey {
            columns,
            references,
        } => {
            push_own(marks, at, columns)?;
            push_targets(marks, at, &references.columns)
        }
        TableConstraintKind::Check(_) => Ok(()),
    }
}

/// Puts the marks of the part at this place behind the marks.
fn push_part(marks: &mut Items<Mark>, at: usize, part: &Part) -> Result<(), AllocError>
    ensures { OnOk result (marks.new ≡ marks.old ++ spec.part_marks at part.now) }
{
    match part {
        Part::Column(definition) => marks.push(Mark::Column(definition.column.copy()?)),
        Part::Constraint(constraint) => {
            push_name(marks, &constraint.name)?;
            push_kind(marks, at, &constraint.kind)
        }
    }
}

/// What may not come twice, in reading order. `Err` is want of memory.
pub fn marks_of(alloc: Global, parts: &Items<Part>) -> Result<Items<Mark>, AllocError>
    ensures { IfOk result (λ marks. marks ≡ spec.marks_in parts.now) }
{
    let mut marks = Items::new(alloc);
    let parts = parts.as_slice();
    for at in 0..parts.len() {
        push_part(&mut marks, at, &parts[at])?;
    }
    Ok(marks)
}

/// Whether a mark is among these.
fn is_among(marks: &[Mark], mark: &Mark) -> bool
    ensures { IsTrue result ↔ Contains marks.now mark.now }
{
    for other in marks {
        if other.same(mark) {
            return true;
        }
    }
    false
}

/// The first mark that equals an earlier one. It takes no memory.
pub fn first_repeated(marks: &Items<Mark>) -> Option<&Mark>
    ensures found { IfSome result (λ mark. spec.IsRepeated marks.now mark.now) }
    ensures none { IfNone result (spec.MarksDiffer marks.now) }
{
    let marks = marks.as_slice();
    for at in 0..marks.len() {
        let mark = &marks[at];
        if is_among(&marks[..at], mark) {
            return Some(mark);
        }
    }
    None
}
