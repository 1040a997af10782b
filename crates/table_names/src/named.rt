//! Names of constraints.

ghost use Rattle.std.specs.Prelude.{◌≡◌, ◌↔◌, ◌++◌, [], IfOk, IsTrue, OnOk};
ghost use Rattle.std.specs.List.{Any};
ghost use Rattle.table_parts.specs.Parts.{constraints_of};
ghost use Rattle.table_names.specs.Given as given;
ghost use Rattle.table_names.specs.Named as spec;
ghost use Rattle.table_names.specs.Taken.{AreOfConstraints, AreTaken};

use crate::numbers::{is_taken, mark_number, taken_in};
use cat_items::Catalogue;
use edit_rules::is_constraint;
use sql_tree::{Items, Name, Object, TableConstraintKind};
use std::alloc::{AllocError, Global};
use table_parts::{Part, is_among};

/// A constraint and its name, which is given or made by the system.
#[derive(Drop)]
pub struct NamedConstraint {
    pub name: Name,
    pub kind: TableConstraintKind,
}

/// The system's name of this number.
fn system_name(alloc: Global, number: u64) -> Result<Name, AllocError>
    ensures { IfOk result (λ name. name ≡ spec.system_name number) }
{
    let text = format!(in alloc; "SYS_C{number}")?;
    match Name::of(alloc, text.as_bytes())? {
        Some(name) => Ok(name),
        None => unreachable!(),
    }
}

/// Whether one of these constraints has a name.
fn has_constraint(named: &Items<NamedConstraint>, name: &Name) -> bool
    ensures { IsTrue result ↔ Any (spec.IsNamed name.now) named.now }
{
    for constraint in named.as_slice() {
        if constraint.name.same(name) {
            return true;
        }
    }
    false
}

/// Puts the name that is given to a constraint behind the names.
fn push_name(names: &mut Items<Name>, part: &Part) -> Result<(), AllocError>
    ensures { OnOk result (names.new ≡ names.old ++ given.given_name part.now) }
{
    match part {
        Part::Column(_) => Ok(()),
        Part::Constraint(constraint) => match &constraint.name {
            None => Ok(()),
            Some(name) => names.push(name.copy()?),
        },
    }
}

/// The names that are given to constraints, in reading order. `Err` is want of memory.
pub fn given_names(alloc: Global, parts: &Items<Part>) -> Result<Items<Name>, AllocError>
    ensures { IfOk result (λ names. names ≡ given.given_names parts.now) }
{
    let mut names = Items::new(alloc);
    for part in parts.as_slice() {
        push_name(&mut names, part)?;
    }
    Ok(names)
}

/// Whether a constraint to be made may have a name of the system.
fn is_free(
    c: &Catalogue,
    given: &Items<Name>,
    named: &Items<NamedConstraint>,
    name: &Object,
) -> bool
    ensures { IsTrue result ↔ spec.IsFreeBeside (spec.IsFree c.now.items name.now.schema given.now) named.now name.now.name }
{
    !has_constraint(named, &name.name) && !is_among(given, &name.name) && !is_constraint(c, name)
}

/// The first free name of the system. A marked number isn't looked at again.
fn free_name(
    alloc: Global,
    c: &Catalogue,
    schema: &Name,
    given: &Items<Name>,
    named: &Items<NamedConstraint>,
    taken: &[bool],
) -> Result<Name, AllocError>
    requires { AreTaken (spec.IsFreeBeside (spec.IsFree c.now.items schema.now given.now) named.now) taken.now }
    ensures { IfOk result (spec.IsSystemName (spec.IsFreeBeside (spec.IsFree c.now.items schema.now given.now) named.now)) }
{
    for number in 1..u64::MAX {
        if is_taken(taken, number) {
            continue;
        }
        let name = Object {
            schema: schema.copy()?,
            name: system_name(alloc, number)?,
        };
        if is_free(c, given, named, &name) {
            let Object { name, .. } = name;
            return Ok(name);
        }
    }
    Err(AllocError)
}

/// The name of a constraint behind those that have theirs.
fn name_for(
    alloc: Global,
    c: &Catalogue,
    schema: &Name,
    given: &Items<Name>,
    named: &Items<NamedConstraint>,
    taken: &[bool],
    name: &Option<Name>,
) -> Result<Name, AllocError>
    requires { AreTaken (spec.IsFreeBeside (spec.IsFree c.now.items schema.now given.now) named.now) taken.now }
    ensures { IfOk result (spec.IsNameFor (spec.IsFree c.now.items schema.now given.now) named.now name.now) }
{
    match name {
        Some(name) => name.copy(),
        None => free_name(alloc, c, schema, given, named, taken),
    }
}

/// Puts a constraint with its name behind those that have theirs, and marks the number of this.
fn push_named(
    alloc: Global,
    c: &Catalogue,
    schema: &Name,
    given: &Items<Name>,
    named: &mut Items<NamedConstraint>,
    taken: &mut Vec<bool>,
    part: &Part,
) -> Result<(), AllocError>
    requires { AreTaken (spec.IsFreeBeside (spec.IsFree c.now.items schema.now given.now) named.old) taken.old.items }
    ensures taken { OnOk result (AreTaken (spec.IsFreeBeside (spec.IsFree c.now.items schema.now given.now) named.new) taken.new.items) }
    ensures named { OnOk result (spec.AddsNamed (spec.IsFree c.now.items schema.now given.now) part.now named.old named.new) }
{
    match part {
        Part::Column(_) => Ok(()),
        Part::Constraint(constraint) => {
            let name = name_for(alloc, c, schema, given, named, taken, &constraint.name)?;
            mark_number(taken, &name);
            let kind = constraint.kind.copy(alloc)?;
            named.push(NamedConstraint { name, kind })
        }
    }
}

/// Whether a part is a constraint to which no name is given.
fn is_unnamed(part: &Part) -> bool {
    match part {
        Part::Column(_) => false,
        Part::Constraint(constraint) => constraint.name.is_none(),
    }
}

/// Numbers of the system's names that are taken in a schema, with a place for each part: none where each constraint is given a name.
fn taken_for(
    alloc: Global,
    c: &Catalogue,
    schema: &Name,
    parts: &[Part],
) -> Result<Vec<bool>, AllocError>
    ensures { IfOk result (λ taken. AreOfConstraints c.now.items schema.now taken.items) }
{
    if parts.iter().any(is_unnamed) {
        taken_in(alloc, c, schema, parts.len())
    } else {
        Ok(Vec::new(alloc))
    }
}

/// The constraints with their names, in reading order. `Err` is want of memory, or of numbers.
pub fn name_constraints(
    alloc: Global,
    c: &Catalogue,
    schema: &Name,
    parts: &Items<Part>,
) -> Result<Items<NamedConstraint>, AllocError>
    ensures { IfOk result (spec.AreNamed (spec.IsFree c.now.items schema.now (given.given_names parts.now)) [] (constraints_of parts.now)) }
{
    let given = given_names(alloc, parts)?;
    let mut taken = taken_for(alloc, c, schema, parts.as_slice())?;
    let mut named = Items::new(alloc);
    for part in parts.as_slice() {
        push_named(alloc, c, schema, &given, &mut named, &mut taken, part)?;
    }
    Ok(named)
}
