//! The privileges that columns and constraints need.

ghost use Rattle.std.specs.Prelude.{◌≡◌, ◌↔◌, ◌⊎◌, ◌++◌, map, Contains, IfOk, IsTrue, OnOk};
ghost use Rattle.std.specs.List.{Any};
ghost use Rattle.cat_items.specs.declared.need.Need.{Need as AnyNeed};
ghost use Rattle.cat_items.specs.Rights as rights;
ghost use Rattle.table_needs.specs.Needs as spec;

use cat_items::{Item, Need, Who};
use edit_rules::{object_in, path_of};
use sql_tree::{Action, ColumnType, Items, Name, Object};
use std::alloc::{AllocError, Global};
use table_parts::{Part, has_column};

/// USAGE on a domain.
fn usage(domain: &Object) -> Result<Need, AllocError>
    ensures { IfOk result (λ need. need ≡ rights.usage domain.now) }
{
    Ok(Need {
        action: Action::Usage,
        on: path_of(domain)?,
        column: None,
    })
}

/// REFERENCES on a column.
fn reference(table: &Object, column: &Name) -> Result<Need, AllocError>
    ensures { IfOk result (λ need. need ≡ rights.reference table.now column.now) }
{
    Ok(Need {
        action: Action::References,
        on: path_of(table)?,
        column: Some(column.copy()?),
    })
}

fn push_base(needs: &mut Items<Need>, who: &Who, base: &ColumnType) -> Result<(), AllocError>
    ensures { OnOk result ((need : AnyNeed) → Contains needs.new need ↔ (Contains needs.old need ⊎ spec.IsBaseNeed who.now base.now need)) }
{
    match base {
        ColumnType::Type(_) => Ok(()),
        ColumnType::Domain(name) => needs.push(usage(&object_in(&who.schema, name)?)?),
    }
}

fn push_part(needs: &mut Items<Need>, who: &Who, part: &Part) -> Result<(), AllocError>
    ensures { OnOk result ((need : AnyNeed) → Contains needs.new need ↔ (Contains needs.old need ⊎ spec.IsPartNeed who.now need part.now)) }
{
    match part {
        Part::Column(definition) => push_base(needs, who, &definition.sort),
        Part::Constraint(_) => Ok(()),
    }
}

fn push_references(
    needs: &mut Items<Need>,
    table: &Object,
    columns: &Items<Name>,
) -> Result<(), AllocError>
    ensures { OnOk result (needs.new ≡ needs.old ++ map (rights.reference table.now) columns.now) }
{
    for column in columns.as_slice() {
        needs.push(reference(table, column)?)?;
    }
    Ok(())
}

fn push_copies(out: &mut Items<Need>, needs: &Items<Need>) -> Result<(), AllocError>
    ensures { OnOk result (out.new ≡ out.old ++ needs.now) }
{
    for need in needs.as_slice() {
        out.push(need.copy()?)?;
    }
    Ok(())
}

/// Puts what a constraint needs behind the needs.
fn push_constraint(needs: &mut Items<Need>, x: &Item) -> Result<(), AllocError>
    ensures { OnOk result ((need : AnyNeed) → Contains needs.new need ↔ (Contains needs.old need ⊎ spec.IsConstraintNeed need x.now)) }
{
    match x {
        Item::Foreign(foreign) => {
            let foreign = foreign.get();
            push_references(needs, &foreign.target, &foreign.target_columns)
        }
        Item::Check(check) => push_copies(needs, &check.get().needs),
        _ => Ok(()),
    }
}

fn push_parts(needs: &mut Items<Need>, who: &Who, parts: &Items<Part>) -> Result<(), AllocError>
    ensures { OnOk result ((need : AnyNeed) → Contains needs.new need ↔ (Contains needs.old need ⊎ Any (spec.IsPartNeed who.now need) parts.now)) }
{
    for part in parts.as_slice() {
        push_part(needs, who, part)?;
    }
    Ok(())
}

fn push_constraints(needs: &mut Items<Need>, made: &Items<Item>) -> Result<(), AllocError>
    ensures { OnOk result ((need : AnyNeed) → Contains needs.new need ↔ (Contains needs.old need ⊎ Any (spec.IsConstraintNeed need) made.now)) }
{
    for x in made.as_slice() {
        push_constraint(needs, x)?;
    }
    Ok(())
}

/// Whether a need is on a column that the statement makes.
fn is_own_need(table: &Object, parts: &Items<Part>, need: &Need) -> Result<bool, AllocError>
    ensures { IfOk result (λ own. IsTrue own ↔ spec.IsOwnNeed table.now parts.now need.now) }
{
    match &need.column {
        None => Ok(false),
        Some(name) => {
            let path = path_of(table)?;
            Ok(need.on.same(&path) && has_column(parts, name))
        }
    }
}

/// Puts a need behind those that are left, where it isn't on a column that the statement makes.
fn push_left(
    left: &mut Items<Need>,
    table: &Object,
    parts: &Items<Part>,
    one: &Need,
) -> Result<(), AllocError>
    ensures { OnOk result ((need : AnyNeed) → Contains left.new need ↔ (Contains left.old need ⊎ spec.IsAsked table.now parts.now need one.now)) }
{
    if is_own_need(table, parts, one)? {
        return Ok(());
    }
    left.push(one.copy()?)
}

/// Those of the needs that aren't on columns that the statement makes.
fn without_own(
    alloc: Global,
    table: &Object,
    parts: &Items<Part>,
    needs: &Items<Need>,
) -> Result<Items<Need>, AllocError>
    ensures { IfOk result (λ left. (need : AnyNeed) → Contains left need ↔ Any (spec.IsAsked table.now parts.now need) needs.now) }
{
    let mut left = Items::new(alloc);
    for one in needs.as_slice() {
        push_left(&mut left, table, parts, one)?;
    }
    Ok(left)
}

/// What the columns that are defined and the constraints that are made need: USAGE on the domains of columns, REFERENCES on the columns of
/// targets, and what conditions need; but no need on a column that the statement itself makes. A need may come more than once. `Err` is want
/// of memory.
pub fn needs_of(
    alloc: Global,
    who: &Who,
    table: &Object,
    parts: &Items<Part>,
    made: &Items<Item>,
) -> Result<Items<Need>, AllocError>
    ensures { IfOk result (λ needs. (need : AnyNeed) → Contains needs need ↔ spec.IsNeeded who.now table.now parts.now (Contains made.now) need) }
{
    let mut needs = Items::new(alloc);
    push_parts(&mut needs, who, parts)?;
    push_constraints(&mut needs, made)?;
    without_own(alloc, table, parts, &needs)
}
