//! The names of a statement's columns and constraints, and what its conditions come to.

ghost use Rattle.std.specs.Prelude.{◌≡◌};
ghost use Rattle.edit_rules.specs.First.{IsTested};
ghost use Rattle.table_parts.specs.Parts.{constraints_of};
ghost use Rattle.table_elements.specs.Conditions as conditions;
ghost use Rattle.table_elements.specs.Found as spec;
ghost use Rattle.table_elements.specs.Names as names;

use crate::conditions::check_scope;
use crate::names::{test_among, test_base, test_foreign};
use cat_items::{Catalogue, EditError, Who};
use edit_conditions::condition_of;
use name_scopes::Scope;
use sql_tree::{Items, TableConstraintKind};
use std::alloc::Global;
use table_parts::Part;
use table_work::Work;
use view_deps::ResolvedExpr;

/// What the condition of a constraint comes to, if it has one, or its first name that doesn't stand.
fn found_of(
    alloc: Global,
    c: &Catalogue,
    who: &Who,
    w: &Work,
    scope: &Scope,
    kind: &TableConstraintKind,
) -> Result<Option<ResolvedExpr>, EditError>
    requires { scope.now ≡ conditions.check_scope who.now w.now }
    ensures { IsTested (names.unknown_in_kind c.now.items who.now w.now kind.now) (spec.IsFoundOf c.now.items who.now w.now kind.now) result }
{
    match kind {
        TableConstraintKind::PrimaryKey(columns) | TableConstraintKind::Unique(columns) => {
            test_among(&w.columns, &w.table, columns)?;
            Ok(None)
        }
        TableConstraintKind::ForeignKey {
            columns,
            references,
        } => {
            test_foreign(alloc, c, who, w, columns, references)?;
            Ok(None)
        }
        TableConstraintKind::Check(condition) => condition_of(alloc, c, scope, condition),
    }
}

/// Tests the names of a part, and puts what the condition of a constraint comes to behind those before it.
fn push_found(
    alloc: Global,
    c: &Catalogue,
    who: &Who,
    w: &Work,
    scope: &Scope,
    found: &mut Items<Option<ResolvedExpr>>,
    part: &Part,
) -> Result<(), EditError>
    requires { scope.now ≡ conditions.check_scope who.now w.now }
    ensures { IsTested (names.unknown_in_part c.now.items who.now w.now part.now) (λ done. spec.AddsFound c.now.items who.now w.now part.now found.old found.new) result }
{
    match part {
        Part::Column(definition) => test_base(c, who, &definition.sort),
        Part::Constraint(constraint) => {
            let one = found_of(alloc, c, who, w, scope, &constraint.kind)?;
            found.push(one)?;
            Ok(())
        }
    }
}

/// What the conditions of the constraints come to, constraint by constraint; or the first name in the parts that doesn't stand, part by
/// part: `UnknownName`, or of a condition `Ambiguous` too. `Memory` is want of memory.
pub fn found_in_parts(
    alloc: Global,
    c: &Catalogue,
    who: &Who,
    w: &Work,
    parts: &Items<Part>,
) -> Result<Items<Option<ResolvedExpr>>, EditError>
    ensures { IsTested (names.unknown_in_parts c.now.items who.now w.now parts.now) (spec.AreFoundOf c.now.items who.now w.now (constraints_of parts.now)) result }
{
    let scope = check_scope(alloc, who, w)?;
    let mut found = Items::new(alloc);
    for part in parts.as_slice() {
        push_found(alloc, c, who, w, &scope, &mut found, part)?;
    }
    Ok(found)
}
