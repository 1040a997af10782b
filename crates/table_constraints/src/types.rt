//! Types of columns and constraints.

ghost use Rattle.std.specs.Prelude.{◌≡◌, ◌↔◌, ◌∷◌, [], length, IfOk, IsTrue};
ghost use Rattle.std.specs.List.{Any};
ghost use Rattle.edit_rules.specs.First.{HasPassed};
ghost use Rattle.table_elements.specs.Found.{AreFoundFor, IsFoundOf};
ghost use Rattle.table_constraints.specs.Rules as rules;

use cat_items::{Catalogue, EditError, Refusal, Who};
use sql_tree::{Items, TableConstraintKind};
use std::alloc::{AllocError, Global};
use table_names::NamedConstraint;
use table_parts::Part;
use table_types::{has_any_misfit, is_foreign_misfit};
use table_work::Work;
use view_deps::ResolvedExpr;

/// Whether a constraint is a foreign key between columns of two classes, or a check whose condition isn't BOOLEAN.
fn is_untyped(
    alloc: Global,
    c: &Catalogue,
    who: &Who,
    w: &Work,
    constraint: &NamedConstraint,
    found: &Option<ResolvedExpr>,
) -> Result<bool, AllocError>
    requires { IsFoundOf c.now.items who.now w.now constraint.now.kind found.now }
    ensures { IfOk result (λ untyped. IsTrue untyped ↔ rules.IsUntyped c.now.items who.now w.now constraint.now) }
{
    match &constraint.kind {
        TableConstraintKind::PrimaryKey(_) => Ok(false),
        TableConstraintKind::Unique(_) => Ok(false),
        TableConstraintKind::ForeignKey {
            columns,
            references,
        } => is_foreign_misfit(alloc, c, who, w, columns, references),
        TableConstraintKind::Check(_) => Ok(found.is_none()),
    }
}

/// Whether one of these constraints is.
fn has_any_untyped(
    alloc: Global,
    c: &Catalogue,
    who: &Who,
    w: &Work,
    named: &Items<NamedConstraint>,
    found: &Items<Option<ResolvedExpr>>,
) -> Result<bool, AllocError>
    requires found { AreFoundFor c.now.items who.now w.now named.now found.now }
    requires length { length found.now ≡ length named.now }
    ensures { IfOk result (λ untyped. IsTrue untyped ↔ Any (rules.IsUntyped c.now.items who.now w.now) named.now) }
{
    let (named, found) = (named.as_slice(), found.as_slice());
    for at in 0..named.len() {
        if is_untyped(alloc, c, who, w, &named[at], &found[at])? {
            return Ok(true);
        }
    }
    Ok(false)
}

/// Refuses a default of another class than its column (SQL:2003 part 2, 11.5), a foreign key between columns of two classes (11.8) and a
/// condition that isn't BOOLEAN (11.9): `TypeMismatch`. `Memory` is want of memory.
pub fn test_types(
    alloc: Global,
    c: &Catalogue,
    who: &Who,
    w: &Work,
    parts: &Items<Part>,
    named: &Items<NamedConstraint>,
    found: &Items<Option<ResolvedExpr>>,
) -> Result<(), EditError>
    requires { AreFoundFor c.now.items who.now w.now named.now found.now }
    ensures { HasPassed (rules.type_mismatch c.now.items who.now w.now parts.now named.now ∷ []) result }
{
    if has_any_misfit(c, who, parts)? {
        return Err(EditError::Refused(Refusal::TypeMismatch));
    }
    if has_any_untyped(alloc, c, who, w, named, found)? {
        return Err(EditError::Refused(Refusal::TypeMismatch));
    }
    Ok(())
}
