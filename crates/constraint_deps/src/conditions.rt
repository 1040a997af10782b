//! Conditions with their types and needs.

ghost use Rattle.std.specs.Prelude.{◌≡◌, false, IfOk};
ghost use Rattle.sql_tree.specs.declared.rights.Action.TheVariants.{References};
ghost use Rattle.cat_items.specs.Needs.{AreNeeds, NeededByCondition};
ghost use Rattle.query_types.specs.Whole.{resolved_expr};
ghost use Rattle.view_deps.specs.Described.{known_of};
ghost use Rattle.view_deps.specs.Views.{IsResolvedExpr};
ghost use Rattle.constraint_deps.specs.Conditions.{condition};

use cat_items::{Catalogue, Need};
use name_scopes::{ResolveError, Scope};
use sql_tree::{Action, Expr, Items};
use std::alloc::{AllocError, Global};
use type_rules::is_boolean;
use view_deps::{ResolvedExpr, needs_of_expr, resolve_expr};

/// The condition of a constraint, in a scope in which base tables alone may be named, by the tables and routines of a catalogue (search
/// condition, SQL:2003 part 2, 8.20): `UnknownName` and `Ambiguous` of its first name that doesn't stand, `TypeMismatch` where all names
/// stand and it isn't BOOLEAN, `Memory` is want of memory. Its needs are REFERENCES on what it reads and EXECUTE on what it calls.
pub fn resolve_cond(
    alloc: Global,
    c: &Catalogue,
    scope: &Scope,
    expr: &Expr,
) -> Result<ResolvedExpr, ResolveError>
    requires { scope.now.views ≡ false }
    ensures { IsResolvedExpr References (condition (resolved_expr (known_of c.now.items) scope.now expr.now)) result }
{
    let resolved = resolve_expr(alloc, c, scope, Action::References, expr)?;
    if is_boolean(resolved.sort) {
        Ok(resolved)
    } else {
        Err(ResolveError::TypeMismatch)
    }
}

/// What a condition needs, resolved or not: REFERENCES on each column that it uses and EXECUTE on each routine that it calls. Sorted,
/// each once. `Err` is want of memory.
pub fn needs_of_cond(alloc: Global, expr: &Expr) -> Result<Items<Need>, AllocError>
    ensures { IfOk result (λ needs. AreNeeds needs (NeededByCondition expr.now)) }
{
    needs_of_expr(alloc, expr, Action::References)
}
