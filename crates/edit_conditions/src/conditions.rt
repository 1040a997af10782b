//! What a condition comes to.

ghost use Rattle.std.specs.Prelude.{◌≡◌, ◌∷◌, [], false};
ghost use Rattle.edit_rules.specs.First.{IsTested};
ghost use Rattle.statement_steps.specs.Resolving.{unresolved_name};
ghost use Rattle.edit_conditions.specs.Conditions.{IsFound, outcome_in};

use cat_items::{Catalogue, EditError};
use constraint_deps::resolve_cond;
use name_scopes::Scope;
use sql_tree::Expr;
use statement_steps::by_names;
use std::alloc::Global;
use view_deps::ResolvedExpr;

/// The condition of a constraint with what it needs, in a scope in which base tables alone may be named (search condition, SQL:2003
/// part 2, 8.20): `UnknownName` or `Ambiguous` of its first name that doesn't stand for one thing, `Memory` is want of memory. None where
/// all names stand and it isn't BOOLEAN: that is told later, behind owners and names that are taken.
pub fn condition_of(
    alloc: Global,
    c: &Catalogue,
    scope: &Scope,
    condition: &Expr,
) -> Result<Option<ResolvedExpr>, EditError>
    requires { scope.now.views ≡ false }
    ensures { IsTested (unresolved_name (outcome_in c.now.items scope.now condition.now) ∷ []) (IsFound (outcome_in c.now.items scope.now condition.now)) result }
{
    by_names(resolve_cond(alloc, c, scope, condition))
}
