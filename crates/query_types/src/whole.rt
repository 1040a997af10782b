//! Names, then types.

ghost use Rattle.std.specs.Prelude.{◌≡◌, IfOk};
ghost use Rattle.name_scopes.specs.Outcomes.{Answers};
ghost use Rattle.query_types.specs.Whole as spec;

use crate::grouping::{group_expr, group_query};
use crate::typing::{type_expr, type_query};
use name_scopes::{Dictionary, Frames, ResolveError, Scope};
use query_names::{resolve_expr, resolve_query};
use sql_tree::{Expr, Items, Query, SqlType};
use std::alloc::{AllocError, Global};

/// A resolved expression and its type.
#[derive(Drop)]
pub struct TypedExpr {
    pub expr: Expr,
    pub sort: SqlType,
}

/// A resolved query and the types of its columns.
#[derive(Drop)]
pub struct TypedQuery {
    pub query: Query,
    pub sorts: Items<SqlType>,
}

/// The type of a resolved expression that is no select item.
#[tactic(auto, unfolding(crate::specs::Whole::expr_type))]
pub fn expr_type<D: Dictionary>(
    alloc: Global,
    dictionary: &D,
    scope: &Scope,
    expr: &Expr,
) -> Result<Option<SqlType>, AllocError>
    ensures { IfOk result (λ r. r ≡ spec.expr_type (D.known dictionary.now) scope.now expr.now) }
{
    let grouping = group_expr(alloc, expr)?;
    if !grouping.right || grouping.own {
        return Ok(None);
    }
    let mut frames = Frames::new(alloc);
    type_expr(alloc, dictionary, scope, &mut frames, expr)
}

/// The types of the columns of a resolved query.
#[tactic(auto, unfolding(crate::specs::Whole::query_types))]
pub fn query_types<D: Dictionary>(
    alloc: Global,
    dictionary: &D,
    scope: &Scope,
    query: &Query,
) -> Result<Option<Items<SqlType>>, AllocError>
    ensures { IfOk result (λ r. r ≡ spec.query_types (D.known dictionary.now) scope.now query.now) }
{
    let grouping = group_query(alloc, query)?;
    if !grouping.right {
        return Ok(None);
    }
    let mut frames = Frames::new(alloc);
    type_query(alloc, dictionary, scope, &mut frames, query)
}

/// An expression that is no select item, with its type.
#[tactic(auto, unfolding(crate::specs::Whole::resolved_expr))]
pub fn resolve_typed_expr<D: Dictionary>(
    alloc: Global,
    dictionary: &D,
    scope: &Scope,
    expr: &Expr,
) -> Result<TypedExpr, ResolveError>
    ensures { Answers (spec.resolved_expr (D.known dictionary.now) scope.now expr.now) result }
{
    let mut frames = Frames::new(alloc);
    let expr = resolve_expr(alloc, dictionary, scope, &mut frames, expr)?;
    match expr_type(alloc, dictionary, scope, &expr)? {
        None => Err(ResolveError::TypeMismatch),
        Some(sort) => Ok(TypedExpr { expr, sort }),
    }
}

/// A query with the types of its columns.
#[tactic(auto, unfolding(crate::specs::Whole::resolved_query))]
pub fn resolve_typed_query<D: Dictionary>(
    alloc: Global,
    dictionary: &D,
    scope: &Scope,
    query: &Query,
) -> Result<TypedQuery, ResolveError>
    ensures { Answers (spec.resolved_query (D.known dictionary.now) scope.now query.now) result }
{
    let mut frames = Frames::new(alloc);
    let query = resolve_query(alloc, dictionary, scope, &mut frames, query)?;
    match query_types(alloc, dictionary, scope, &query)? {
        None => Err(ResolveError::TypeMismatch),
        Some(sorts) => Ok(TypedQuery { query, sorts }),
    }
}
