//! Types of resolved queries and expressions, and where their aggregates stand.
#![tactic(auto)]

mod aggregates;
mod grouping;
mod tables;
mod typing;
mod whole;

pub use aggregates::{Bare, Grouping};
pub use grouping::{group_expr, group_query};
pub use typing::{type_expr, type_query};
pub use whole::{
    TypedExpr, TypedQuery, expr_type, query_types, resolve_typed_expr, resolve_typed_query,
};
