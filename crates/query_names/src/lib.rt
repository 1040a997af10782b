//! What the names in queries and expressions stand for.
#![tactic(auto)]

mod making;
mod naming;

pub use naming::{resolve_expr, resolve_query};
