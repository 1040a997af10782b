//! Queries and expressions that are resolved by a catalogue, with what they need.
#![tactic(auto)]

mod by_name;
mod catalogue;
mod found;
mod resolve;

pub use catalogue::CatalogueNames;
pub use resolve::{Resolved, ResolvedExpr, resolve_expr, resolve_query};
pub use tree_needs::{needs_of_expr, needs_of_query};
