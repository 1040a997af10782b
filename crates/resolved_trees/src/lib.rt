//! What resolves is resolved: laws over the definitions of names, types and pieces alone.
#![tactic(auto)]

mod laws;

pub use laws::{
    good_catalogues_have_columns, resolved_expressions_are_resolved, resolved_queries_are_resolved,
};
