//! The types of what is typed are types: laws over the definitions of types and pieces alone.
#![tactic(auto)]

mod laws;

pub use laws::{columns_of_queries_have_types, good_catalogues_have_types};
