//! The data types of values and operations, and of the parts of a tree where the types of their own parts are known.
#![tactic(auto)]

mod parts;
mod rules;

pub use parts::{
    added_to, aggregated, between, boolean, called, case_arms, cast_to, compared, guarded,
    joined_columns, like, listed, logical, multiplied_by, negated, selected_where, single, tested,
    there, type_reference, unless_negated, with_else,
};
pub use rules::{is_boolean, literal_type, number_type, one_class, special_type};
