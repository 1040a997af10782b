//! The printed text of names, types, defaults, queries, expressions and bodies.
#![tactic(auto)]

mod bodies;
mod exprs;

pub use bodies::{print_body, put_body};
pub use exprs::{print_expr, print_query, put_expr, put_query};
pub use sql_spelling::{
    print_name, put_default, put_literal, put_name, put_object, put_object_name, put_reference,
    put_special, put_type,
};
