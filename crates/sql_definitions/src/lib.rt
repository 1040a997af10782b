//! The grammar of what definitions are made of: tables, domains' checks, parameters and bodies of routines.
#![tactic(auto)]

mod body;
mod condition;
mod routine;
mod table;

pub use body::acts;
pub use condition::{MOST_OPEN, check, domain_check, domain_checks};
pub use routine::{language, params};
pub use table::{column_definition, table_constraint, table_elements};
