//! The tables of the Definition Schema and the views of the Information Schema.
#![tactic(auto)]

mod laws;
mod names;
mod order;
mod seen;

pub use laws::rows_are_those_of_what_is_shown;
pub use names::{DEFINITION, SchemaTable, Sort, VIEWS};
pub use order::{compare_rows, in_order};
pub use seen::{Beside, Seen, SeenColumn, SeenDomain, SeenNeeds, SeenRoutine, SeenView};
