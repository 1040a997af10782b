//! What CREATE TABLE says, part by part in reading order.
#![tactic(auto)]

mod classes;
mod columns;
mod marks;
mod parts;

pub use classes::{Class, class_of, default_class, is_misfit};
pub use columns::{default_in, has_column, is_among, is_not_null};
pub use marks::{Mark, first_repeated, marks_of};
pub use parts::{Part, parts_of};
