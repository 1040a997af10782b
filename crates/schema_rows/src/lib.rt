//! The rows that shown descriptors put into schema tables.
#![tactic(auto)]

mod cells;
mod columns;
mod constraints;
mod objects;
mod rights;
mod roles;
mod rows;
mod usages;

pub use rows::rows_of;
