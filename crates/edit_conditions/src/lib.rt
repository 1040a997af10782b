//! Conditions of constraints in statements: refused by their names first, and later where they have no type.
#![tactic(auto)]

mod conditions;
mod laws;

pub use conditions::condition_of;
pub use laws::conditions_are_resolved;
