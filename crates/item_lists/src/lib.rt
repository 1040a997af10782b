//! The items of a list in order that stand, or don't stand, in another: one walk along both.
#![tactic(auto)]

mod choosing;
mod merging;
mod walking;

pub use choosing::{chosen_as, without};
pub use merging::merged;
pub use walking::stands_from;
