//! An index of keys by number, with links both ways between the numbers.
#![tactic(auto)]

mod filing;
mod index;
mod laws;
mod lists;
mod spans;
mod steps;
mod unlinking;

pub use index::Index;
pub use laws::a_change_undone_in_reverse;
pub use steps::Steps;
