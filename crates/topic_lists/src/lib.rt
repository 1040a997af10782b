//! Topics as lists of keys: of all that an item depends on, and of all that is asked for it.
#![tactic(auto)]

mod acting;
mod beside;
mod carried;
mod each;
mod granted;
mod lists;
mod named;
mod own;
mod pushing;
mod rights;
mod sought;

pub use lists::{put_asked, topics};
