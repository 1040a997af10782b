//! Topics as keys of a board: under which an item stands, and on which it depends by name.
#![tactic(auto)]

mod keys;
mod names;
mod objects;
mod order;
mod under;

pub use keys::{TopicKey, key_of, put_topic};
pub use names::{put_far_names, put_names, put_need};
pub use order::in_order;
pub use under::homes;
