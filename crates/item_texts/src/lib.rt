//! Names, needs and descriptors as replies tell them: written to a sink, or as texts of their own.
#![tactic(auto)]

mod items;
mod names;
mod texts;

pub use items::{write_item, write_need};
pub use names::{write_name, write_path};
pub use texts::{item_text, need_text};
