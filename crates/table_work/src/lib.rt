//! What a statement on a table sees: columns with their types, keys, and which key REFERENCES means.
#![tactic(auto)]

mod columns;
mod described;
mod keys;
mod meant;
mod work;

pub use columns::{columns_in, columns_seen, has_column_called};
pub use described::{columns_described, columns_made, domain_of, is_domain, sort_of};
pub use keys::{copy_names, keys_in, keys_seen, own_key, own_keys};
pub use meant::{bound_key, columns_meant, meant_key};
pub use work::Work;
