//! What goes.

use sql_tree::{Name, Object};

/// A domain, or a schema with its domains.
#[derive(Clone, Copy)]
pub enum Gone<'a> {
    Domain(&'a Object),
    Schema(&'a Name),
}
