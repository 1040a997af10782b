//! Who looks, and at what.

use crate::session::Viewer;
use cat_items::Catalogue;
use schema_tables::SchemaTable;

/// A catalogue, who looks at it, and the table that is asked for.
#[derive(Clone, Copy)]
pub struct Sight<'a> {
    pub c: &'a Catalogue,
    pub viewer: Viewer<'a>,
    pub table: SchemaTable,
}
