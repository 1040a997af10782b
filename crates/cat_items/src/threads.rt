//! What may go to other threads.

use crate::catalogue::Catalogue;
use crate::item::Item;

fn may_be_shared<T: Send + Sync>(_x: &T) {}

/// Compiles where items may go to other threads.
pub fn item_may_be_shared(x: &Item) {
    may_be_shared(x);
}

/// Compiles where catalogues may go to other threads.
pub fn catalogue_may_be_shared(x: &Catalogue) {
    may_be_shared(x);
}
