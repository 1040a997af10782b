//! Equality of lists and optional parts.

ghost use Rattle.std.specs.Prelude.{◌≡◌, ◌↔◌, IsTrue};

use crate::name::Name;
use sqlite_items::Items;

/// A value whose equality can be tested.
pub trait Same {
    /// Whether the two are equal in all parts.
    fn same_as(&self, other: &Self) -> bool
        ensures { IsTrue result ↔ (self.now ≡ other.now) };
}

impl<T: Same> Same for Items<T> {
    fn same_as(&self, other: &Items<T>) -> bool {
        let all = self.as_slice();
        let others = other.as_slice();
        if all.len() != others.len() {
            return false;
        }
        for at in 0..all.len() {
            if !all[at].same_as(&others[at]) {
                return false;
            }
        }
        true
    }
}

impl<T: Same> Same for Option<T> {
    fn same_as(&self, other: &Option<T>) -> bool {
        match (self, other) {
            (None, None) => true,
            (Some(a), Some(b)) => a.same_as(b),
            _ => false,
        }
    }
}

impl Same for Name {
    fn same_as(&self, other: &Name) -> bool {
        self.same(other)
    }
}
