//! Objects of a schema.

ghost use Rattle.std.specs.Prelude.{◌≡◌, ◌↔◌, IfOk, IsTrue};

use crate::name::Name;
use std::alloc::AllocError;

/// The full name of an object: its schema's name, then its own. Ordered by these.
#[derive(PartialEq, Eq, PartialOrd, Ord, Hash, Drop)]
pub struct Object {
    pub schema: Name,
    pub name: Name,
}

const _: () = prove!(size_of::<Object>() == 16);

impl Object {
    /// Whether the two have the same names, as `==` says.
    pub fn same(&self, other: &Object) -> bool
        ensures { IsTrue result ↔ (self.now ≡ other.now) }
    {
        self.schema.same(&other.schema) && self.name.same(&other.name)
    }

    /// An equal object, which shares the bytes. It takes no memory; `Err` is the end of a count of owners.
    pub fn copy(&self) -> Result<Object, AllocError>
        ensures { IfOk result (λ o. o ≡ self.now) }
    {
        Ok(Object {
            schema: self.schema.copy()?,
            name: self.name.copy()?,
        })
    }
}
