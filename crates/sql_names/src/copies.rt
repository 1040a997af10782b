//! Equal copies of lists and optional parts.

ghost use Rattle.std.specs.Prelude.{◌≡◌, IfOk};

use crate::name::Name;
use sqlite_items::{Boxed, Items};
use std::alloc::{AllocError, Global};

/// A value that has equal copies.
pub trait EqualCopy: Drop {
    /// An equal value.
    fn equal_copy(&self, alloc: Global) -> Result<Self, AllocError>
        ensures { IfOk result (λ copy. copy ≡ self.now) };
}

impl<T: EqualCopy> EqualCopy for Items<T> {
    fn equal_copy(&self, alloc: Global) -> Result<Items<T>, AllocError> {
        let mut copies = Items::new(alloc);
        for one in self.as_slice() {
            copies.push(one.equal_copy(alloc)?)?;
        }
        Ok(copies)
    }
}

impl<T: EqualCopy> EqualCopy for Option<T> {
    fn equal_copy(&self, alloc: Global) -> Result<Option<T>, AllocError> {
        match self {
            None => Ok(None),
            Some(one) => Ok(Some(one.equal_copy(alloc)?)),
        }
    }
}

impl EqualCopy for Name {
    fn equal_copy(&self, _alloc: Global) -> Result<Name, AllocError> {
        self.copy()
    }
}

/// An equal name, where there is one.
pub fn copy_optional_name(name: &Option<Name>) -> Result<Option<Name>, AllocError>
    ensures { IfOk result (λ copy. copy ≡ name.now) }
{
    match name {
        None => Ok(None),
        Some(name) => Ok(Some(name.copy()?)),
    }
}

impl<T: EqualCopy> EqualCopy for Boxed<T> {
    fn equal_copy(&self, alloc: Global) -> Result<Boxed<T>, AllocError> {
        let copy = self.get().equal_copy(alloc)?;
        Boxed::new(alloc, copy)
    }
}
