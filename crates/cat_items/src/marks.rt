//! Marks on the places of a catalogue.

ghost use Rattle.std.specs.Prelude.{◌≡◌, ◌<◌, true, false, length, slice_set, slice_index_or, replicate, IfOk};

use crate::catalogue::Catalogue;
use std::alloc::{AllocError, Global};
use std::marker::Model;

/// A set of places of a catalogue, which contracts see as one truth value for each place.
#[derive(Drop)]
pub struct Marks {
    marked: Vec<bool>,
}

impl Model for Marks {
    ghost use Rattle.std.specs.Prelude.{List, Bool};

    ghost Value = { List Bool };

    ghost view = { λ m. m.marked.items };
}

impl Marks {
    /// No place of this catalogue is marked.
    pub fn new(alloc: Global, c: &Catalogue) -> Result<Marks, AllocError>
        ensures { IfOk result (λ m. m ≡ replicate (length c.now.items) false) }
    {
        let marked = vec![in alloc; false; c.items().len()]?;
        Ok(Marks { marked })
    }

    /// How many places there are.
    pub fn len(&self) -> usize
        ensures { result ≡ length self.now }
    {
        self.marked.len()
    }

    /// One truth value for each place. It takes no memory.
    pub fn as_slice(&self) -> &[bool]
        ensures { result.now ≡ self.now }
    {
        self.marked.as_slice()
    }

    /// Marks this place, and no other. It takes no memory.
    pub fn mark(&mut self, at: usize)
        requires { at < length self.old }
        ensures { self.new ≡ slice_set self.old at true }
    {
        self.marked[at] = true;
    }

    /// Whether this place is marked.
    pub fn marked(&self, at: usize) -> bool
        requires { at < length self.now }
        ensures { result ≡ slice_index_or self.now at false }
    {
        self.marked[at]
    }
}
