//! The FROM clauses around a reference.

ghost use Rattle.std.specs.Prelude.{◌≡◌, [], ◌∷◌, ◌<◌, OnOk, slice_get, length, drop};
ghost use Rattle.std.specs.Option.{option_copied};
ghost use Rattle.name_scopes.specs.Frames as spec;

use sql_tree::{Items, Name, Object};
use std::alloc::{AllocError, Global};
use std::marker::Model;

/// A table of a FROM, and how it is known there.
#[derive(Drop)]
pub struct Tab {
    pub table: Object,
    pub known: Name,
}

/// The tables of a FROM. Those before `skip` can't be seen.
#[derive(Drop)]
pub struct Frame {
    pub skip: usize,
    pub tables: Items<Tab>,
}

/// The frames around a reference, which contracts see with the nearest first.
#[derive(Drop)]
pub struct Frames {
    frames: Items<Frame>,
}

impl Model for Frames {
    ghost use Rattle.std.specs.Prelude.{List, reverse};
    ghost use Rattle.name_scopes.specs.declared.frames.Frame.{Frame};

    ghost Value = { List Frame };

    ghost view = { λ s. reverse s.frames };
}

impl Frames {
    /// No FROM is around.
    pub fn new(alloc: Global) -> Frames
        ensures { result ≡ [] }
    {
        Frames {
            frames: Items::new(alloc),
        }
    }

    /// How many FROM clauses are around.
    pub fn len(&self) -> usize
        ensures { result ≡ length self.now }
    {
        self.frames.len()
    }

    /// The frame so many scopes outward.
    pub fn at(&self, up: usize) -> &Frame
        requires { up < length self.now }
        ensures { slice_get self.now up ≡ Some result.now }
    {
        &self.frames.as_slice()[self.frames.len() - 1 - up]
    }

    /// Goes into a SELECT with this FROM.
    pub fn push(&mut self, frame: Frame) -> Result<(), AllocError>
        ensures { OnOk result (self.new ≡ frame ∷ self.old) }
    {
        self.frames.push(frame)?;
        Ok(())
    }

    /// Leaves the nearest SELECT.
    pub fn pop(&mut self)
        ensures { self.new ≡ drop 1 self.old }
    {
        let _frame = self.frames.pop();
    }

    /// The table at this place of the FROM so many scopes outward.
    pub fn tab(&self, up: usize, at: usize) -> Option<&Tab>
        ensures { option_copied result ≡ spec.tab_at self.now up at }
    {
        if up < self.len() {
            self.at(up).tables.get(at)
        } else {
            None
        }
    }

    /// A chain begins: what stands before it can't be seen.
    pub fn begin(&mut self) -> Result<(), AllocError>
        ensures { OnOk result (self.new ≡ spec.begin self.old) }
    {
        if let Some(mut frame) = self.frames.pop() {
            frame.skip = frame.tables.len();
            self.frames.push(frame)?;
        }
        Ok(())
    }

    /// A table joins the nearest FROM.
    pub fn add(&mut self, tab: Tab) -> Result<(), AllocError>
        ensures { OnOk result (self.new ≡ spec.add tab self.old) }
    {
        if let Some(mut frame) = self.frames.pop() {
            frame.tables.push(tab)?;
            self.frames.push(frame)?;
        }
        Ok(())
    }

    /// The whole FROM can be seen.
    pub fn whole(&mut self) -> Result<(), AllocError>
        ensures { OnOk result (self.new ≡ spec.whole self.old) }
    {
        if let Some(mut frame) = self.frames.pop() {
            frame.skip = 0;
            self.frames.push(frame)?;
        }
        Ok(())
    }
}
