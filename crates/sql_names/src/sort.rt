//! Data types and defaults.

ghost use Rattle.std.specs.Prelude.{◌≡◌, ◌↔◌, IfOk, IsTrue};

use crate::copies::EqualCopy;
use crate::name::Name;
use crate::sameness::Same;
use crate::text::Text;
use std::alloc::{AllocError, Global};

/// A data type. Lengths are 1 to 1,000,000, precisions 1 to 38, scales 0 to the precision, and those of
/// TIME and TIMESTAMP 0 to 9; the grammar keeps these bounds and puts in the numbers that are left out.
#[derive(Clone, Copy, PartialEq, Eq)]
pub enum SqlType {
    Character { length: u32 },
    CharacterVarying { length: u32 },
    Numeric { precision: u32, scale: u32 },
    Decimal { precision: u32, scale: u32 },
    Smallint,
    Integer,
    Bigint,
    Boolean,
    Date,
    Time { precision: u32 },
    Timestamp { precision: u32 },
}

/// A value of the session or the clock.
#[derive(Clone, Copy, PartialEq, Eq)]
pub enum Special {
    CurrentUser,
    CurrentDate,
    CurrentTime,
    CurrentTimestamp,
}

/// The value after DEFAULT.
#[derive(Drop)]
pub enum Default {
    /// A literal, without its quotes and undoubled.
    Literal(Text),
    /// A number, as it is written.
    Number { minus: bool, text: Text },
    True,
    False,
    Null,
    Special(Special),
}

/// A parameter of a routine.
#[derive(Drop)]
pub struct Param {
    pub name: Name,
    pub sort: SqlType,
}

impl Default {
    /// An equal value.
    pub fn copy(&self) -> Result<Default, AllocError>
        ensures { IfOk result (λ copy. copy ≡ self.now) }
    {
        match self {
            Default::Literal(part) => Ok(Default::Literal(part.copy()?)),
            Default::Number { minus, text } => Ok(Default::Number {
                minus: *minus,
                text: text.copy()?,
            }),
            Default::True => Ok(Default::True),
            Default::False => Ok(Default::False),
            Default::Null => Ok(Default::Null),
            Default::Special(part) => Ok(Default::Special(*part)),
        }
    }
}

impl EqualCopy for Default {
    fn equal_copy(&self, _alloc: Global) -> Result<Default, AllocError> {
        self.copy()
    }
}

impl Param {
    /// An equal value.
    pub fn copy(&self) -> Result<Param, AllocError>
        ensures { IfOk result (λ copy. copy ≡ self.now) }
    {
        Ok(Param {
            name: self.name.copy()?,
            sort: self.sort,
        })
    }
}

impl EqualCopy for Param {
    fn equal_copy(&self, _alloc: Global) -> Result<Param, AllocError> {
        self.copy()
    }
}

impl Default {
    /// Whether the two are equal in all parts.
    pub fn same(&self, other: &Default) -> bool
        ensures { IsTrue result ↔ (self.now ≡ other.now) }
    {
        match (self, other) {
            (Default::Literal(a), Default::Literal(b)) => a.same(b),
            (
                Default::Number { minus, text },
                Default::Number {
                    minus: other_minus,
                    text: other_text,
                },
            ) => { minus == other_minus && text.same(other_text) }
            (Default::True, Default::True) => true,
            (Default::False, Default::False) => true,
            (Default::Null, Default::Null) => true,
            (Default::Special(a), Default::Special(b)) => a == b,
            _ => false,
        }
    }
}

impl Same for Default {
    fn same_as(&self, other: &Default) -> bool {
        self.same(other)
    }
}

impl Param {
    /// Whether the two are equal in all parts.
    pub fn same(&self, other: &Param) -> bool
        ensures { IsTrue result ↔ (self.now ≡ other.now) }
    {
        self.name.same(&other.name) && self.sort == other.sort
    }
}

impl Same for Param {
    fn same_as(&self, other: &Param) -> bool {
        self.same(other)
    }
}
