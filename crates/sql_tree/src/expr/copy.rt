//! Equal copies of queries and expressions.
//!
//! A query and an expression share their parts with their copies, so that no copy goes further down than to these.

ghost use Rattle.std.specs.Prelude.{◌≡◌, IfOk};

use super::{Expr, Query};
use std::alloc::{AllocError, Global};

impl Expr {
    /// An equal value. It takes no memory, as the two share their parts; `Err` is the end of the count of owners.
    pub fn copy(&self, _alloc: Global) -> Result<Expr, AllocError>
        ensures { IfOk result (λ copy. copy ≡ self.now) }
    {
        Ok(Expr {
            any: self.any.share()?,
        })
    }
}

impl Query {
    /// An equal value. It takes no memory, as the two share their parts; `Err` is the end of the count of owners.
    pub fn copy(&self, _alloc: Global) -> Result<Query, AllocError>
        ensures { IfOk result (λ copy. copy ≡ self.now) }
    {
        Ok(Query {
            first: self.first.share()?,
            others: self.others.share()?,
        })
    }
}
