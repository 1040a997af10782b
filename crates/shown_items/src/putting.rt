//! Rows of one descriptor.

ghost use Rattle.std.specs.Prelude.{◌≡◌, OnOk, IsTrue, false};
ghost use Rattle.schema_tables.specs.Seen as lent;
ghost use Rattle.schema_tables.specs.TableRows.{IsBeside};
ghost use Rattle.shown_items.specs.Faces.{AddsRows, shown_to};

use crate::sight::Sight;
use cat_items::Row;
use schema_rows::rows_of;
use schema_tables::{Beside, Seen};
use std::alloc::{AllocError, Global};

/// Puts the rows of a descriptor behind those of `out`, if it is shown.
pub fn put_where(
    alloc: Global,
    out: &mut Vec<Row>,
    sight: Sight<'_>,
    may: bool,
    seen: Seen<'_>,
    beside: Beside,
) -> Result<(), AllocError>
    requires { IsTrue may → IsBeside (shown_to sight) (lent.shown seen) (lent.beside_of beside) }
    ensures { OnOk result (AddsRows (shown_to sight.entry) (λ s. IsTrue may × (s ≡ lent.shown seen.entry)) sight.entry.table out.old.items out.new.items) }
{
    if may {
        rows_of(alloc, out, seen, beside, sight.table)
    } else {
        Ok(())
    }
}

/// Nothing beside it that a table speaks of.
pub fn alone() -> Beside
    ensures same { result.same ≡ false }
    ensures option { result.option ≡ false }
    ensures role { result.role ≡ false }
{
    Beside {
        same: false,
        option: false,
        role: false,
    }
}
