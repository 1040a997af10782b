//! Names that stand in the standard.

ghost use Rattle.std.specs.Prelude.{◌≡◌, IfOk, IsTrue};
ghost use Rattle.shown_items.specs.FixedNames.{is_plain};

use sql_tree::Name;
use std::alloc::{AllocError, Global};

/// The name of these bytes, which are few and plain.
pub fn fixed_name(alloc: Global, bytes: &[u8]) -> Result<Name, AllocError>
    requires { IsTrue (is_plain bytes.now) }
    ensures { IfOk result (λ name. name ≡ bytes.now) }
{
    match Name::of(alloc, bytes)? {
        Some(name) => Ok(name),
        None => unreachable!(),
    }
}
