//! Why names and types are refused.

ghost use Rattle.std.specs.Prelude.{◌≡◌};
ghost use Rattle.name_scopes.specs.declared.error.ResolveError.TheVariants.{Memory};

use sql_tree::{Name, Path};
use std::alloc::AllocError;

/// Why there is no resolved tree.
#[derive(Drop)]
pub enum ResolveError {
    /// The first name that doesn't stand: an object as two names, a reference as it is written.
    UnknownName(Path),
    /// The first name that stands for two columns, or the qualifier that stands for two tables.
    Ambiguous(Name),
    /// All names stand, and there is no type.
    TypeMismatch,
    Memory,
}

impl From<AllocError> for ResolveError {
    ghost from_gives = { λ _ error. error ≡ Memory };

    fn from(_error: AllocError) -> ResolveError {
        ResolveError::Memory
    }
}
