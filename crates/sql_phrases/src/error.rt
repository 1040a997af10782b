use std::alloc::AllocError;
use thiserror::Error;

/// Why words have no tree.
#[derive(Clone, Copy, Debug, PartialEq, Eq, Error)]
pub enum GrammarError {
    /// The words are those of no statement of the grammar.
    #[error("syntax error")]
    Syntax,
    /// The first words are those of a statement of SQL that the profile leaves out.
    #[error("statement not in the profile")]
    NotInProfile,
    #[error("out of memory")]
    Memory,
}

impl From<AllocError> for GrammarError {
    ghost use Rattle.std.specs.Prelude.{◌≡◌};
    ghost use Rattle.sql_phrases.specs.declared.error.GrammarError.TheVariants.{Memory};

    ghost from_gives = { λ _ e. e ≡ Memory };

    fn from(_: AllocError) -> GrammarError {
        GrammarError::Memory
    }
}
