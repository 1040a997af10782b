//! What statements do that aren't refused.

ghost use Rattle.std.specs.Prelude.{◌≡◌};
ghost use Rattle.cat_engine.specs.Effects as effects;

use crate::reply::Reply;
use catalogue_edits::Warning;
use information_schema::Rows;

/// What a statement does that isn't refused.
#[derive(Drop)]
pub enum Outcome {
    Done,
    /// It was done, and not all of it took effect.
    Warned(Warning),
    /// It asked for rows of the Information Schema, and nothing changed.
    Answered(Rows),
}

/// What is done, with this warning or with none.
pub fn outcome_of(warning: Option<Warning>) -> Outcome
    ensures { result ≡ effects.outcome_of warning }
{
    match warning {
        None => Outcome::Done,
        Some(warning) => Outcome::Warned(warning),
    }
}

/// The reply to it.
pub fn reply_of(outcome: Outcome) -> Reply
    ensures { result ≡ effects.reply_of outcome }
{
    match outcome {
        Outcome::Done => Reply::Ok,
        Outcome::Warned(warning) => Reply::Warn(warning),
        Outcome::Answered(rows) => Reply::Rows(rows),
    }
}
