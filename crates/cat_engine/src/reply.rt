//! Replies.

use cat_items::Refusal;
use catalogue_edits::Warning;
use information_schema::Rows;

/// The answer to a statement.
#[derive(Drop)]
pub enum Reply {
    Ok,
    /// The statement was done, and not all of it took effect.
    Warn(Warning),
    /// The rows that a SELECT asked for.
    Rows(Rows),
    Refused(Refusal),
    /// The journal has no room for the statement; so many bytes are held.
    JournalFull { held: u64 },
    /// Memory ran out, and nothing changed.
    OutOfMemory,
}
