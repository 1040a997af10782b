ghost use Rattle.std.specs.Prelude.{◌≡◌, ◌<◌, ◌≤◌, ◌+◌, ◌++◌, length, vec_len, vec_capacity};

use crate::scan::Scan;
use std::alloc::{AllocError, Global};
use std::marker::Model;

/// The most bytes that are held since the last end of a statement.
pub const MOST_BYTES: usize = 65_536;

/// What a piece of the stream did.
#[derive(Clone, Copy, Debug, PartialEq, Eq)]
pub enum Fed {
    /// The first `used` bytes of the piece end a statement, and the next feed begins another.
    Statement { used: usize },
    /// The whole piece was taken, and no statement ends in it.
    NeedMore,
    /// A byte came where 65,536 bytes since the last end hold no end.
    TooLong,
}

/// Divides a stream of bytes, which comes in pieces of any length, into the texts of statements.
///
/// A statement ends at a semicolon that stands outside of literals, quoted names, comments, BEGIN .. END and CASE .. END
/// (the lexical elements of SQL:2003, as direct SQL is read).
#[derive(Drop)]
pub struct Splitter {
    buffer: Vec<u8>,
    scan: Scan,
    ended: bool,
}

impl Model for Splitter {
    ghost use Rattle.std.specs.Prelude.{◌≡◌, ◌≤◌, false, vec_len, vec_capacity};
    ghost use Rattle.sql_words.specs.Scanning.{scan_of};
    ghost use Rattle.sql_words.specs.Split.{Split, split_of};

    ghost Value = { Split };

    ghost view = { λ s. split_of s.ended s.buffer.items };

    ghost invariant = { λ s. (vec_len s.buffer ≤ 65536) × (65536 ≤ vec_capacity s.buffer) × (s.ended ≡ false → s.scan ≡ scan_of s.buffer.items) };
}

impl Splitter {
    ghost use Rattle.std.specs.Prelude.{◌≡◌, [], None, Some, IfOk, IsSome};
    ghost use Rattle.sql_words.specs.Stream.{is_blank};
    ghost use Rattle.sql_words.specs.Splitting.{Feeds};

    /// A splitter at the beginning of a stream, with room for 65,536 bytes.
    pub fn new(alloc: Global) -> Result<Splitter, AllocError>
        ensures { IfOk result (λ s. s ≡ record { held = []; last = None }) }
    {
        Ok(Splitter {
            buffer: Vec::with_capacity(alloc, MOST_BYTES)?,
            scan: Scan::start(),
            ended: false,
        })
    }

    /// Takes the piece up to the next end of a statement. It takes no memory.
    ///
    /// Once it answers `TooLong`, it does so at every piece that has a byte.
    pub fn feed(&mut self, piece: &[u8]) -> Fed
        ensures { Feeds self.old piece.now result self.new }
    {
        if self.ended {
            self.buffer.clear();
            self.scan = Scan::start();
            self.ended = false;
        }
        let room = MOST_BYTES - self.buffer.len();
        let mut scan = self.scan;
        for (index, byte) in piece.iter().enumerate() {
            if index >= room {
                hold(&mut self.buffer, &piece[..index]);
                self.scan = scan;
                return Fed::TooLong;
            }
            if scan.ends(*byte) {
                hold(&mut self.buffer, &piece[..index]);
                self.ended = true;
                return Fed::Statement { used: index + 1 };
            }
            scan = scan.after(*byte);
        }
        hold(&mut self.buffer, piece);
        self.scan = scan;
        Fed::NeedMore
    }

    /// The text that ended with the last feed, without its semicolon. It takes no memory.
    pub fn statement(&self) -> &[u8]
        requires { IsSome self.now.last }
        ensures { self.now.last ≡ Some result.now }
    {
        &self.buffer
    }

    /// Whether what came since the last end holds no word: only white space, closed bracketed comments and simple comments.
    /// It takes no memory.
    #[tactic(auto, unfolding(crate::specs::Stream::is_blank))]
    pub fn blank(&self) -> bool
        ensures { result ≡ is_blank self.now.held }
    {
        self.ended || self.scan.is_blank()
    }
}

// Holds bytes for which there is room.
fn hold(buffer: &mut Vec<u8>, bytes: &[u8])
    requires { vec_len buffer.old + length bytes.now ≤ vec_capacity buffer.old }
    ensures items { buffer.new.items ≡ buffer.old.items ++ bytes.now }
    ensures len { vec_len buffer.new ≡ vec_len buffer.old + length bytes.now }
    ensures capacity { vec_capacity buffer.old ≤ vec_capacity buffer.new }
{
    if buffer.extend_from_slice(bytes).is_err() {
        unreachable!();
    }
}
