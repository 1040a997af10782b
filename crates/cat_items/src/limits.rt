//! Limits.

ghost use Rattle.std.specs.Prelude.{◌≡◌};

/// How large a catalogue and a stream may grow.
#[derive(Clone, Copy, Debug, PartialEq, Eq)]
pub struct Limits {
    /// The most items of a catalogue.
    pub items: u32,
    /// The most columns of a table or a view.
    pub columns: u32,
    /// The most bytes of a journal, of which each entry holds its text's and 64 more.
    pub journal: u64,
    /// The most bytes of a stream of statements.
    pub stream: u64,
}

impl Limits {
    /// 200,000 items, 1,000 columns, a journal of 2^28 bytes and a stream of 2^30.
    pub fn standard() -> Limits
        ensures { result ≡ record { items = 200000; columns = 1000; journal = 268435456; stream = 1073741824 } }
    {
        Limits {
            items: 200_000,
            columns: 1_000,
            journal: 268_435_456,
            stream: 1_073_741_824,
        }
    }
}
