//! Statuses.

/// How the program, or a command of it, ends. Its number is the exit status.
#[derive(Clone, Copy, Debug, PartialEq, Eq)]
pub enum Status {
    Done = 0,
    Usage = 2,
    ReadFault = 3,
    WriteFault = 4,
    ListenFault = 5,
    TooLong = 6,
    Unfinished = 7,
    OutOfMemory = 8,
}
