//! Warnings.

/// What a statement that was done warns of (SQL:2003 part 2, 23.1, class 01).
#[derive(Clone, Copy, Debug, PartialEq, Eq)]
pub enum Warning {
    /// 01006: nothing was revoked.
    NotRevoked,
    /// 01007: not all was granted.
    NotGranted,
}
