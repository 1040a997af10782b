//! Tests of the calls below the language: bytes in and out, a machine that threads share, and the index by number.
#![tactic(auto)]

#[cfg(test)]
mod tests;
