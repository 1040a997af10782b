//! Tests of the calls that answer statements: shared books and servers, and inputs and outputs that fail.
#![tactic(auto)]

#[cfg(test)]
mod tests;
