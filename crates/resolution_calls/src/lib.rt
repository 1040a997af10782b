//! Tests of the calls on names, types and needs: what queries, conditions and bodies are resolved to and what they need.
#![tactic(auto)]

#[cfg(test)]
mod rows;
#[cfg(test)]
mod tests;
