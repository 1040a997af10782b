//! Tests of the language: the words of texts, statement ends, and what texts are read and printed as.
#![tactic(auto)]

#[cfg(test)]
mod shop;
#[cfg(test)]
mod statements;
#[cfg(test)]
mod tests;
#[cfg(test)]
mod texts;
