//! Tests of what statements make of a catalogue: by its board, and by the plain program, which goes over the whole catalogue.
#![tactic(auto)]

#[cfg(test)]
mod plain;
#[cfg(test)]
mod reading;
#[cfg(test)]
mod scripts;
#[cfg(test)]
mod tests;
#[cfg(test)]
mod walk;
