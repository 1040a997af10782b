//! A sample: a generated script that is run on a book of its own, and how it went, in numbers.
#![tactic(auto)]

mod kinds;
mod run;
mod summary;

pub use run::sample;
pub use sessions::{
    Book, Ended, Over, Ran, Reply, Served, Status, listen, run_script, serve, serve_session,
    write_reply,
};
