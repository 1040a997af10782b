//! The server's one call: from the words of the command line to its status.
#![tactic(auto)]

mod command_line;
mod finish;
mod regular;
mod start;

pub use sample_runs::{
    Book, Ended, Over, Ran, Reply, Served, Status, run_script, sample, serve, serve_session,
    write_reply,
};
pub use start::top;
