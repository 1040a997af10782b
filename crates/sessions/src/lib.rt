//! Sessions: the statements of a stream are answered one after the other, and each reply is written. A script is a session with a book of its
//! own; a server has one on each connection, on threads of their own, and all of them share one book.
#![tactic(auto)]

mod answerer;
mod listening;
mod print;
mod script;
mod server;
mod session;
mod status;
mod threads;

pub use answerer::{Answerer, Turn};
pub use cat_engine::{Book, Reply};
pub use listening::listen;
pub use print::write_reply;
pub use script::{Ended, Ran, run_script};
pub use server::{Over, Served, serve};
pub use session::serve_session;
pub use status::Status;
