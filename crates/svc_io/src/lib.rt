//! Sources and sinks of bytes, lines that are both, and listeners that give them as connections.
//!
//! Each object counts its faults, in 64 bits, and the count stands still at their end. An object in
//! memory tells its bytes and connections, so that contracts speak of them. The others stand over
//! standard input, standard output and TCP on the loopback address, and tell none.
#![tactic(auto)]

mod calls;
mod connections;
mod memory;
mod put;
mod standard;
mod tcp;
mod traits;

pub use connections::{MemConn, MemListener};
pub use memory::{MemSink, MemSource};
pub use put::put_all;
pub use standard::{Nowhere, StdSink, StdSource};
pub use tcp::{TcpConn, TcpDoor};
pub use traits::{Failed, Line, Listener, Sink, Source};
