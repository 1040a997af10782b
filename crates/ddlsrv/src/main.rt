//! The server's program: it makes the real source, sink and listener, and calls `top`.
#![tactic(auto)]

use ddl_service::{Status, top};
use std::alloc::{Alloc, Global};
use std::env::{self, Env};
use std::io;
use std::process::ExitCode;
use svc_io::{StdSink, StdSource, TcpDoor};

fn message(status: Status) -> &'static str {
    match status {
        Status::Done => "ddlsrv: done",
        Status::Usage => "ddlsrv: usage",
        Status::ReadFault => "ddlsrv: read fault",
        Status::WriteFault => "ddlsrv: write fault",
        Status::ListenFault => "ddlsrv: listen fault",
        Status::TooLong => "ddlsrv: statement or stream too long",
        Status::Unfinished => "ddlsrv: unfinished statement",
        Status::OutOfMemory => "ddlsrv: out of memory",
    }
}

// The words behind the program's name. One that isn't UTF-8 is a faulty command line.
fn words<R: Env + Alloc<A = Global>>(rt: &R) -> Result<Vec<String>, Status> {
    let words = match env::args(rt) {
        Ok(words) => words,
        Err(error) => {
            return Err(if error.kind() == io::ErrorKind::OutOfMemory {
                Status::OutOfMemory
            } else {
                Status::Usage
            });
        }
    };
    match words.skip(1).collect(rt.alloc()) {
        Ok(words) => Ok(words),
        Err(_) => Err(Status::OutOfMemory),
    }
}

fn main(rt: HostRuntime) -> ExitCode {
    let status = match words(&rt) {
        Ok(words) => {
            let mut source = StdSource::new(rt.stdin());
            let mut sink = StdSink::new(rt.stdout());
            let mut door = TcpDoor::new(&rt);
            top(&rt, rt.alloc(), &words, &mut source, &mut sink, &mut door)
        }
        Err(status) => status,
    };
    if status != Status::Done {
        // The exit status says it all where nothing can be printed.
        let _ = eprintln!(rt; "{}", message(status));
    }
    ExitCode::from(status as u8)
}
