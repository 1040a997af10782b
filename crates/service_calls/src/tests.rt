mod serving;

ghost use Rattle.std.specs.Prelude.{◌≡◌, [], IfOk};

use cat_items::Limits;
use ddl_service::{Book, Status, top};
use sql_tree::Name;
use std::alloc::{AllocError, Global};
use std::test::Fail;
use svc_io::{MemListener, MemSink, MemSource};

fn book(alloc: Global, limits: Limits) -> Result<Book, Fail>
    ensures { IfOk result (λ book. book.journal ≡ []) }
{
    let alice = Name::of(alloc, b"ALICE")?.ok_or("no name")?;
    let mut users = Vec::new(alloc);
    users.push(alice)?;
    Ok(Book::new(alloc, &users, limits)?)
}

/// The words `script`, `--users` and a list.
fn command_line(alloc: Global, list: &str) -> Result<Vec<String>, AllocError> {
    ["script", "--users", list]
        .iter()
        .map(|word| String::from_str(alloc, word))
        .try_collect(alloc)
}

const INPUT: [&[u8]; 2] = [b"CONNECT TO 'D' USER 'A';", b" CREATE SCHEMA S;"];

/// The take and the put that fail, how much room the output has, and what is written of the replies to the input.
const RUNS: [(u64, u64, usize, &str, Status); 6] = [
    (9, 9, 99, "OK\nOK\n", Status::Done),
    (1, 9, 99, "", Status::ReadFault),
    (2, 9, 99, "OK\n", Status::ReadFault),
    (3, 9, 99, "OK\nOK\n", Status::ReadFault),
    (9, 3, 99, "OK\n", Status::WriteFault),
    (9, 9, 4, "OK\nO", Status::WriteFault),
];

fn source_of(alloc: Global, failing: u64) -> Result<MemSource, AllocError> {
    let mut pieces = Vec::new(alloc);
    for piece in INPUT {
        pieces.push(piece.to_vec(alloc)?)?;
    }
    Ok(MemSource::new(pieces, [failing].to_vec(alloc)?))
}

#[test]
fn faults_end_a_script(rt: HostRuntime) -> Result<(), Fail> {
    let alloc = rt.alloc();
    let words = command_line(alloc, "A")?;
    let mut listener = MemListener::new(alloc, Vec::new(alloc), Vec::new(alloc))?;
    for (take, put, room, output, status) in RUNS {
        let mut source = source_of(alloc, take)?;
        let mut sink = MemSink::new(alloc, 2, room, [put].to_vec(alloc)?)?;
        let ended = top(&rt, alloc, &words, &mut source, &mut sink, &mut listener);
        let wanted = (status, output.as_bytes());
        assert_eq!(rt; (ended, sink.bytes()), wanted, "{take} {put} {room}");
    }
    Ok(())
}
