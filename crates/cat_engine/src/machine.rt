//! The book as a machine that sessions share.

ghost use Rattle.std.specs.Prelude.{◌≡◌, ◌≤◌, ◌^◌, length};
ghost use Rattle.cat_engine.specs.Histories.{IsReached};
ghost use Rattle.cat_engine.specs.Steps.{StepOrNone};

use crate::book::Book;
use crate::reply::Reply;
use cat_items::Limits;
use catalog_lock::Machine;
use item_index::Steps;
use std::collections::LinkedList;
use std::marker::Brand;
use std::sync::ledger::{Blank, Ledger};

/// What a book is made with: its users' names and its limits. No value of it is made; it is for contracts alone.
pub struct Origin {
    pub users: LinkedList<LinkedList<u8>>,
    pub limits: Limits,
}

// Answers a text, with a count of look-ups of its own.
fn apply<L: Ledger>(book: &mut Book, session: u32, text: &[u8], blank: Blank) -> Reply
    requires name { blank.name ≡ L.name }
    requires parts { blank.parts ≡ L.parts }
    requires whole { blank.parts ≡ 1 }
    requires short { length text.now ≤ 65535 }
    ensures step { StepOrNone book.old session text.now result book.new }
    ensures reached { IsReached book.old }
    ensures few { length book.new.journal ≤ 2 ^ 63 }
{
    let mut steps: Steps<L> = Steps::new(blank);
    book.apply(session, text, &mut steps)
}

impl Machine for Book {
    ghost use Rattle.std.specs.Prelude.{[]};
    ghost use Rattle.cat_engine.specs.Shared.{IsReplyAfter, IsTaken, IsUnentered, history_of, is_entered, origin_of};

    type Reply = Reply;

    type Made = Origin;

    ghost history = { history_of };

    ghost made = { origin_of };

    ghost takes = { IsTaken };

    ghost step = { IsReplyAfter };

    ghost keeps = { is_entered };

    ghost may_give = { IsUnentered };

    ghost blank = { record { users = []; limits = record { items = 0; columns = 0; journal = 0; stream = 0 } } };

    fn act(&mut self, session: u32, text: &[u8]) -> Reply {
        apply::<Brand>(self, session, text, Blank::new(1))
    }

    fn kept(reply: &Reply) -> bool {
        match reply {
            Reply::Ok | Reply::Warn(_) | Reply::Rows(_) | Reply::Refused(_) => true,
            Reply::JournalFull { .. } | Reply::OutOfMemory => false,
        }
    }
}
