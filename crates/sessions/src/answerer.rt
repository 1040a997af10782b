//! What answers the texts of a stream: a book of one's own, or one that sessions share.
ghost use Rattle.std.specs.Prelude.{◌≡◌, ◌≤◌, length, ⊤};
ghost use Rattle.cat_engine.specs.Steps.{StepOrNone};

use cat_engine::{Book, Reply};
use catalog_lock::{Pass, Shared};
use item_index::Steps;
use std::marker::Brand;
use std::sync::Wait;
use std::sync::ledger::{Blank, Ledger};

/// It answers texts, one after the other.
pub trait Answerer<With> {
    ghost use Rattle.std.specs.Prelude.{ℕ, List};
    ghost use Rattle.cat_engine.specs.declared.reply.Reply as replies;

    /// It may answer with this.
    ghost fits: { With → Self → Type 0 };

    /// The reply to a text, and what it is afterwards.
    ghost steps: { Self → List ℕ → replies.Reply → Self → Type 0 };

    /// Answers a statement's text, given without its semicolon.
    fn answer(&mut self, with: &With, text: &[u8]) -> Reply
        requires fits { fits with.now self.old }
        requires short { length text.now ≤ 65535 }
        ensures step { steps self.old text.now result self.new }
        ensures fits { fits with.now self.new };
}

// Answers a text of session 0, with a count of look-ups of its own.
fn apply<L: Ledger>(book: &mut Book, text: &[u8], blank: Blank) -> Reply
    requires name { blank.name ≡ L.name }
    requires parts { blank.parts ≡ L.parts }
    requires whole { blank.parts ≡ 1 }
    requires short { length text.now ≤ 65535 }
    ensures { StepOrNone book.old 0 text.now result book.new }
{
    let mut steps: Steps<L> = Steps::new(blank);
    book.apply(0, text, &mut steps)
}

impl Answerer<()> for Book {
    ghost use Rattle.sessions.specs.Calls.{IsApplied};

    ghost fits = { λ _ _. ⊤ };

    ghost steps = { IsApplied };

    fn answer(&mut self, _with: &(), text: &[u8]) -> Reply {
        apply::<Brand>(self, text, Blank::new(1))
    }
}

/// A book that sessions share, and a runtime to wait with.
#[derive(Clone, Copy)]
pub struct Turn<'a, R> {
    pub rt: &'a R,
    pub shared: &'a Shared<Book>,
}

impl<'a, R: Wait> Answerer<Turn<'a, R>> for Pass<Book> {
    ghost use Rattle.sessions.specs.Calls.{IsCalled};

    ghost fits = { λ turn pass. pass.table ≡ turn.shared.now };

    ghost steps = { IsCalled };

    fn answer(&mut self, with: &Turn<'a, R>, text: &[u8]) -> Reply {
        with.shared.call(with.rt, self, text)
    }
}
