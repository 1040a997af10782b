//! The book.

ghost use Rattle.std.specs.Prelude.{◌≡◌, ◌≢◌, ◌≤◌, ◌^◌, length, IfOk, OnErr};
ghost use Rattle.std.specs.List.{AllPairs, All};
ghost use Rattle.std.specs.Option.{option_copied};
ghost use Rattle.cat_items.specs.declared.edit.Edit.{Edit};
ghost use Rattle.cat_items.specs.Good.{IsGood};
ghost use Rattle.cat_items.specs.Shape.{IsAuthorizationName};
ghost use Rattle.catalogue_edits.specs.LookUps.{TakesFew};
ghost use Rattle.cat_engine.specs.Histories.{IsOpening, IsReached};
ghost use Rattle.cat_engine.specs.LookUps.{HasStepEdit, HasTextEdit};
ghost use Rattle.cat_engine.specs.Sessions.{who_of};
ghost use Rattle.cat_engine.specs.Contents.{IsJournalFull};
ghost use Rattle.cat_engine.specs.Steps.{IsEntered, StepOrNone};

use crate::environment::Environment;
use crate::journal::{Entry, enter};
use crate::reply::Reply;
use cat_items::{Catalogue, Limits, Who};
use item_index::Steps;
use sql_tree::{Name, Text};
use std::alloc::{AllocError, Global};
use std::marker::Model;
use std::snapshot::Snapshot;
use std::sync::ledger::Ledger;

/// What a journal holds of each entry beside its text, in bytes.
const ENTRY_BYTES: u64 = 64;

/// One SQL catalogue, the connections of its sessions, and the journal of the statements that made them.
///
/// Contracts see the users that it opened with, the catalogue's items, the sessions, the journal and the limits.
#[derive(Drop)]
pub struct Book {
    alloc: Global,
    users: Snapshot<Vec<Name>>,
    environment: Environment,
    journal: Vec<Entry>,
    held: u64,
    limits: Limits,
}

impl Model for Book {
    ghost use Rattle.cat_engine.specs.Contents.{State};

    ghost Value = { State };

    ghost use Rattle.sql_tree.specs.contracts.expr.Expr as expr;
    ghost use Rattle.sql_tree.specs.contracts.expr.Query as query;
    ghost use Rattle.std.specs.Coded.{codes};

    ghost coded = { Prim.hlevel (codes, expr.the_row.coded, query.the_row.coded) };

    ghost use Rattle.std.specs.Prelude.{◌≡◌};
    ghost use Rattle.cat_engine.specs.Contents.{bytes_held};
    ghost use Rattle.cat_engine.specs.Histories.{IsReached};
    ghost use Rattle.catalogue_changes.specs.Widths.{IsNarrow};

    ghost view = { λ b. record { users = b.users.value.items; content = b.environment; journal = b.journal.items; limits = b.limits } };

    ghost invariant = { λ b. (b.held ≡ bytes_held b.journal.items)
        × IsReached (record { users = b.users.value.items; content = b.environment; journal = b.journal.items; limits = b.limits })
        × IsNarrow b.environment.catalogue b.limits.columns };
}

impl Book {
    /// The book of these users, without connections and with an empty journal. `Err` is want of memory.
    ///
    /// `limits` bound the catalogue's items, the columns of each table and view, and the journal's bytes.
    pub fn new(alloc: Global, users: &Vec<Name>, limits: Limits) -> Result<Book, AllocError>
        requires distinct { AllPairs (λ a b. a ≢ b) users.now.items }
        requires allowed { All IsAuthorizationName users.now.items }
        ensures { IfOk result (λ book. IsOpening users.now.items limits book) }
    {
        Ok(Book {
            alloc,
            users: Snapshot::of(users),
            environment: Environment::new(alloc, users)?,
            journal: Vec::new(alloc),
            held: 0,
            limits,
        })
    }

    /// The catalogue. It takes no memory.
    pub fn catalogue(&self) -> &Catalogue
        ensures items { result.now.items ≡ self.now.content.catalogue }
        ensures good { IsGood self.now.content.catalogue }
        ensures reached { IsReached self.now }
    {
        self.environment.catalogue()
    }

    /// The statements that were answered, the oldest first. It takes no memory.
    pub fn journal(&self) -> &[Entry]
        ensures { result.now ≡ self.now.journal }
    {
        self.journal.as_slice()
    }

    /// For whom a session's statements are run; `None` where it has no current connection. It takes no memory.
    pub fn who(&self, session: u32) -> Option<&Who>
        ensures { option_copied result ≡ who_of self.now.content.sessions session }
    {
        self.environment.who(session)
    }

    /// Answers one statement of a session, given without its semicolon.
    ///
    /// A text that is answered gets an entry in the journal, a refused one too. `JournalFull` and `OutOfMemory` leave all as it was.
    /// `steps` counts the look-ups in the board of the catalogue, which follow what a statement's edit touches: none where there is no edit
    /// or the journal is full, and no more than the bound of the edit.
    pub fn apply<L: Ledger>(&mut self, session: u32, text: &[u8], steps: &mut Steps<L>) -> Reply
        requires { length text.now ≤ 65535 }
        ensures step { StepOrNone self.old session text.now result self.new }
        ensures reached { IsReached self.old }
        ensures few { length self.new.journal ≤ 2 ^ 63 }
        ensures idle { ((edit : Edit) → ¬ (HasStepEdit self.old session text.now edit)) → steps.new ≡ steps.old }
        ensures few_look_ups { (edit : Edit) → HasStepEdit self.old session text.now edit → TakesFew self.old.content.catalogue edit steps.old steps.new }
    {
        let size = ENTRY_BYTES + text.len() as u64;
        if self.limits.journal - self.held < size {
            return Reply::JournalFull { held: self.held };
        }
        match self.answer(session, text, steps) {
            Ok(reply) => reply,
            Err(_) => Reply::OutOfMemory,
        }
    }

    // Answers a text for which the journal has room. All memory is taken before the first change.
    fn answer<L: Ledger>(
        &mut self,
        session: u32,
        text: &[u8],
        steps: &mut Steps<L>,
    ) -> Result<Reply, AllocError>
        requires few { length text.now ≤ 65535 }
        requires room { ¬ (IsJournalFull self.old text.now) }
        ensures ok { IfOk result (λ reply. IsEntered self.old session text.now reply self.new) }
        ensures err { OnErr result (self.new ≡ self.old) }
        ensures idle { ((edit : Edit) → ¬ (HasTextEdit session self.old.content text.now edit)) → steps.new ≡ steps.old }
        ensures few_look_ups { (edit : Edit) → HasTextEdit session self.old.content text.now edit → TakesFew self.old.content.catalogue edit steps.old steps.new }
    {
        let entry = Entry {
            session,
            text: Text::of(self.alloc, text)?,
        };
        self.journal.reserve(1)?;
        let reply = self
            .environment
            .answer(self.alloc, &self.limits, session, text, steps)?;
        self.held += ENTRY_BYTES + text.len() as u64;
        enter(&mut self.journal, entry);
        Ok(reply)
    }
}
