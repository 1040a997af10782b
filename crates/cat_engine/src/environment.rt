//! What statements read and change.

ghost use Rattle.std.specs.Prelude.{◌≡◌, ◌≢◌, ◌↔◌, ◌∷◌, [], IfOk, IsTrue, OnErr};
ghost use Rattle.std.specs.List.{AllPairs, Contains, All};
ghost use Rattle.std.specs.Option.{option_copied};
ghost use Rattle.cat_items.specs.declared.edit.Edit.{Edit};
ghost use Rattle.cat_items.specs.declared.item.Item.{Item as ItemSpec};
ghost use Rattle.cat_items.specs.Shape.{IsAuthorizationName};
ghost use Rattle.cat_items.specs.Good.{IsGood};
ghost use Rattle.cat_items.specs.Catalogues.{IsInOrder, IsUserOf};
ghost use Rattle.statement_forms.specs.Written.{IsWritten};
ghost use Rattle.edit_rules.specs.First.{HasPassed, IsTested, Tested};
ghost use Rattle.catalogue_changes.specs.Widths.{IsNarrow};
ghost use Rattle.catalogue_edits.specs.LookUps.{TakesFew};
ghost use Rattle.catalogue_edits.specs.Statements.{IsBuiltEdit};
ghost use Rattle.cat_engine.specs.Built.{IsBuilt};
ghost use Rattle.cat_engine.specs.ConnectionRefusals as connections;
ghost use Rattle.cat_engine.specs.Effects as effects;
ghost use Rattle.cat_engine.specs.LookUps.{HasSessionEdit, HasTextEdit};
ghost use Rattle.cat_engine.specs.Refusals as refusals;
ghost use Rattle.cat_engine.specs.Sessions.{who_of, connected, switched, disconnected, set_for};
ghost use Rattle.cat_engine.specs.Steps.{Answers};
ghost use Rattle.cat_engine.specs.declared.outcome.Outcome.TheVariants.{Done};
ghost use Rattle.cat_engine.specs.declared.session.Setting.TheVariants.{Schema, Role};

use crate::outcome::{Outcome, outcome_of, reply_of};
use crate::reading::read;
use crate::reply::Reply;
use crate::session::{Connection, Setting};
use crate::sessions::Sessions;
use cat_items::{Auth, Catalogue, EditError, Limits, Refusal, Who};
use catalogue_edits::{Store, Warning, revise};
use edit_rules::{is_role, is_user};
use information_schema::{InfoError, Rows, answer};
use item_index::Steps;
use role_graph::reaches;
use sql_tree::{Connect, InfoQuery, Name, RoleChoice, Statement};
use std::alloc::{AllocError, Global};
use std::marker::Model;
use std::sync::ledger::Ledger;

/// The catalogue with its board, and the connections of each session.
#[derive(Drop)]
pub struct Environment {
    store: Store,
    sessions: Sessions,
}

impl Model for Environment {
    ghost use Rattle.cat_engine.specs.Contents.{Content};

    ghost Value = { Content };

    ghost use Rattle.sql_tree.specs.contracts.expr.Expr as expr;
    ghost use Rattle.sql_tree.specs.contracts.expr.Query as query;
    ghost use Rattle.std.specs.Coded.{codes};

    ghost coded = { Prim.hlevel (codes, expr.the_row.coded, query.the_row.coded) };

    ghost view = { λ e. record { catalogue = e.store; sessions = e.sessions } };
}

fn role_chosen(choice: RoleChoice) -> Option<Name>
    ensures { result ≡ refusals.role_chosen choice }
{
    match choice {
        RoleChoice::Literal(name) | RoleChoice::Identifier(name) => Some(name),
        RoleChoice::NoRole => None,
    }
}

// Whether it is no role, or a role that the user reaches.
fn may_be_role(
    alloc: Global,
    c: &Catalogue,
    who: &Who,
    role: &Option<Name>,
) -> Result<bool, AllocError>
    ensures { IfOk result (λ answer. IsTrue answer ↔ refusals.MayBeRole c.now.items who.now role.now) }
{
    let Some(role) = role else {
        return Ok(true);
    };
    if !is_role(c, role) {
        return Ok(false);
    }
    let user = Auth::Named(who.user.copy()?);
    reaches(alloc, c, &user, &Auth::Named(role.copy()?))
}

fn test_role(alloc: Global, c: &Catalogue, who: &Who, role: &Option<Name>) -> Result<(), EditError>
    ensures { HasPassed (refusals.invalid_role c.now.items who.now role.now ∷ []) result }
{
    match may_be_role(alloc, c, who, role)? {
        true => Ok(()),
        false => Err(EditError::Refused(Refusal::InvalidRole { current: false })),
    }
}

impl Environment {
    /// The catalogue of these users, and no connection. `Err` is want of memory.
    pub fn new(alloc: Global, users: &Vec<Name>) -> Result<Environment, AllocError>
        requires distinct { AllPairs (λ a b. a ≢ b) users.now.items }
        requires allowed { All IsAuthorizationName users.now.items }
        ensures order { IfOk result (λ e. IsInOrder e.catalogue) }
        ensures members { IfOk result (λ e. (x : ItemSpec) → Contains e.catalogue x ↔ IsUserOf users.now.items x) }
        ensures sessions { IfOk result (λ e. e.sessions ≡ []) }
    {
        let opening = Catalogue::opening(alloc, users)?;
        Ok(Environment {
            store: Store::new(alloc, opening)?,
            sessions: Sessions::new(alloc),
        })
    }

    /// The catalogue.
    pub fn catalogue(&self) -> &Catalogue
        ensures items { result.now.items ≡ self.now.catalogue }
        ensures good { IsGood self.now.catalogue }
    {
        self.store.catalogue()
    }

    /// For whom a session's statements are run; `None` where it has no current connection.
    pub fn who(&self, number: u32) -> Option<&Who>
        ensures { option_copied result ≡ who_of self.now.sessions number }
    {
        self.sessions.who(number)
    }

    fn connect(&mut self, alloc: Global, number: u32, parts: Connect) -> Result<Outcome, EditError>
        ensures { Tested (connections.connection_in_use self.old.sessions number (refusals.connection_name parts) ∷ connections.unknown_user self.old.catalogue parts.user ∷ [])
            (λ outcome. effects.ChangesSession number (λ s. connected s (effects.connection_of parts)) self.old self.new × (outcome ≡ Done)) (self.new ≡ self.old) result }
    {
        let Connect {
            server,
            connection,
            user,
        } = parts;
        let name = match connection {
            Some(name) => name,
            None => server,
        };
        if self.sessions.has(number, &name) {
            return Err(EditError::Refused(Refusal::ConnectionInUse));
        }
        if !is_user(self.store.catalogue(), &user) {
            return Err(EditError::Refused(Refusal::UnknownUser));
        }
        let who = Who {
            schema: user.copy()?,
            role: None,
            user,
        };
        self.sessions
            .connect(alloc, number, Connection { name, who })?;
        Ok(Outcome::Done)
    }

    fn switch(&mut self, number: u32, name: Name) -> Result<Outcome, EditError>
        ensures { Tested (connections.no_such_connection self.old.sessions number name ∷ [])
            (λ outcome. effects.ChangesSession number (λ s. switched s name) self.old self.new × (outcome ≡ Done)) (self.new ≡ self.old) result }
    {
        if !self.sessions.has(number, &name) {
            return Err(EditError::Refused(Refusal::NotConnected));
        }
        self.sessions.switch(number, name);
        Ok(Outcome::Done)
    }

    fn disconnect(&mut self, number: u32, name: &Name) -> Result<Outcome, EditError>
        ensures { Tested (connections.no_such_connection self.old.sessions number name.now ∷ [])
            (λ outcome. effects.ChangesSession number (λ s. disconnected s name.now) self.old self.new × (outcome ≡ Done)) (self.new ≡ self.old) result }
    {
        if !self.sessions.has(number, name) {
            return Err(EditError::Refused(Refusal::NotConnected));
        }
        self.sessions.disconnect(number, name);
        Ok(Outcome::Done)
    }

    fn set_schema(&mut self, number: u32, schema: Name) -> Result<Outcome, EditError>
        ensures { Tested (connections.not_connected self.old.sessions number ∷ [])
            (λ outcome. effects.ChangesSession number (λ s. set_for s (Schema schema)) self.old self.new × (outcome ≡ Done)) (self.new ≡ self.old) result }
    {
        if self.sessions.who(number).is_none() {
            return Err(EditError::Refused(Refusal::NotConnected));
        }
        self.sessions.set(number, Setting::Schema(schema))?;
        Ok(Outcome::Done)
    }

    fn set_role(
        &mut self,
        alloc: Global,
        number: u32,
        choice: RoleChoice,
    ) -> Result<Outcome, EditError>
        ensures { Tested (refusals.set_role_refusals number self.old choice)
            (λ outcome. effects.ChangesSession number (λ s. set_for s (Role (refusals.role_chosen choice))) self.old self.new × (outcome ≡ Done)) (self.new ≡ self.old) result }
    {
        let role = role_chosen(choice);
        let Some(who) = self.sessions.who(number) else {
            return Err(EditError::Refused(Refusal::NotConnected));
        };
        test_role(alloc, self.store.catalogue(), who, &role)?;
        self.sessions.set(number, Setting::Role(role))?;
        Ok(Outcome::Done)
    }

    // Makes of the catalogue what a statement makes of it.
    fn revise<L: Ledger>(
        &mut self,
        alloc: Global,
        limits: &Limits,
        number: u32,
        statement: &Statement,
        steps: &mut Steps<L>,
    ) -> Result<Option<Warning>, EditError>
        requires narrow { IsNarrow self.old.catalogue limits.now.columns }
        requires built { IsBuiltEdit statement.now }
        requires written { IsWritten statement.now }
        ensures tested { Tested (refusals.session_edit_refusals limits.now number self.old statement.now)
            (λ warning. effects.Revises statement.now number self.old warning self.new) (self.new ≡ self.old) result }
        ensures narrow { IsNarrow self.new.catalogue limits.now.columns }
        ensures idle { ((edit : Edit) → ¬ (HasSessionEdit number self.old statement.now edit)) → steps.new ≡ steps.old }
        ensures few { (edit : Edit) → HasSessionEdit number self.old statement.now edit → TakesFew self.old.catalogue edit steps.old steps.new }
    {
        match self.sessions.who(number) {
            None => Err(EditError::Refused(Refusal::NotConnected)),
            Some(who) => revise(alloc, limits, &mut self.store, who, statement, steps),
        }
    }

    // What is done where the catalogue is edited.
    fn edit<L: Ledger>(
        &mut self,
        alloc: Global,
        limits: &Limits,
        number: u32,
        statement: &Statement,
        steps: &mut Steps<L>,
    ) -> Result<Outcome, EditError>
        requires narrow { IsNarrow self.old.catalogue limits.now.columns }
        requires built { IsBuiltEdit statement.now }
        requires written { IsWritten statement.now }
        ensures tested { Tested (refusals.session_edit_refusals limits.now number self.old statement.now)
            (λ outcome. effects.Edits statement.now number self.old outcome self.new) (self.new ≡ self.old) result }
        ensures narrow { IsNarrow self.new.catalogue limits.now.columns }
        ensures idle { ((edit : Edit) → ¬ (HasSessionEdit number self.old statement.now edit)) → steps.new ≡ steps.old }
        ensures few { (edit : Edit) → HasSessionEdit number self.old statement.now edit → TakesFew self.old.catalogue edit steps.old steps.new }
    {
        let warning = self.revise(alloc, limits, number, statement, steps)?;
        Ok(outcome_of(warning))
    }

    // Finds where each authorization has rights or owns, by which a query is answered quickly.
    fn look(&mut self, alloc: Global)
        ensures { self.new ≡ self.old }
    {
        self.store.find_places(alloc);
    }

    // The rows of the Information Schema that a query asks for.
    fn select(&self, alloc: Global, number: u32, query: &InfoQuery) -> Result<Outcome, EditError>
        ensures { IsTested (refusals.select_refusals number self.now query.now)
            (λ outcome. effects.IsAnswered query.now number self.now outcome self.now) result }
    {
        let Some(who) = self.sessions.who(number) else {
            return Err(EditError::Refused(Refusal::NotConnected));
        };
        match answer(
            alloc,
            self.store.catalogue(),
            self.store.places(),
            who,
            query,
        ) {
            Ok(rows) => Ok(Outcome::Answered(rows)),
            Err(InfoError::UnknownName(path)) => {
                Err(EditError::Refused(Refusal::UnknownName { path }))
            }
            Err(InfoError::TypeMismatch) => Err(EditError::Refused(Refusal::TypeMismatch)),
            Err(InfoError::Memory) => Err(EditError::Memory),
        }
    }

    // Does what a statement says where nothing refuses it.
    fn execute<L: Ledger>(
        &mut self,
        alloc: Global,
        limits: &Limits,
        number: u32,
        statement: Statement,
        steps: &mut Steps<L>,
    ) -> Result<Outcome, EditError>
        requires narrow { IsNarrow self.old.catalogue limits.now.columns }
        requires built { IsBuilt statement }
        requires written { IsWritten statement }
        ensures tested { Tested (refusals.statement_refusals limits.now number self.old statement)
            (λ outcome. effects.Changes statement number self.old outcome self.new) (self.new ≡ self.old) result }
        ensures narrow { IsNarrow self.new.catalogue limits.now.columns }
        ensures idle { ((edit : Edit) → ¬ (HasSessionEdit number self.old statement edit)) → steps.new ≡ steps.old }
        ensures few { (edit : Edit) → HasSessionEdit number self.old statement edit → TakesFew self.old.catalogue edit steps.old steps.new }
    {
        match statement {
            Statement::Connect(parts) => self.connect(alloc, number, parts),
            Statement::SetConnection(name) => self.switch(number, name),
            Statement::Disconnect(name) => self.disconnect(number, &name),
            Statement::SetSchema(schema) => self.set_schema(number, schema),
            Statement::SetRole(choice) => self.set_role(alloc, number, choice),
            Statement::Select(query) => {
                self.look(alloc);
                self.select(alloc, number, &query)
            }
            edit => self.edit(alloc, limits, number, &edit, steps),
        }
    }

    /// Answers a text of a session. All its memory is taken before the first change; `Err` is want of memory. A text without an edit takes no
    /// look-up, and one with an edit no more than its bound.
    pub fn answer<L: Ledger>(
        &mut self,
        alloc: Global,
        limits: &Limits,
        number: u32,
        text: &[u8],
        steps: &mut Steps<L>,
    ) -> Result<Reply, AllocError>
        requires narrow { IsNarrow self.old.catalogue limits.now.columns }
        ensures ok { IfOk result (λ reply. Answers limits.now number self.old text.now reply self.new) }
        ensures err { OnErr result (self.new ≡ self.old) }
        ensures narrow { IsNarrow self.new.catalogue limits.now.columns }
        ensures idle { ((edit : Edit) → ¬ (HasTextEdit number self.old text.now edit)) → steps.new ≡ steps.old }
        ensures few { (edit : Edit) → HasTextEdit number self.old text.now edit → TakesFew self.old.catalogue edit steps.old steps.new }
    {
        let statement = match read(alloc, text) {
            Ok(statement) => statement,
            Err(EditError::Refused(refusal)) => return Ok(Reply::Refused(refusal)),
            Err(EditError::Memory) => return Err(AllocError),
        };
        match self.execute(alloc, limits, number, statement, steps) {
            Ok(outcome) => Ok(reply_of(outcome)),
            Err(EditError::Refused(refusal)) => Ok(Reply::Refused(refusal)),
            Err(EditError::Memory) => Err(AllocError),
        }
    }
}
