//! The sessions that made connections.

ghost use Rattle.std.specs.Prelude.{◌≡◌, [], true, None, IsSome, OnOk, OnErr};
ghost use Rattle.std.specs.Map.{lookup};
ghost use Rattle.std.specs.BTreeMap.{is_at, insert_entry};
ghost use Rattle.std.specs.Ordering.{nat_cmp};
ghost use Rattle.std.specs.Option.{option_copied};
ghost use Rattle.cat_engine.specs.Sessions as spec;

use crate::session::{Connection, Session, Setting};
use cat_items::Who;
use sql_tree::Name;
use std::alloc::{AllocError, Global};
use std::collections::BTreeMap;
use std::marker::Model;

/// The sessions that made connections, by their numbers.
#[derive(Drop)]
pub struct Sessions {
    sessions: BTreeMap<u32, Session>,
}

impl Model for Sessions {
    ghost use Rattle.std.specs.Prelude.{ℕ, List};
    ghost use Rattle.cat_engine.specs.declared.session.Session.{Session};

    ghost Value = { List (ℕ × Session) };

    ghost view = { λ s. s.sessions.entries };
}

impl Sessions {
    /// No session. It takes no memory.
    pub fn new(alloc: Global) -> Sessions
        ensures { result ≡ [] }
    {
        Sessions {
            sessions: BTreeMap::new(alloc),
        }
    }

    /// For whom a session's statements are run; `None` where it has no current connection.
    pub fn who(&self, number: u32) -> Option<&Who>
        ensures { option_copied result ≡ spec.who_of self.now number }
    {
        match self.sessions.get(&number) {
            None => None,
            Some(session) => match session.current() {
                None => None,
                Some(connection) => Some(&connection.who),
            },
        }
    }

    /// Whether a session has a connection of this name.
    pub fn has(&self, number: u32, name: &Name) -> bool
        ensures { result ≡ spec.has_connection (spec.session_of self.now number) name.now }
    {
        match self.sessions.get(&number) {
            None => false,
            Some(session) => session.has(name),
        }
    }

    /// Adds a connection to a session and makes it current, or leaves all as it was.
    pub fn connect(
        &mut self,
        alloc: Global,
        number: u32,
        connection: Connection,
    ) -> Result<(), AllocError>
        ensures ok { OnOk result (self.new ≡ spec.with_session self.old number (spec.connected (spec.session_of self.old number) connection)) }
        ensures err { OnErr result (self.new ≡ self.old) }
    {
        match self.sessions.get_mut(&number) {
            Some(session) => session.connect(connection),
            None => self.begin(alloc, number, connection),
        }
    }

    fn begin(
        &mut self,
        alloc: Global,
        number: u32,
        connection: Connection,
    ) -> Result<(), AllocError>
        requires { lookup (is_at (nat_cmp number)) self.old ≡ None }
        ensures ok { OnOk result (self.new ≡ insert_entry nat_cmp self.old number (spec.connected spec.fresh connection)) }
        ensures err { OnErr result (self.new ≡ self.old) }
    {
        let mut session = Session::new(alloc);
        session.connect(connection)?;
        match self.sessions.insert(number, session) {
            Ok(_) => Ok(()),
            Err(_) => Err(AllocError),
        }
    }

    /// Makes a session's connection of this name current.
    pub fn switch(&mut self, number: u32, name: Name)
        requires { spec.has_connection (spec.session_of self.old number) name ≡ true }
        ensures { self.new ≡ spec.with_session self.old number (spec.switched (spec.session_of self.old number) name) }
    {
        if let Some(session) = self.sessions.get_mut(&number) {
            session.switch(name);
        }
    }

    /// Ends a session's connection of this name.
    pub fn disconnect(&mut self, number: u32, name: &Name)
        requires { spec.has_connection (spec.session_of self.old number) name.now ≡ true }
        ensures { self.new ≡ spec.with_session self.old number (spec.disconnected (spec.session_of self.old number) name.now) }
    {
        if let Some(session) = self.sessions.get_mut(&number) {
            session.disconnect(name);
        }
    }

    /// Sets the schema or the role of a session's current connection, or leaves all as it was.
    pub fn set(&mut self, number: u32, setting: Setting) -> Result<(), AllocError>
        requires { IsSome (spec.who_of self.old number) }
        ensures ok { OnOk result (self.new ≡ spec.with_session self.old number (spec.set_for (spec.session_of self.old number) setting)) }
        ensures err { OnErr result (self.new ≡ self.old) }
    {
        match self.sessions.get_mut(&number) {
            Some(session) => session.set(setting),
            None => Ok(()),
        }
    }
}
