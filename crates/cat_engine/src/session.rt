//! The connections of one session.

ghost use Rattle.std.specs.Prelude.{◌≡◌, IfOk, OnOk, OnErr, slice_get};
ghost use Rattle.std.specs.Option.{option_copied};
ghost use Rattle.cat_engine.specs.Sessions as spec;

use cat_items::Who;
use sql_tree::{Items, Name};
use std::alloc::{AllocError, Global};

/// A connection: its name, and for whom its statements are run.
#[derive(Drop)]
pub struct Connection {
    pub name: Name,
    pub who: Who,
}

/// A session: its connections in the order in which they were made, and the name of the current one.
#[derive(Drop)]
pub struct Session {
    pub connections: Items<Connection>,
    pub current: Option<Name>,
}

/// What SET SCHEMA and SET ROLE set for a connection.
#[derive(Drop)]
pub enum Setting {
    Schema(Name),
    /// `None` where it is NONE.
    Role(Option<Name>),
}

fn is_named(name: &Name, connection: &Connection) -> bool
    ensures { result ≡ spec.is_named name.now connection.now }
{
    name.bytes() == connection.name.bytes()
}

fn copy_optional(name: &Option<Name>) -> Result<Option<Name>, AllocError>
    ensures { IfOk result (λ copy. copy ≡ name.now) }
{
    match name {
        None => Ok(None),
        Some(name) => Ok(Some(name.copy()?)),
    }
}

impl Session {
    /// A session without connections.
    pub fn new(alloc: Global) -> Session
        ensures { result ≡ spec.fresh }
    {
        Session {
            connections: Items::new(alloc),
            current: None,
        }
    }

    /// Whether it has a connection of this name.
    pub fn has(&self, name: &Name) -> bool
        ensures { result ≡ spec.has_connection self.now name.now }
    {
        self.connections
            .as_slice()
            .iter()
            .any(|connection| is_named(name, connection))
    }

    fn place_of(&self, name: &Name) -> Option<usize>
        ensures { result ≡ spec.place_of self.now name.now }
    {
        self.connections
            .as_slice()
            .iter()
            .position(|connection| is_named(name, connection))
    }

    /// The current connection.
    pub fn current(&self) -> Option<&Connection>
        ensures { option_copied result ≡ spec.current self.now }
    {
        match &self.current {
            None => None,
            Some(name) => match self.place_of(name) {
                None => None,
                Some(at) => self.connections.get(at),
            },
        }
    }

    /// Adds a connection and makes it current, or leaves all as it was.
    pub fn connect(&mut self, connection: Connection) -> Result<(), AllocError>
        ensures ok { OnOk result (self.new ≡ spec.connected self.old connection) }
        ensures err { OnErr result (self.new ≡ self.old) }
    {
        let name = connection.name.copy()?;
        self.connections.push(connection)?;
        self.current = Some(name);
        Ok(())
    }

    /// Makes the connection of this name current.
    pub fn switch(&mut self, name: Name)
        ensures { self.new ≡ spec.switched self.old name }
    {
        self.current = Some(name);
    }

    fn forget(&mut self, name: &Name)
        ensures connections { self.new.connections ≡ self.old.connections }
        ensures current { self.new.current ≡ spec.unless name.now self.old.current }
    {
        let is_current = match &self.current {
            None => false,
            Some(current) => name.bytes() == current.bytes(),
        };
        if is_current {
            self.current = None;
        }
    }

    /// Ends the connection of this name.
    pub fn disconnect(&mut self, name: &Name)
        ensures { self.new ≡ spec.disconnected self.old name.now }
    {
        if let Some(at) = self.place_of(name) {
            self.connections.remove(at);
            self.forget(name);
        }
    }

    /// Sets the schema or the role of the current connection, or leaves all as it was.
    pub fn set(&mut self, setting: Setting) -> Result<(), AllocError>
        ensures ok { OnOk result (self.new ≡ spec.set_for self.old setting) }
        ensures err { OnErr result (self.new ≡ self.old) }
    {
        let at = match &self.current {
            None => None,
            Some(name) => self.place_of(name),
        };
        match at {
            None => Ok(()),
            Some(at) => self.set_at(at, setting),
        }
    }

    fn set_at(&mut self, at: usize, setting: Setting) -> Result<(), AllocError>
        ensures ok { OnOk result (self.new ≡ spec.with_setting_at self.old at setting (slice_get self.old.connections at)) }
        ensures err { OnErr result (self.new ≡ self.old) }
    {
        let connection = match self.connections.get(at) {
            None => return Ok(()),
            Some(connection) => with_setting(connection, setting)?,
        };
        self.connections.set(at, connection);
        Ok(())
    }
}

fn who_with(who: &Who, setting: Setting) -> Result<Who, AllocError>
    ensures { IfOk result (λ changed. changed ≡ spec.who_with setting who.now) }
{
    let user = who.user.copy()?;
    match setting {
        Setting::Schema(schema) => Ok(Who {
            user,
            role: copy_optional(&who.role)?,
            schema,
        }),
        Setting::Role(role) => Ok(Who {
            user,
            role,
            schema: who.schema.copy()?,
        }),
    }
}

fn with_setting(connection: &Connection, setting: Setting) -> Result<Connection, AllocError>
    ensures { IfOk result (λ changed. changed ≡ spec.with_setting setting connection.now) }
{
    Ok(Connection {
        name: connection.name.copy()?,
        who: who_with(&connection.who, setting)?,
    })
}
