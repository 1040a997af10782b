//! What stands in a history, and what a pass knows of it. No value of these types is made: they are for contracts alone.
use std::collections::LinkedList;

/// A call that was kept.
pub struct Event {
    /// The number of the pass that made it.
    pub session: u32,
    pub text: LinkedList<u8>,
}

/// A pass that ended, with its kept calls.
pub struct Ended {
    pub number: u32,
    pub calls: LinkedList<Event>,
}

/// What a seat at the table knows.
pub struct View<G> {
    /// What the machine was made with.
    pub made: G,
    pub number: u32,
    /// A beginning of the history.
    pub seen: LinkedList<Event>,
    /// Another beginning of it, of which a joined pass told.
    pub told: LinkedList<Event>,
    /// The kept calls of this pass.
    pub mine: LinkedList<Event>,
    /// The passes that were joined into it.
    pub joined: LinkedList<Ended>,
    /// The next unused number, in the view of number 0.
    pub next: u64,
    /// It has the turn.
    pub holds: bool,
    /// It was joined into another.
    pub spent: bool,
}
