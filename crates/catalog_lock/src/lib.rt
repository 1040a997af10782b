//! One machine that sessions share by turns, in one history.
//!
//! A [`Machine`] is a sequential object with a journal. [`Shared`] keeps one, and each session calls it with a [`Pass`]
//! of its own. Whatever the order in which the threads run, there is one legal history: each kept call stands in it
//! once, its answer is the machine's at that place, and the calls of one pass stand in the order in which it made them.
//!
//! The machine lies in the one slot of an `atomic_table`, whose word 0 counts the history and whose word 1 is the turn.
//! A call takes these steps:
//!
//! 1. It tries for the turn: word 1 from 0 to 1 by one compare and exchange, which takes the slot. Where another has
//!    the turn it waits and tries again.
//! 2. It takes the machine out of the slot, and makes the call on it.
//! 3. It puts the machine back into the slot, which it still holds.
//! 4. Where the call was kept, it adds 1 to word 0. This is the one step at which the history grows.
//! 5. It releases the turn: word 1 becomes 0, and the slot is given back with the machine.
//!
//! A split gives a new pass the next unused number, a join ends a pass and keeps its calls in another, and each of the
//! two looks at word 0. Eight kinds of steps, then: try, take out, put back, append, release, look, split and join. What
//! holds between any two of them is the record `Kept` of `specs/Turns.antt`.
//!
//! Not promised: that a call gets its turn, in what order those who wait get it, and any order between sessions that
//! told each other nothing.
#![tactic(auto)]

mod history;
mod machine;
mod pass;
mod rule;
mod shared;
mod turn;

pub use history::{Ended, Event};
pub use machine::Machine;
pub use pass::Pass;
pub use shared::Shared;
