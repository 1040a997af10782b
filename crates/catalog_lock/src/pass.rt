ghost use Rattle.std.specs.Prelude.{◌≡◌};

use crate::history::View;
use crate::machine::Machine;
use atomic_table::Seat;
use std::marker::Model;

/// The right to make calls under a number, which no other pass of the same [`Shared`] has.
///
/// Contracts see which `Shared` it is of, what the machine was made with, its number, the history that it has seen, its
/// own kept calls, and the kept calls of each pass that was joined into it. The pass of number 0 also knows the next
/// unused number. It has 8 bytes.
///
/// A pass that is dropped can't be joined any more, and the machine can then never be had back.
#[derive(Drop)]
pub struct Pass<M: Machine> {
    pub(crate) number: u32,
    // The next unused number. In a pass that was split off it is 0.
    pub(crate) next: u32,
    pub(crate) seat: Seat<Option<M>, View<M::Made>>,
}

impl<M: Machine> Model for Pass<M> {
    ghost use Rattle.std.specs.Prelude.{◌≡◌};
    ghost use Rattle.catalog_lock.specs.Passes.{Shown, shown};
    ghost use Rattle.catalog_lock.specs.Turns.{IsIdle};

    ghost Value = { Shown M.Made };

    ghost view = { λ p. shown p.seat.table_id p.seat.me.0 };

    ghost invariant = { λ p. (p.number ≡ p.seat.me.0.number) × (p.next ≡ p.seat.me.0.next) × IsIdle p.seat.me };
}

impl<M: Machine> Pass<M> {
    /// The number under which its calls stand in the history. The first pass has 0, and those that are split off have
    /// 1 and up, in order.
    pub fn number(&self) -> u32
        ensures { result ≡ self.now.number }
    {
        self.number
    }
}
