//! The steps of a call, each on the seat of its pass.
ghost use Rattle.std.specs.Prelude.{◌≡◌, ◌≤◌, ◌^◌, ◌++◌, ◌∷◌, [], true, length, Some, None, IfSome, IfNone, MatchBool};
ghost use Rattle.catalog_lock.specs.History.{event, MayFollow};
ghost use Rattle.catalog_lock.specs.Turns.{Took, Holding, IsIdle, with_call, without_turn};

use crate::history::View;
use crate::machine::Machine;
use crate::rule::{Append, Release, Try};
use crate::shared::{COUNT, MACHINE, Shared, TURN};
use atomic_table::Seat;
use std::hint::spin_loop;
use std::snapshot::Snapshot;
use std::sync::Wait;
use std::sync::atomic::Ordering::SeqCst;

// How often a call looks whether the turn is free, before it sleeps.
const LOOKS: u32 = 100;

impl<M: Machine> Shared<M> {
    // Tries for the turn, and takes the machine.
    fn try_take(&self, seat: &mut Seat<Option<M>, View<M::Made>>) -> Option<M>
        requires table { seat.old.table_id ≡ self.now }
        requires idle { IsIdle seat.old.me }
        ensures table { (seat.new.table_id ≡ seat.old.table_id) × (seat.new.id ≡ seat.old.id) }
        ensures some { IfSome result (λ m. Took M.history M.made M.takes M.step M.keeps seat.old.me m seat.new.me) }
        ensures none { IfNone result (seat.new.me ≡ seat.old.me) }
    {
        if self
            .table
            .shared
            .compare_exchange::<Try<M>>(seat, TURN, 0, 1)
            != 0
        {
            return None;
        }
        self.table.shared.exchange(seat, MACHINE, None)
    }

    // Waits for the turn, and takes the machine.
    pub(crate) fn take<R: Wait>(&self, rt: &R, seat: &mut Seat<Option<M>, View<M::Made>>) -> M
        requires table { seat.old.table_id ≡ self.now }
        requires idle { IsIdle seat.old.me }
        ensures table { (seat.new.table_id ≡ seat.old.table_id) × (seat.new.id ≡ seat.old.id) }
        ensures took { Took M.history M.made M.takes M.step M.keeps seat.old.me result seat.new.me }
    {
        for _ in rt.forever() {
            if let Some(machine) = self.try_take(seat) {
                return machine;
            }
            if self.stays_taken() {
                self.sleep(rt);
            }
        }
        unreachable!()
    }

    // Looks at the turn for a while, and says whether it was taken all the time.
    fn stays_taken(&self) -> bool {
        for _ in 0..LOOKS {
            if self.table.shared.peek(TURN) == 0 {
                return false;
            }
            spin_loop();
        }
        true
    }

    // Sleeps until a release, if the turn is taken. It says so first, so a release that doesn't see it has made the turn
    // free before this looks. A wake is for one sleeper alone: who was woken says it again for the others.
    fn sleep<R: Wait>(&self, rt: &R) {
        self.asleep.store(1, SeqCst);
        if self.table.shared.peek(TURN) == 1 {
            self.asleep.park(rt, 1);
            self.asleep.store(1, SeqCst);
        }
    }

    // Wakes one of those who sleep, if any may. Whoever is about to sleep then finds the 0, and doesn't.
    fn wake(&self) {
        if self.asleep.load(SeqCst) == 1 {
            self.asleep.store(0, SeqCst);
            self.asleep.wake_one();
        }
    }

    // Puts the machine into the slot, which stays with the seat.
    pub(crate) fn put_back(&self, seat: &mut Seat<Option<M>, View<M::Made>>, machine: M)
        requires table { seat.old.table_id ≡ self.now }
        requires empty { seat.old.me.1 ≡ (0, None) ∷ [] }
        ensures table { (seat.new.table_id ≡ seat.old.table_id) × (seat.new.id ≡ seat.old.id) }
        ensures held { seat.new.me ≡ (seat.old.me.0, (0, Some machine) ∷ []) }
    {
        let before = self.table.shared.exchange(seat, MACHINE, Some(machine));
        let None = before else { unreachable!() };
    }

    // Adds the call to the history, where it was kept. The machine in the slot, and the text, are told for the contract alone.
    pub(crate) fn settle(
        &self,
        seat: &mut Seat<Option<M>, View<M::Made>>,
        _machine: &Snapshot<M>,
        _text: &[u8],
        kept: bool,
    )
        requires table { seat.old.table_id ≡ self.now }
        requires held { Holding seat.old.me _machine.now.value }
        requires grown { kept ≡ true → (M.history _machine.now.value ≡ seat.old.me.0.seen ++ event seat.old.me.0.number _text.now ∷ [])
            × MayFollow M.takes M.step M.keeps seat.old.me.0.made seat.old.me.0.seen seat.old.me.0.number _text.now
            × (length (M.history _machine.now.value) ≤ 2 ^ 63) }
        ensures table { (seat.new.table_id ≡ seat.old.table_id) × (seat.new.id ≡ seat.old.id) }
        ensures view { MatchBool kept (seat.new.me ≡ (with_call seat.old.me.0 (M.history _machine.now.value), seat.old.me.1)) (seat.new.me ≡ seat.old.me) }
    {
        if kept {
            self.table.shared.fetch_add::<Append<M>>(seat, COUNT, 1);
        }
    }

    // Gives the turn up, with the machine in the slot, and wakes one of those who sleep.
    pub(crate) fn release(&self, seat: &mut Seat<Option<M>, View<M::Made>>, _machine: &Snapshot<M>)
        requires table { seat.old.table_id ≡ self.now }
        requires held { Holding seat.old.me _machine.now.value }
        requires machine { (M.history _machine.now.value ≡ seat.old.me.0.seen) × (M.made _machine.now.value ≡ seat.old.me.0.made) }
        ensures table { (seat.new.table_id ≡ seat.old.table_id) × (seat.new.id ≡ seat.old.id) }
        ensures view { seat.new.me ≡ (without_turn seat.old.me.0, []) }
    {
        self.table.shared.store::<Release<M>>(seat, TURN, 0);
        self.wake();
    }
}
