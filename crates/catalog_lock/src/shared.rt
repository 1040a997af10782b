ghost use mathlib.Core.List.{IsPrefix};
ghost use Rattle.std.specs.Prelude.{◌≡◌, ◌≢◌, ◌⊎◌, ◌<◌, [], IfOk, IfErr, MatchBool, All};
ghost use Rattle.catalog_lock.specs.History.{calls_by, IsLegal};
ghost use Rattle.catalog_lock.specs.Passes.{first_pass, MakesCall, MakesNoCall, split_off, after_split, after_join, IsJoined, AreAllJoined};

use crate::history::View;
use crate::machine::Machine;
use crate::pass::Pass;
use crate::rule::{Give, Look, OneTurn};
use atomic_table::{Refused, Table};
use std::alloc::Global;
use std::marker::Model;
use std::snapshot::Snapshot;
use std::sync::Wait;
use std::sync::atomic::AtomicU64;

// The word that counts the history.
pub(crate) const COUNT: usize = 0;

// The word that is 1 while a pass has the turn.
pub(crate) const TURN: usize = 1;

// The slot of the machine.
pub(crate) const MACHINE: usize = 0;

/// A machine that sessions share, one call at a time.
///
/// Contracts see which one it is, so that a pass of another is refused. Who makes one has to [`close`](Shared::close) it,
/// for the machine need not be a type that can be let go.
pub struct Shared<M: Machine> {
    pub(crate) table: Table<Option<M>, View<M::Made>, Snapshot<M>, OneTurn<M>, Global>,
    // 1 where a thread may sleep on it until the turn is free.
    pub(crate) asleep: AtomicU64,
}

impl<M: Machine> Model for Shared<M> {
    ghost use Rattle.std.specs.Prelude.{◌≡◌};
    ghost use Rattle.atomic_table.specs.Seated.{TableId};

    ghost Value = { TableId };

    ghost view = { λ s. s.table.shared.table_id };

    ghost invariant = { λ s. (s.table.shared.table_id.words ≡ 2) × (s.table.shared.table_id.slots ≡ 1) };
}

impl<M: Machine> Shared<M> {
    /// Shares a machine that has no events yet, and gives the first pass, of number 0.
    ///
    /// `Err` is want of memory alone, and hands the machine back.
    pub fn new(alloc: Global, machine: M) -> Result<(Shared<M>, Pass<M>), M>
        requires { M.history machine ≡ [] }
        ensures ok { IfOk result (λ p. p.1 ≡ first_pass p.0 (M.made machine)) }
        ensures err { IfErr result (λ m. m ≡ machine) }
    {
        let about = Snapshot::of(&machine);
        let Ok(mut slots) = Vec::with_capacity(alloc, 1) else {
            return Err(machine);
        };
        slots.push_reserved(Some(machine));
        match Table::new(alloc, &[0, 0], slots, &about) {
            Ok((table, seat)) => Ok((
                Shared {
                    table,
                    asleep: AtomicU64::new(0),
                },
                Pass {
                    number: 0,
                    next: 1,
                    seat,
                },
            )),
            Err(Refused { mut slots }) => {
                let Some(Some(machine)) = slots.pop() else {
                    unreachable!()
                };
                slots.destroy_empty();
                Err(machine)
            }
        }
    }

    /// Makes a call under the pass's number, once it gets its turn, and answers what the machine answers.
    ///
    /// It has no answer of its own and takes no memory but what the machine takes.
    pub fn call<R: Wait>(&self, rt: &R, pass: &mut Pass<M>, text: &[u8]) -> M::Reply
        requires table { pass.old.table ≡ self.now }
        requires takes { M.takes pass.old.made text.now }
        ensures call { MatchBool (M.keeps result)
            (MakesCall M.step pass.old text.now result pass.new)
            (MakesNoCall M.may_give pass.old text.now result pass.new) }
        ensures same { pass.new ≡ record pass.old { seen = pass.new.seen; mine = pass.new.mine } }
        ensures seen { IsPrefix pass.old.seen pass.new.seen }
        ensures legal { IsLegal M.takes M.step M.keeps pass.new.made pass.new.seen }
        ensures own { calls_by pass.new.number pass.new.seen ≡ pass.new.mine }
    {
        let mut machine = self.take(rt, &mut pass.seat);
        let reply = machine.act(pass.number, text);
        let kept = M::kept(&reply);
        let known = Snapshot::of(&machine);
        self.put_back(&mut pass.seat, machine);
        self.settle(&mut pass.seat, &known, text, kept);
        self.release(&mut pass.seat, &known);
        reply
    }

    /// A new pass with the next unused number, which has seen what the first pass has seen.
    ///
    /// It takes no memory and doesn't wait. Numbers end at 4,294,967,294.
    pub fn split(&self, first: &mut Pass<M>) -> Pass<M>
        requires table { first.old.table ≡ self.now }
        requires first { (first.old.number ≡ 0) × (first.old.next < 4294967295) }
        ensures pass { result ≡ split_off first.old }
        ensures first { first.new ≡ after_split first.old }
        ensures unused { calls_by result.number first.old.seen ≡ [] }
    {
        self.table.shared.load::<Look<M>>(&mut first.seat, COUNT);
        let seat = self.table.shared.split_seat::<Give<M>>(&mut first.seat);
        let number = first.next;
        first.next += 1;
        Pass {
            number,
            next: 0,
            seat,
        }
    }

    /// Ends a pass other than the first, and keeps its calls in another.
    ///
    /// It takes no memory and doesn't wait.
    pub fn join(&self, pass: &mut Pass<M>, other: Pass<M>)
        requires table { (pass.old.table ≡ self.now) × (other.table ≡ self.now) }
        requires other { other.number ≢ 0 }
        ensures joined { pass.new ≡ after_join pass.old other }

        // The shorter of the two histories begins the longer.
        ensures seen { IsPrefix pass.old.seen pass.new.seen × IsPrefix other.seen pass.new.seen }
    {
        let Pass {
            number: _,
            next: _,
            seat,
        } = other;
        self.table.shared.join_seat::<Give<M>>(&mut pass.seat, seat);
        self.table.shared.load::<Look<M>>(&mut pass.seat, COUNT);
    }

    /// Gives the machine back, once each pass that was split off was joined into the first, directly or through another.
    ///
    /// It takes no memory and doesn't wait.
    pub fn close(self, pass: Pass<M>) -> M
        requires table { pass.table ≡ self }
        requires first { pass.number ≡ 0 }
        requires all { AreAllJoined pass.next pass.joined }
        ensures made { M.made result ≡ pass.made }
        ensures seen { IsPrefix pass.seen (M.history result) }
        ensures legal { IsLegal M.takes M.step M.keeps pass.made (M.history result) }
        ensures own { calls_by 0 (M.history result) ≡ pass.mine }
        ensures joined { All (λ x. calls_by x.number (M.history result) ≡ x.calls) pass.joined }
        ensures others { All (λ e. (e.session ≡ 0) ⊎ IsJoined e.session pass.joined) (M.history result) }
    {
        let Shared { table, asleep: _ } = self;
        let Pass {
            number: _,
            next: _,
            seat,
        } = pass;
        let mut closed = table.close_with(seat);
        let Some(machine) = closed.take(MACHINE) else {
            unreachable!()
        };
        closed.free();
        machine
    }
}
