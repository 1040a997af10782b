//! The rule of the table that the passes share, and what each step on it tells.
ghost use Rattle.catalog_lock.specs.Turns.{Kept, newcomer, Tries, Appends, Releases, Looks, with_next, view_split_off, joined_with, used_up};

use crate::history::View;
use crate::machine::Machine;
use atomic_table::{Join, Play, Split, TableRule};
use std::marker::PhantomData;
use std::snapshot::Snapshot;

/// There is one history, and one pass at a time has the turn.
pub struct OneTurn<M> {
    machine: PhantomData<M>,
}

impl<M: Machine> TableRule<Option<M>, View<M::Made>, Snapshot<M>> for OneTurn<M> {
    ghost holds = { λ key. Kept M.history M.made M.takes M.step M.keeps (M.made key.value) };

    ghost first = { λ key. newcomer (M.made key.value) };
}

/// The try for the turn, on word 1.
pub struct Try<M> {
    machine: PhantomData<M>,
}

impl<M: Machine> Play<Option<M>, View<M::Made>> for Try<M> {
    ghost then = { Tries M.history M.made M.takes M.step M.keeps };
}

/// The step at which the history grows, on word 0.
pub struct Append<M> {
    machine: PhantomData<M>,
}

impl<M: Machine> Play<Option<M>, View<M::Made>> for Append<M> {
    ghost then = { Appends M.history M.made M.takes M.step M.keeps };
}

/// The end of the turn, on word 1.
pub struct Release<M> {
    machine: PhantomData<M>,
}

impl<M: Machine> Play<Option<M>, View<M::Made>> for Release<M> {
    ghost then = { Releases M.history M.made M.takes M.step M.keeps };
}

/// A look at word 0.
pub struct Look<M> {
    machine: PhantomData<M>,
}

impl<M: Machine> Play<Option<M>, View<M::Made>> for Look<M> {
    ghost then = { Looks M.history M.made M.takes M.step M.keeps };
}

/// How the view of the first pass is cut in two, and how two views are made one.
pub struct Give<M> {
    machine: PhantomData<M>,
}

impl<M: Machine> Split<View<M::Made>> for Give<M> {
    ghost left = { with_next };

    ghost right = { view_split_off };
}

impl<M: Machine> Join<View<M::Made>> for Give<M> {
    ghost both = { joined_with };

    ghost spent = { used_up M.blank };
}
