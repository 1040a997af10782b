//! Lists of numbers that share one store.

ghost use Rattle.std.specs.Prelude.{◌≡◌, ◌+◌, ◌*◌, ◌^◌, ◌<◌, ◌≤◌, ℕ, [], length, slice_get, IfSome, IfNone, OnOk};
ghost use Rattle.item_index.specs.Shelves.{list_at, pushed, taken_out, times, widened};

use crate::spans::{Span, make_room, repack, used_cells};
use std::alloc::{AllocError, Global};
use std::marker::Model;

/// For how many numbers 2^32 cells do.
const MOST_NUMBERS: usize = 2_290_000_000;

/// Lists of numbers, with room for so many more numbers in whichever lists.
#[derive(Drop)]
pub(crate) struct Lists {
    cells: Vec<u32>,
    other: Vec<u32>,
    spans: Vec<Span>,
    top: usize,
    spare: usize,
}

impl Model for Lists {
    ghost use Rattle.std.specs.Prelude.{◌≡◌, ◌+◌, ◌-◌, ◌*◌, ◌<◌, ◌≤◌, ◌^◌, vec_len, vec_capacity};
    ghost use Rattle.item_index.specs.Shelves.{Shelf};

    ghost Value = { Shelf };

    ghost use Rattle.item_index.specs.Spans.{AreSound, held, texts};

    ghost view = { λ s. record { lists = texts s.cells.items s.spans.items; spare = s.spare; spare_lists = vec_capacity s.spans - vec_len s.spans } };

    ghost invariant = { λ s. AreSound s.spans.items s.top × (s.top ≤ vec_len s.cells) × (vec_len s.other ≡ vec_len s.cells) × (vec_len s.cells < 2 ^ 32) × (3 * (held s.spans.items + s.spare) ≤ 2 * vec_len s.cells) };
}

/// How many cells a store has, and for how many numbers it then has room, where `used` numbers and as many as
/// `more` are to have room: a quarter more than that, and half as many cells again, so that lists can grow.
/// None where 2^32 cells don't do.
fn layout(used: usize, more: usize) -> Option<(usize, usize)>
    ensures room { IfSome result (λ p. used + more ≤ p.1) }
    ensures cells { IfSome result (λ p. 3 * p.1 ≤ 2 * p.0) }
    ensures small { IfSome result (λ p. p.0 < 2 ^ 32) }
    ensures none { IfNone result (MOST_NUMBERS < used + more) }
{
    let wanted = used.checked_add(more)?;
    if wanted > MOST_NUMBERS {
        return None;
    }
    let room = wanted + wanted / 4;
    Some((room + room / 2 + 1, room))
}

impl Lists {
    pub(crate) fn new(alloc: Global) -> Lists
        ensures lists { result.lists ≡ [] }
        ensures spare { result.spare ≡ 0 }
    {
        Lists {
            cells: Vec::new(alloc),
            other: Vec::new(alloc),
            spans: Vec::new(alloc),
            top: 0,
            spare: 0,
        }
    }

    /// How many more numbers there is room for.
    pub(crate) fn spare(&self) -> usize
        ensures value { result ≡ self.now.spare }
        ensures small { result < 2 ^ 32 }
    {
        let _ = &self.cells;
        self.spare
    }

    /// Makes room for so many more lists. `Err` is want of memory.
    pub(crate) fn reserve_lists(&mut self, more: usize) -> Result<(), AllocError>
        ensures lists { self.new.lists ≡ self.old.lists }
        ensures spare { self.new.spare ≡ self.old.spare }
        ensures ok { OnOk result (more ≤ self.new.spare_lists) }
        ensures grown { self.old.spare_lists ≤ self.new.spare_lists }
    {
        self.spans.reserve(more)
    }

    /// Makes room for so many more numbers. `Err` is want of memory, as it is where 2^32 cells don't do.
    pub(crate) fn reserve(&mut self, more: usize) -> Result<(), AllocError>
        ensures lists { self.new.lists ≡ self.old.lists }
        ensures spare_lists { self.new.spare_lists ≡ self.old.spare_lists }
        ensures ok { OnOk result (more ≤ self.new.spare) }
        ensures grown { self.old.spare ≤ self.new.spare }
    {
        if more <= self.spare {
            return Ok(());
        }
        let used = used_cells(self.spans.as_slice());
        let (len, room) = match layout(used, more) {
            Some(sizes) => sizes,
            None => return Err(AllocError),
        };
        let mut cells = Vec::new(*self.cells.allocator());
        cells.resize(len, 0)?;
        let mut other = Vec::new(*self.cells.allocator());
        other.resize(len, 0)?;
        let none = self.spans.len();
        self.top = repack(
            self.cells.as_slice(),
            cells.as_mut_slice(),
            self.spans.as_mut_slice(),
            none,
        );
        self.cells = cells;
        self.other = other;
        self.spare = room - used;
        Ok(())
    }

    /// Adds an empty list. No memory.
    pub(crate) fn push_list(&mut self)
        requires { 0 < self.old.spare_lists }
        ensures { self.new ≡ widened self.old }
    {
        self.spans.push_reserved(Span {
            start: 0,
            len: 0,
            room: 0,
        });
    }

    /// The numbers of a list.
    pub(crate) fn list(&self, list: usize) -> &[u32]
        requires { list < length self.now.lists }
        ensures { result.now ≡ list_at self.now.lists list }
    {
        let span = self.spans[list];
        let start = span.start as usize;
        &self.cells[start..start + span.len as usize]
    }

    /// How many lists there are.
    pub(crate) fn len(&self) -> usize
        ensures value { result ≡ length self.now.lists }
    {
        self.spans.len()
    }

    /// How many numbers a list has.
    pub(crate) fn len_of(&self, list: usize) -> usize
        requires { list < length self.now.lists }
        ensures value { result ≡ length (list_at self.now.lists list) }
        ensures small { self.now.spare + result < 2 ^ 33 }
    {
        self.spans[list].len as usize
    }

    /// The number at a place of a list.
    pub(crate) fn get(&self, list: usize, at: usize) -> Option<usize>
        requires { list < length self.now.lists }
        ensures number { result ≡ slice_get (list_at self.now.lists list) at }
        ensures small { IfSome result (λ n. at < 2 ^ 63) }
    {
        let numbers = self.list(list);
        if at < numbers.len() {
            Some(numbers[at] as usize)
        } else {
            None
        }
    }

    /// Puts a number at the end of a list. No memory.
    pub(crate) fn push(&mut self, list: usize, number: u32)
        requires list { list < length self.old.lists }
        requires room { 0 < self.old.spare }
        ensures { self.new ≡ pushed self.old list number }
    {
        self.top = make_room(
            &mut self.cells,
            &mut self.other,
            self.spans.as_mut_slice(),
            self.top,
            list,
        );
        let span = &mut self.spans[list];
        let end = span.start as usize + span.len as usize;
        span.len += 1;
        self.cells[end] = number;
        self.spare -= 1;
    }

    /// Takes the last number of a list, if there is one. No memory.
    pub(crate) fn pop(&mut self, list: usize) -> Option<u32>
        requires { list < length self.old.lists }
        ensures some { IfSome result (λ x. (k : ℕ) × (length (list_at self.old.lists list) ≡ k + 1) × (slice_get (list_at self.old.lists list) k ≡ Some x) × (self.new ≡ taken_out self.old list k)) }
        ensures none { IfNone result ((self.new ≡ self.old) × (list_at self.old.lists list ≡ [])) }
    {
        let numbers = self.list(list);
        if numbers.len() == 0 {
            return None;
        }
        let at = numbers.len() - 1;
        let last = numbers[at];
        self.take_out_at(list, at);
        Some(last)
    }

    /// Takes a number out of a list that has it: the last such, which is looked for from the end. No memory.
    pub(crate) fn take_out(&mut self, list: usize, number: u32)
        requires list { list < length self.old.lists }
        requires there { 0 < times number (list_at self.old.lists list) }
        ensures { (k : ℕ) × (slice_get (list_at self.old.lists list) k ≡ Some number) × (self.new ≡ taken_out self.old list k) }
    {
        let at = last_place(self.list(list), number);
        self.take_out_at(list, at);
    }

    fn take_out_at(&mut self, list: usize, at: usize)
        requires list { list < length self.old.lists }
        requires at { at < length (list_at self.old.lists list) }
        ensures { self.new ≡ taken_out self.old list at }
    {
        let span = &mut self.spans[list];
        let start = span.start as usize;
        let end = start + span.len as usize;
        span.len -= 1;
        self.cells.copy_within(start + at + 1..end, start + at);
        self.spare += 1;
    }
}

/// The last place of a number in a list that has it.
fn last_place(numbers: &[u32], number: u32) -> usize
    requires { 0 < times number numbers.now }
    ensures { slice_get numbers.now result ≡ Some number }
{
    let mut at = numbers.len() - 1;
    while numbers[at] != number {
        at -= 1;
    }
    at
}
