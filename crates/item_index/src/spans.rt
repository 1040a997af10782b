//! Lists that lie in one row of cells, each in a span of its own.

ghost use Rattle.std.specs.Prelude.{◌≡◌, ◌+◌, ◌*◌, ◌<◌, ◌≤◌, ◌^◌, length, vec_len};
ghost use Rattle.item_index.specs.Spans.{AreSound, held, span_at, texts};

use std::mem;

/// Where a list lies: `room` cells from `start` on, of which the first `len` are in use.
#[derive(Clone, Copy)]
pub struct Span {
    pub(crate) start: u32,
    pub(crate) len: u32,
    pub(crate) room: u32,
}

/// How many cells are in use.
pub(crate) fn used_cells(spans: &[Span]) -> usize
    requires { held spans.now < 2 ^ 64 }
    ensures { result ≡ held spans.now }
{
    let mut used = 0;
    for span in spans {
        used += span.len as usize;
    }
    used
}

/// Lays the lists out anew, in other cells, each with room for half as many numbers more, and that at `grown`,
/// if there is one, for one more at least. Returns the first cell that no list has.
pub(crate) fn repack(from: &[u32], to: &mut [u32], spans: &mut [Span], grown: usize) -> usize
    requires sound { AreSound spans.old (length from.now) }
    requires enough { 3 * (held spans.old + 1) ≤ 2 * length to.old }
    requires small { length to.old < 2 ^ 32 }
    ensures texts { texts to.new spans.new ≡ texts from.now spans.old }
    ensures sound { AreSound spans.new result }
    ensures top { result ≤ length to.new }
    ensures grown { grown < length spans.old → (span_at spans.new grown).len < (span_at spans.new grown).room }
    ensures held { held spans.new ≡ held spans.old }
{
    let mut top = 0;
    for i in 0..spans.len() {
        let span = spans[i];
        let (start, len) = (span.start as usize, span.len as usize);
        let more = if i == grown { 1 } else { 0 };
        let room = len + len / 2 + more;
        to[top..top + len].copy_from_slice(&from[start..start + len]);
        spans[i] = Span {
            start: top as u32,
            len: span.len,
            room: room as u32,
        };
        top += room;
    }
    top
}

/// Makes room for one more number at least in a list. Returns the first cell that no list has.
pub(crate) fn make_room(
    cells: &mut Vec<u32>,
    other: &mut Vec<u32>,
    spans: &mut [Span],
    top: usize,
    at: usize,
) -> usize
    requires sound { AreSound spans.old top }
    requires top { top ≤ vec_len cells.old }
    requires same { vec_len other.old ≡ vec_len cells.old }
    requires enough { 3 * (held spans.old + 1) ≤ 2 * vec_len cells.old }
    requires small { vec_len cells.old < 2 ^ 32 }
    requires at { at < length spans.old }
    ensures texts { texts cells.new.items spans.new ≡ texts cells.old.items spans.old }
    ensures sound { AreSound spans.new result }
    ensures top { result ≤ vec_len cells.new }
    ensures room { (span_at spans.new at).len < (span_at spans.new at).room }
    ensures held { held spans.new ≡ held spans.old }
    ensures len { vec_len cells.new ≡ vec_len cells.old }
    ensures same { vec_len other.new ≡ vec_len other.old }
{
    if spans[at].len < spans[at].room {
        return top;
    }
    widen(cells, other, spans, top, at)
}

/// Moves a list to where it has room for more: to the top, or in a new layout.
fn widen(
    cells: &mut Vec<u32>,
    other: &mut Vec<u32>,
    spans: &mut [Span],
    top: usize,
    at: usize,
) -> usize
    requires sound { AreSound spans.old top }
    requires top { top ≤ vec_len cells.old }
    requires same { vec_len other.old ≡ vec_len cells.old }
    requires enough { 3 * (held spans.old + 1) ≤ 2 * vec_len cells.old }
    requires small { vec_len cells.old < 2 ^ 32 }
    requires at { at < length spans.old }
    ensures texts { texts cells.new.items spans.new ≡ texts cells.old.items spans.old }
    ensures sound { AreSound spans.new result }
    ensures top { result ≤ vec_len cells.new }
    ensures room { (span_at spans.new at).len < (span_at spans.new at).room }
    ensures held { held spans.new ≡ held spans.old }
    ensures len { vec_len cells.new ≡ vec_len cells.old }
    ensures same { vec_len other.new ≡ vec_len other.old }
{
    let span = spans[at];
    let (start, len) = (span.start as usize, span.len as usize);
    let room = 2 * len + 2;
    if room > cells.len() - top {
        let top = repack(cells.as_slice(), other.as_mut_slice(), spans, at);
        mem::swap(cells, other);
        return top;
    }
    cells.copy_within(start..start + len, top);
    spans[at] = Span {
        start: top as u32,
        len: span.len,
        room: room as u32,
    };
    top + room
}
