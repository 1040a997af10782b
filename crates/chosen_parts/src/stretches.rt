//! The places of parts of a catalogue.

ghost use Rattle.std.specs.Prelude.{IfOk};
ghost use Rattle.std.specs.List.Sorted.{IsNonDecreasingBy};
ghost use Rattle.chosen_parts.specs.Parts.{AreRanges};

use cat_items::{Catalogue, Part, places};
use std::alloc::{AllocError, Global};
use std::ops::Range;

/// The places of each of these parts, in the order of the parts.
fn places_of_each(
    alloc: Global,
    c: &Catalogue,
    parts: &[Part<'_>],
) -> Result<Vec<Range<usize>>, AllocError>
    ensures { IfOk result (λ ranges. AreRanges c.now.items parts.now ranges.items) }
{
    let mut ranges = Vec::with_capacity(alloc, parts.len())?;
    for part in parts {
        ranges.push(places(c, *part))?;
    }
    Ok(ranges)
}

/// The places of each of these parts, in the order of their first places.
pub(crate) fn places_of(
    alloc: Global,
    c: &Catalogue,
    parts: &[Part<'_>],
) -> Result<Vec<Range<usize>>, AllocError>
    ensures ranges { IfOk result (λ ranges. AreRanges c.now.items parts.now ranges.items) }
    ensures order { IfOk result (λ ranges. IsNonDecreasingBy (λ range. range.start) ranges.items) }
{
    let mut ranges = places_of_each(alloc, c, parts)?;
    ranges.sort_unstable_by_key(|range| range.start);
    Ok(ranges)
}
