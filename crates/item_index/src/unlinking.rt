//! Links that are taken away at both ends.

ghost use Rattle.std.specs.Prelude.{◌≡◌, ◌+◌, ◌<◌, ◌^◌, ℕ, [], length, map, slice_set};
ghost use Rattle.item_index.specs.Shelves.{list_at, times, without};

use crate::lists::Lists;

/// Takes away the links from a node: its own list in `ends`, last first, and the node in the list of each
/// other end in `back`. Returns how many there were. No memory.
pub(crate) fn unlink(ends: &mut Lists, back: &mut Lists, node: u32) -> usize
    requires node { node < length ends.old.lists }
    requires mirrored { (n m : ℕ) → times m (list_at ends.old.lists n) ≡ times n (list_at back.old.lists m) }
    ensures ends { ends.new.lists ≡ slice_set ends.old.lists node [] }
    ensures back { back.new.lists ≡ map (without node) back.old.lists }
    ensures mirrored { (n m : ℕ) → times m (list_at ends.new.lists n) ≡ times n (list_at back.new.lists m) }
    ensures count { result ≡ length (list_at ends.old.lists node) }
    ensures ends_spare { ends.new.spare ≡ ends.old.spare + result }
    ensures back_spare { back.new.spare ≡ back.old.spare + result }
    ensures ends_room { ends.new.spare_lists ≡ ends.old.spare_lists }
    ensures back_room { back.new.spare_lists ≡ back.old.spare_lists }
    ensures small { ends.old.spare + result < 2 ^ 33 }
{
    let count = ends.len_of(node as usize);
    while let Some(other) = ends.pop(node as usize) {
        back.take_out(other as usize, node);
    }
    count
}
