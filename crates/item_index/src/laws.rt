//! What follows from the contracts of an index: laws over graphs alone.

ghost use Rattle.std.specs.Prelude.{◌≡◌, ℕ, List, filter, reverse, IsPermutation};
ghost use Rattle.item_index.specs.Graphs.{AreLinks, Graph, IsWhole};
ghost use Rattle.item_index.specs.Undo.{AreNewLinks, HasRoomFor, HaveKeys, IsAsBefore, numbers_given, touches, undone, without_new};

/// Numbers are removed, then keys inserted, then links made that each have an end among the new numbers. Where
/// what was put in is removed again, last first, and what was removed is put in again, last first, and linked
/// again in whatever order, each key gets its old number, and all is as it was before but for the order of the
/// links.
pub fn a_change_undone_in_reverse<K: Eq>()
    ensures { (g : Graph K) (out : List ℕ) (old new : List K) (links added taken : List (ℕ × ℕ)) → IsWhole K.eq g → HaveKeys g out old → AreLinks g links
        → AreNewLinks g out new added → HasRoomFor g out new added → IsPermutation (filter (touches out) links) taken
        → (numbers_given (without_new g out new added) (reverse old) ≡ reverse out) × IsAsBefore g (undone g out old new added taken) links }
{}
