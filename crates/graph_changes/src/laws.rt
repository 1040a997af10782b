//! The law stands in the contract of a function that does nothing.

ghost use Rattle.std.specs.Prelude.{ℕ, ◌<◌, List, filter, reverse, IsPermutation};
ghost use Rattle.item_index.specs.Graphs.{AreLinks, Graph, IsWhole};
ghost use Rattle.item_index.specs.Undo.{AreNewLinks, HasRoomFor, HaveKeys, changed, numbers_given, removed_all, touches};
ghost use Rattle.graph_changes.specs.Changes.{CanChange};

/// A change that was made can be undone by a change: the numbers that were given go out, last first, what had gone out
/// comes in, last first, and the links that went are made again, where there had been room for one link more.
pub fn a_change_can_be_undone<K: Eq>()
    ensures { (g : Graph K) (out : List ℕ) (old new : List K) (links added taken : List (ℕ × ℕ)) → IsWhole K.eq g → HaveKeys g out old → AreLinks g links
        → AreNewLinks g out new added → HasRoomFor g out new added → IsPermutation (filter (touches out) links) taken → 0 < g.spare_links
        → CanChange K.eq (changed g out new added) (reverse (numbers_given (removed_all g out) new)) (reverse old) taken }
{}
