//! Each law stands in the contract of a function that does nothing.

ghost use Rattle.std.specs.Prelude.{◌≡◌, ℕ, [], List, Bool, filter, IsPermutation};
ghost use Rattle.item_index.specs.Graphs.{AreLinks, Graph, IsWhole, no_graph, with_spare};
ghost use Rattle.item_index.specs.Undo.{AreNewLinks, HasRoomFor, HaveKeys, changed, removed_all, touches, undone};
ghost use Rattle.graph_steps.specs.Steps.{AreNewKeys};
ghost use Rattle.cat_items.specs.declared.edit.Edit.{Edit};
ghost use Rattle.cat_items.specs.declared.item.Item.{Item};
ghost use Rattle.cat_items.specs.Edits.{IsNew};
ghost use Rattle.cat_items.specs.Fit.{IsFit};
ghost use Rattle.cat_items.specs.Good.{IsGood};
ghost use Rattle.cat_items.specs.Survivors.{AreSurvivors, IsWithSystem};
ghost use Rattle.cascade_laws.specs.Alike.{AreAlike};
ghost use Rattle.cascade_laws.specs.Spreading.{IsSpread};
ghost use Rattle.board_graph.specs.Boards.{Holds, IsBoard};
ghost use Rattle.board_steps.specs.Plans.{HasNoHelper, IsFullBoard, IsPlanOf, TellsApart};

/// Where a plan of an edit's suspects is carried out on the board of a catalogue, it is the board of the new one.
/// `alike` says this of any two lists in which what is no suspect is alike.
pub fn a_plan_makes_the_new_board()
    ensures edited { (c edited f new : List Item) (edit : Edit) (suspect : Item → Bool) (good : IsGood c) → IsFit c edit edited → IsWithSystem edited f → IsSpread c good.all edit f suspect → AreSurvivors f new
        → (eq : Item → Item → Bool) (g : Graph Item) (out : List ℕ) (keys : List Item) (links : List (ℕ × ℕ)) → IsWhole eq g → IsFullBoard g c → IsPlanOf g c new suspect out keys links → IsFullBoard (changed g out keys links) new }
    ensures alike { (c new : List Item) (suspect : Item → Bool) → HasNoHelper c → HasNoHelper new → AreAlike c new suspect
        → (eq : Item → Item → Bool) (g : Graph Item) (out : List ℕ) (keys : List Item) (links : List (ℕ × ℕ)) → IsWhole eq g → IsFullBoard g c → IsPlanOf g c new suspect out keys links → IsFullBoard (changed g out keys links) new }
{}

/// What a plan takes out has keys, in turn; then each key that comes in is new, in turn, by a test that tells the keys
/// of a board apart; and each link that is made is between keys that are there then, of which one at least came in.
pub fn a_plan_can_be_carried_out()
    ensures had { (c new : List Item) (suspect : Item → Bool) (g : Graph Item) (out : List ℕ) (keys : List Item) (links : List (ℕ × ℕ)) → IsPlanOf g c new suspect out keys links → (old : List Item) × HaveKeys g out old }
    ensures keys { (c new : List Item) (suspect : Item → Bool) → HasNoHelper c → HasNoHelper new → AreAlike c new suspect
        → (eq : Item → Item → Bool) (g : Graph Item) (out : List ℕ) (keys : List Item) (links : List (ℕ × ℕ)) → IsWhole eq g → IsFullBoard g c → IsPlanOf g c new suspect out keys links → TellsApart eq new → AreNewKeys eq (removed_all g out) keys }
    ensures links { (c new : List Item) (suspect : Item → Bool) → HasNoHelper c → HasNoHelper new → AreAlike c new suspect
        → (eq : Item → Item → Bool) (g : Graph Item) (out : List ℕ) (keys : List Item) (links : List (ℕ × ℕ)) → IsWhole eq g → IsFullBoard g c → IsPlanOf g c new suspect out keys links → AreNewLinks g out keys links }
{}

/// Where a plan that was carried out is undone in reverse, with the links that went in whatever order, the board is
/// that of the old catalogue.
pub fn a_plan_taken_back_leaves_the_old_board()
    ensures { (c new : List Item) (suspect : Item → Bool) → HasNoHelper c → HasNoHelper new → AreAlike c new suspect
        → (eq : Item → Item → Bool) (g : Graph Item) (out : List ℕ) (old keys : List Item) (links added taken : List (ℕ × ℕ)) → IsWhole eq g → IsFullBoard g c → IsPlanOf g c new suspect out keys added
        → HaveKeys g out old → AreLinks g links → HasRoomFor g out keys added → IsPermutation (filter (touches out) links) taken → IsFullBoard (undone g out old keys added taken) c }
{}

/// The keys of a board that are no helpers' are exactly the items of its catalogue.
pub fn a_board_holds_its_catalogue()
    ensures { (g : Graph Item) (c : List Item) → HasNoHelper c → IsBoard g c → Holds g c }
{}

/// No good catalogue has an item with a helper's key, and no new one.
pub fn no_catalogue_has_a_helper()
    ensures good { (c : List Item) → IsGood c → HasNoHelper c }
    ensures new { (c new : List Item) (edit : Edit) → IsNew c edit new → HasNoHelper new }
{}

/// How much room there is in a graph changes no board, and no plan for it.
pub fn room_changes_no_board_and_no_plan()
    ensures board { (g : Graph Item) (c : List Item) (keys links : ℕ) → IsFullBoard g c → IsFullBoard (with_spare g keys links) c }
    ensures plan { (g : Graph Item) (c new : List Item) (suspect : Item → Bool) (out : List ℕ) (keys : List Item) (links : List (ℕ × ℕ)) (more_keys more_links : ℕ)
        → IsPlanOf g c new suspect out keys links → IsPlanOf (with_spare g more_keys more_links) c new suspect out keys links }
{}

/// A graph with no keys is the board of no items.
pub fn an_empty_graph_is_a_board()
    ensures { IsFullBoard no_graph [] }
{}
