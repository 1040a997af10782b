//! The law stands in the contract of a function that does nothing.

ghost use Rattle.std.specs.Prelude.{◌≡◌, ◌↔◌, ℕ, List, Bool, false, true};
ghost use Rattle.std.specs.List.{Contains};
ghost use Rattle.item_index.specs.Graphs.{Graph, HasKey};
ghost use Rattle.cat_items.specs.declared.edit.Edit.{Edit};
ghost use Rattle.cat_items.specs.declared.item.Item.{Item};
ghost use Rattle.cat_items.specs.Catalogues.{IsInOrder};
ghost use Rattle.cat_items.specs.Edits.{IsNew};
ghost use Rattle.cat_items.specs.Fit.{IsFit};
ghost use Rattle.cat_items.specs.Good.{IsGood};
ghost use Rattle.cat_items.specs.Survivors.{IsWithSystem};
ghost use Rattle.role_graph.specs.Marked.{marked};
ghost use Rattle.cascade_laws.specs.Asks.{Asks};
ghost use Rattle.cascade_laws.specs.Found.{IsFound};
ghost use Rattle.cascade_laws.specs.Spreading.{IsSpread};
ghost use Rattle.cascade_laws.specs.Topics.{IsUnder, Topic};
ghost use Rattle.board_graph.specs.BoardKeys.{IsKeyOf};
ghost use Rattle.board_steps.specs.Plans.{IsFullBoard};
ghost use Rattle.asked_parts.specs.Parts.{IsKept, IsPartOf};
ghost use Rattle.part_rescue.specs.Rescued.{AreRescued, AreTold, IsStanding};

/// Where what is known is a suspect exactly where the number of its key is marked, the board tells the items that are no suspects: those that have an
/// unmarked number.
pub fn a_board_tells_what_is_no_suspect()
    ensures { (g : Graph Item) (c : List Item) (touched : List ℕ) (suspect : Item → Bool) → IsFullBoard g c → ((x k : Item) (n : ℕ) → IsKeyOf c x k → HasKey g n k → (suspect x ≡ true) ↔ Contains touched n)
        → (y : Item) → IsKept g c touched y ↔ (Contains c y × (suspect y ≡ false)) }
{}

/// Where suspicion has spread from an edit, and the part has the suspects and what they ask for, what is rescued of the part is all that rounds over
/// it have to find (`found`); so with the old items that are no suspects it is the new catalogue (`new`). The part has all that its suspects ask for
/// (`whole`).
pub fn what_is_rescued_is_found()
    ensures found { (c edited f : List Item) (edit : Edit) (suspect : Item → Bool) (good : IsGood c) → IsFit c edit edited → IsWithSystem edited f → IsSpread c good.all edit f suspect
        → (g : Graph Item) (touched : List ℕ) (suspects part standing : List Item) (marks : List Bool) → AreTold g c touched f suspect suspects → IsPartOf g c touched suspects part → AreRescued suspects part marks
        → IsStanding c suspect part marks standing → IsFound c f suspect part (marked part marks) standing }
    ensures new { (c edited f : List Item) (edit : Edit) (suspect : Item → Bool) (good : IsGood c) → IsFit c edit edited → IsWithSystem edited f → IsSpread c good.all edit f suspect
        → (g : Graph Item) (touched : List ℕ) (suspects part standing : List Item) (marks : List Bool) → AreTold g c touched f suspect suspects → IsPartOf g c touched suspects part → AreRescued suspects part marks
        → IsStanding c suspect part marks standing → IsInOrder standing → IsNew c edit standing }
    ensures whole { (c f : List Item) (suspect : Item → Bool) (g : Graph Item) (touched : List ℕ) (suspects part : List Item) → AreTold g c touched f suspect suspects → IsPartOf g c touched suspects part
        → (x : Item) → Contains part x → suspect x ≡ true → (y : Item) (t : Topic) → Contains c y → suspect y ≡ false → Asks part x t → IsUnder t y → Contains part y }
{}
