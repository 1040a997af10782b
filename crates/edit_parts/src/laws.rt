//! The law stands in the contract of a function that does nothing.

ghost use Rattle.std.specs.Prelude.{◌≡◌, ◌↔◌, ℕ, List, Bool, true};
ghost use Rattle.std.specs.List.{Contains};
ghost use Rattle.item_index.specs.Graphs.{Graph, IsWhole};
ghost use Rattle.cat_items.specs.declared.edit.Edit.{Edit};
ghost use Rattle.cat_items.specs.declared.item.Item.{Item};
ghost use Rattle.cat_items.specs.Fit.{IsFit};
ghost use Rattle.cat_items.specs.Good.{IsGood};
ghost use Rattle.cat_items.specs.Survivors.{IsWithSystem};
ghost use Rattle.board_steps.specs.Plans.{IsFullBoard};
ghost use Rattle.edit_suspects.specs.Seeds.{HaveSpread};
ghost use Rattle.edit_suspects.specs.Suspects.{AreFresh, is_suspect};
ghost use Rattle.asked_parts.specs.Parts.{IsPartOf};
ghost use Rattle.edit_parts.specs.Parts.{AreTouchedItems, IsSuspectBy};

/// The suspects among the edited list and the rights that the system could grant for it are the touched items, and those of the rights that
/// it could grant for the part that have no node without a mark. The part is that of the touched items and the touched rights by the system.
pub fn suspects_are_touched_or_possible_for_the_part()
    ensures { (eq : Item → Item → Bool) (g : Graph Item) (c edited f : List Item) (edit : Edit) (marks : List ℕ) (fresh start part : List Item) → IsGood c → IsWhole eq g → ((k : Item) → eq k k ≡ true) → IsFullBoard g c → IsFit c edit edited
        → IsWithSystem edited f → HaveSpread g edit marks → AreFresh c edited fresh → AreTouchedItems g marks edit start → IsPartOf g c marks start part
        → (x : Item) → ((Contains f x × (is_suspect g marks edit.added fresh x ≡ true)) ↔ IsSuspectBy g marks edit part x) }
{}
