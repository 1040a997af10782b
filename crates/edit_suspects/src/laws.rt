//! Each law stands in the contract of a function that does nothing.

ghost use Rattle.std.specs.Prelude.{◌≡◌, ◌↔◌, ◌⊎◌, ℕ, List, Bool, true};
ghost use Rattle.std.specs.List.{Contains};
ghost use Rattle.item_index.specs.Graphs.{Graph, HasKey, IsWhole};
ghost use Rattle.cat_items.specs.declared.edit.Edit.{Edit};
ghost use Rattle.cat_items.specs.declared.item.Item.{Item};
ghost use Rattle.cat_items.specs.Fit.{IsFit};
ghost use Rattle.cat_items.specs.Good.{IsGood};
ghost use Rattle.cat_items.specs.Survivors.{IsWithSystem};
ghost use Rattle.cascade_laws.specs.Spreading.{IsSpread};
ghost use Rattle.board_graph.specs.BoardKeys.{IsKeyOf};
ghost use Rattle.board_steps.specs.Plans.{IsFullBoard};
ghost use Rattle.edit_suspects.specs.Seeds.{HaveSpread};
ghost use Rattle.edit_suspects.specs.Suspects.{AreFresh, HasMarkedKey, is_suspect};

/// Where what an edit begins with is marked on the board of a good catalogue, and with each number all that rest on it,
/// suspicion that is read off the marks begins and spreads as the edit's does.
pub fn touched_numbers_make_a_spread()
    ensures { (eq : Item → Item → Bool) (g : Graph Item) (c edited f : List Item) (edit : Edit) (marks : List ℕ) (fresh : List Item) (good : IsGood c) → IsWhole eq g → IsFullBoard g c → IsFit c edit edited → IsWithSystem edited f
        → HaveSpread g edit marks → AreFresh c edited fresh → IsSpread c good.all edit f (is_suspect g marks edit.added fresh) }
{}

/// What stands, or could be granted by the system, is then a suspect exactly where the number of its key is marked.
pub fn what_is_known_is_a_suspect_where_it_is_marked()
    ensures { (eq : Item → Item → Bool) (g : Graph Item) (c edited : List Item) (edit : Edit) (marks : List ℕ) (fresh : List Item) → IsGood c → IsWhole eq g → ((k : Item) → eq k k ≡ true) → IsFullBoard g c → IsFit c edit edited
        → HaveSpread g edit marks → AreFresh c edited fresh → (x k : Item) (n : ℕ) → IsKeyOf c x k → HasKey g n k → (is_suspect g marks edit.added fresh x ≡ true) ↔ Contains marks n }
{}

/// Each suspect of the edited list, and of the rights that the system could grant for it, is added or fresh, or its number
/// is marked.
pub fn what_is_a_suspect_is_added_or_fresh_or_marked()
    ensures { (eq : Item → Item → Bool) (g : Graph Item) (c edited f : List Item) (edit : Edit) (marks : List ℕ) (fresh : List Item) → IsGood c → IsWhole eq g → IsFullBoard g c → IsFit c edit edited → IsWithSystem edited f
        → HaveSpread g edit marks → AreFresh c edited fresh → (x : Item) → Contains f x → is_suspect g marks edit.added fresh x ≡ true → Contains edit.added x ⊎ (Contains fresh x ⊎ HasMarkedKey g c marks x) }
{}
