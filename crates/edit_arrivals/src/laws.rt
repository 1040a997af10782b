//! Each law stands in the contract of a function that does nothing.

ghost use Rattle.std.specs.Prelude.{◌≡◌, ◌↔◌, ◌⊎◌, List, Bool, true};
ghost use Rattle.std.specs.List.{Contains};
ghost use Rattle.cat_items.specs.declared.edit.Edit.{Edit};
ghost use Rattle.cat_items.specs.declared.item.Item.{Item};
ghost use Rattle.cat_items.specs.Fit.{IsFit};
ghost use Rattle.cat_items.specs.Survivors.{IsSystemRight, IsWithSystem};
ghost use Rattle.cascade_laws.specs.Found.{IsFound};
ghost use Rattle.edit_rules.specs.Chosen.{AreChosen};
ghost use Rattle.board_graph.specs.BoardKeys.{IsKeyOf};
ghost use Rattle.board_plans.specs.declared.arrivals.Arrival.{Arrival};
ghost use Rattle.board_plans.specs.Planning.{AreArrivals, IsAddedTo};
ghost use Rattle.board_steps.specs.Plans.{HasNoHelper};
ghost use Rattle.edit_arrivals.specs.Suspects.{HasSuspects, IsFoundBy};

/// By what was found of a part, suspects have the keys that they have in the new catalogue (`keys`), and their options add
/// to the same (`added`): so what arrives by the part is what arrives in the new catalogue (`arrivals`).
pub fn arrivals_by_a_part_are_those_of_the_new_catalogue()
    ensures keys { (c all edited f part found standing : List Item) (edit : Edit) (suspect : Item → Bool) → IsFoundBy c all edited f edit suspect part found standing
        → (x k : Item) → suspect x ≡ true → IsKeyOf found x k ↔ IsKeyOf standing x k }
    ensures added { (c all edited f part found standing : List Item) (edit : Edit) (suspect : Item → Bool) → IsFoundBy c all edited f edit suspect part found standing
        → (x k : Item) → suspect x ≡ true → Contains standing x ⊎ IsSystemRight standing x → IsAddedTo found x k ↔ IsAddedTo standing x k }
    ensures arrivals { (c all edited f part found standing : List Item) (edit : Edit) (suspect : Item → Bool) → IsFoundBy c all edited f edit suspect part found standing
        → (arrivals : List Arrival) → AreArrivals found suspect arrivals → AreArrivals standing suspect arrivals }
{}

/// Where a list has exactly the suspects of what an edit makes of a catalogue, with the rights that the system could grant
/// for it, it has those of what was found of a part (`listed`), of which none has a helper's key (`plain`).
pub fn what_was_found_has_its_suspects_listed()
    ensures listed { (c edited f part found standing suspects : List Item) (suspect : Item → Bool) → IsWithSystem edited f → IsFound c f suspect part found standing → AreChosen f (λ x. suspect x ≡ true) suspects → HasSuspects found suspect suspects }
    ensures plain { (c f part found standing : List Item) (suspect : Item → Bool) → IsFound c f suspect part found standing → HasNoHelper found }
{}
