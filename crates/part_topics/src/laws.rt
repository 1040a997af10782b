//! Each law stands in the contract of a function that does nothing.

ghost use Rattle.std.specs.Prelude.{◌≡◌, ◌↔◌, ◌⊎◌, List, Bool, true};
ghost use Rattle.std.specs.List.{Contains};
ghost use Rattle.cat_items.specs.declared.edit.Edit.{Edit};
ghost use Rattle.cat_items.specs.declared.item.Item.{Item};
ghost use Rattle.cat_items.specs.Fit.{IsFit};
ghost use Rattle.cat_items.specs.Survivors.{IsSystemRight, IsWithSystem};
ghost use Rattle.cascade_laws.specs.Found.{IsFound};
ghost use Rattle.cascade_laws.specs.Spreading.{IsSpread};
ghost use Rattle.cascade_laws.specs.Topics.{DependsOn, Topic};
ghost use Rattle.part_topics.specs.Whole.{HasAllFor, IsWholePart};

/// An item depends on the same topics by what was found of a part as by all that stands: where it is a suspect that
/// stands (`standing`), and where the part has all that it asks for (`asked`).
pub fn suspects_depend_alike()
    ensures standing { (c f part found standing : List Item) (suspect : Item → Bool) → IsFound c f suspect part found standing
        → (x : Item) → Contains standing x → suspect x ≡ true → (t : Topic) → DependsOn found x t ↔ DependsOn standing x t }
    ensures asked { (c f part found standing : List Item) (suspect : Item → Bool) → IsFound c f suspect part found standing
        → (x : Item) → HasAllFor c suspect part x → (t : Topic) → DependsOn found x t ↔ DependsOn standing x t }
{}

/// What was found of a part tells of each suspect whether it stands (`stands`), and where the part has all that its
/// suspects ask for, whether the system could grant it for what stands (`rights`), and if either, on which topics it
/// depends (`topics`).
pub fn suspects_in_the_part_depend_alike()
    ensures stands { (c f part found standing : List Item) (suspect : Item → Bool) → IsFound c f suspect part found standing
        → (x : Item) → suspect x ≡ true → Contains found x ↔ Contains standing x }
    ensures rights { (c all edited f part found standing : List Item) (edit : Edit) (suspect : Item → Bool) → IsFit c edit edited → IsWithSystem edited f → IsSpread c all edit f suspect → IsFound c f suspect part found standing → IsWholePart c suspect part
        → (x : Item) → suspect x ≡ true → IsSystemRight found x ↔ IsSystemRight standing x }
    ensures topics { (c all edited f part found standing : List Item) (edit : Edit) (suspect : Item → Bool) → IsFit c edit edited → IsWithSystem edited f → IsSpread c all edit f suspect → IsFound c f suspect part found standing → IsWholePart c suspect part
        → (x : Item) → suspect x ≡ true → Contains standing x ⊎ IsSystemRight standing x → (t : Topic) → DependsOn found x t ↔ DependsOn standing x t }
{}
