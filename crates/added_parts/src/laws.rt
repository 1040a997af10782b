//! The law stands in the contract of a function that does nothing.

ghost use Rattle.std.specs.Prelude.{◌↔◌, List};
ghost use Rattle.std.specs.List.{Contains};
ghost use Rattle.cat_items.specs.declared.edit.Edit.{Edit};
ghost use Rattle.cat_items.specs.declared.item.Item.{Item};
ghost use Rattle.cat_items.specs.Bound.{IsSpokenOf};
ghost use Rattle.cascade_laws.specs.Asks.{Asks};
ghost use Rattle.cascade_laws.specs.Topics.{Topic};
ghost use Rattle.look_up_bound.specs.TopicParts.{HasParts};
ghost use Rattle.added_parts.specs.Parts.{AllStand};

/// Where all stands that the added items of an edit name and need, the parts of each topic stand that they ask for over all
/// that is spoken of.
pub fn what_stands_is_not_missing()
    ensures { (c edited u : List Item) (edit : Edit) → ((x : Item) → Contains u x ↔ IsSpokenOf c edit edited x) → AllStand c edit.added
        → (x : Item) (t : Topic) → Contains edit.added x → Asks u x t → HasParts u t }
{}
