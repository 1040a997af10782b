//! Each law stands in the contract of a function that does nothing.

ghost use Rattle.std.specs.Prelude.{◌≡◌, List};
ghost use Rattle.std.specs.List.{Contains};
ghost use Rattle.finite_chains.specs.Chains.{IsMonotone, IsWithin};
ghost use Rattle.cat_items.specs.declared.edit.Edit.{Edit};
ghost use Rattle.cat_items.specs.declared.item.Item.{Item};
ghost use Rattle.cat_items.specs.Edits.{IsNew};
ghost use Rattle.cat_items.specs.Fit.{IsFit};
ghost use Rattle.cat_items.specs.Good.{IsGood};
ghost use Rattle.cat_items.specs.Relevant.{Relevant};
ghost use Rattle.cat_items.specs.Shape.{HasDerivedFields, HasShape};
ghost use Rattle.cat_items.specs.Supported.{Supported};
ghost use Rattle.cat_items.specs.Survivors.{AreSurvivors, IsWithSystem};

/// What supports an item goes on to support it where there are more items.
pub fn support_is_monotone()
    ensures { (items : List Item) → IsMonotone (Supported items) }
{}

/// What supports an item goes on to support it where each supporting item that is relevant to it stays. It supports a table
/// by columns of `items`. Needs are to be those of their trees, none of which is ADMIN: only to grants of roles are admin options relevant.
pub fn support_is_local()
    ensures { (items all s t : List Item) (x : Item) → HasDerivedFields x → ((y : Item) → Contains s y → HasDerivedFields y) → IsWithin items all → IsWithin s all → ((y : Item) → Contains s y → Relevant all y x → Contains t y) → Supported items s x → Supported items t x }
{}

/// What survives of a list of a proper shape, together with the rights that the system could grant for its objects, is good:
/// it has such a shape itself, and its survivors with the rights that the system could grant for its own objects are itself.
pub fn survivors_are_good()
    ensures { (objects all survivors : List Item) → IsWithSystem objects all → AreSurvivors all survivors → HasShape objects → IsGood survivors }
{}

/// An edit that fits, and that leaves a list of a proper shape, makes a good catalogue.
pub fn new_catalogues_are_good()
    ensures { (old : List Item) (edit : Edit) (edited new : List Item) → IsFit old edit edited → HasShape edited → IsNew old edit new → IsGood new }
{}

/// An edit makes at most one new catalogue.
pub fn an_edit_has_one_new_catalogue()
    ensures { (old : List Item) (edit : Edit) (a b : List Item) → IsNew old edit a → IsNew old edit b → a ≡ b }
{}
