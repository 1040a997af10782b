//! Each law stands in the contract of a function that does nothing.

ghost use Rattle.std.specs.Prelude.{◌≡◌, ℕ, List, Some, slice_get};
ghost use Rattle.std.specs.List.{Contains};
ghost use Rattle.sql_names.specs.declared.object.Object.{Object};
ghost use Rattle.sql_tree.specs.declared.rights.Action.TheVariants.{Select};
ghost use Rattle.cat_items.specs.declared.item.Item.TheVariants as item;
ghost use Rattle.cat_items.specs.declared.item.View.{View};
ghost use Rattle.cat_items.specs.declared.need.Need.{Need};
ghost use Rattle.cat_items.specs.Needs.{column_need};
ghost use Rattle.cat_items.specs.Rights.{path_of};
ghost use Rattle.cat_items.specs.Shape.{HasDerivedFields};

/// A view that has a base needs SELECT on it, or on one of its columns.
pub fn a_plain_view_needs_its_base()
    ensures { (v : View) (base : Object) → HasDerivedFields (item.View v) → v.base ≡ Some base → (need : Need) × Contains v.needs need × (need.action ≡ Select) × (need.on ≡ path_of base) }
{}

/// And it needs SELECT on each column of its base that it shows.
pub fn a_plain_view_needs_the_columns_that_it_shows()
    ensures { (v : View) (base : Object) (place : ℕ) (name : List ℕ) → HasDerivedFields (item.View v) → v.base ≡ Some base → slice_get v.base_columns place ≡ Some name → Contains v.needs (column_need Select base name) }
{}
