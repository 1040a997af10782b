//! Each law stands in the contract of a function that does nothing.

ghost use Rattle.std.specs.Prelude.{◌↔◌, List};
ghost use Rattle.std.specs.List.{Contains};
ghost use Rattle.finite_chains.specs.Chains.{IsWithin};
ghost use Rattle.cat_items.specs.declared.edit.Edit.{Edit};
ghost use Rattle.cat_items.specs.declared.item.Column.{Column};
ghost use Rattle.cat_items.specs.declared.item.Item.{Item};
ghost use Rattle.cat_items.specs.declared.item.Item.TheVariants as item;
ghost use Rattle.cat_items.specs.Catalogues.{IsInOrder};
ghost use Rattle.cat_items.specs.Edits.{IsEdited, IsNew};
ghost use Rattle.cat_items.specs.Good.{IsGood};
ghost use Rattle.cat_items.specs.Shape.{HasShape};
ghost use Rattle.cat_items.specs.Supported.{Supported};
ghost use Rattle.cat_items.specs.Survivors.{IsWithSystem};
ghost use Rattle.edit_laws.specs.Additions.{AddsProperly};
ghost use Rattle.edit_laws.specs.Forms.{HasForm, HasOwnName};
ghost use Rattle.edit_laws.specs.Kinds.{HaveOwnKeys};
ghost use Rattle.edit_laws.specs.Proper.{IsProperBeside, IsProperEdit, IsProperItem};
ghost use Rattle.edit_laws.specs.PutBack.{IsPutBack};
ghost use Rattle.edit_laws.specs.Sound.{IsSound};
ghost use Rattle.edit_laws.specs.Users.{LeavesUsers};
ghost use Rattle.sql_names.specs.NameBytes.{NameBytes};

/// An edit has an edited catalogue where its target and changed items are of the catalogue, its added items are in order,
/// and each of these that has the key of a kept item is that item.
pub fn an_edit_has_an_edited_catalogue()
    ensures { (old : List Item) (edit : Edit) → IsInOrder old → IsInOrder edit.added → IsWithin edit.target old → IsWithin edit.changed old → HaveOwnKeys old edit → (edited : List Item) × IsEdited old edit edited }
{}

/// An edit that adds properly leaves a catalogue of a proper shape.
pub fn proper_additions_keep_shape()
    ensures { (old : List Item) (edit : Edit) (edited : List Item) → HasShape old → IsEdited old edit edited → AddsProperly edit edited → HasShape edited }
{}

/// A good catalogue supports each of its items. A table's columns are among it and the rights that the system could grant.
pub fn good_catalogues_support_their_items()
    ensures { (items : List Item) → IsGood items → (x : Item) → Contains items x → (all : List Item) × IsWithSystem items all × Supported all items x }
{}

/// An edit that takes no user and makes none leaves the users of a catalogue.
pub fn users_stay()
    ensures { (c new : List Item) (edit : Edit) → LeavesUsers edit → IsNew c edit new → (name : NameBytes) → Contains new (item.User name) ↔ Contains c (item.User name) }
{}

/// An edit that is proper, kind by kind, fits a good catalogue and leaves one of a proper shape.
pub fn proper_edits_are_sound()
    ensures { (c : List Item) (edit : Edit) → IsGood c → IsProperEdit c edit → IsSound c edit }
{}

/// So does an edit of a usual form: what it adds has a free name or stands in the place of what it takes, and views go whole.
pub fn usual_edits_are_sound()
    ensures { (c : List Item) (edit : Edit) → IsGood c → HasForm c edit → IsSound c edit }
{}

/// A column that is put back with another default, NOT NULL or without its domain is proper: its name is that of the one
/// that is taken, and it fits its domain.
pub fn columns_put_back_are_proper()
    ensures { (c : List Item) (edit : Edit) → IsGood c → (x : Column) → IsPutBack c edit x
        → HasOwnName c edit (item.Column x) × IsProperItem (item.Column x) × IsProperBeside c edit (item.Column x) }
{}
