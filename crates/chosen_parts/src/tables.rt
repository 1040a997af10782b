//! The parts of a catalogue in which what is of a table or a view stands.

ghost use Rattle.chosen_parts.specs.Tables.{HoldTable};

use cat_items::{ObjectKey, ObjectKind, Part, PathKey};
use sql_tree::{Action, Object};

/// The parts of a base table or a view: its own places, those of its columns, the constraints of its schema, and the privileges of each
/// action on it and on its columns.
pub fn parts_of_table(object: &Object) -> [Part<'_>; 16]
    ensures { HoldTable object.now result }
{
    let key: ObjectKey<'_> = object.into();
    let on = PathKey::Object(key);
    [
        Part::Table(key),
        Part::View(key),
        Part::Columns(key),
        Part::Objects(ObjectKind::Key, &object.schema),
        Part::Objects(ObjectKind::Foreign, &object.schema),
        Part::Objects(ObjectKind::Check, &object.schema),
        Part::HeldOn(Action::Select, on),
        Part::HeldOn(Action::Insert, on),
        Part::HeldOn(Action::Update, on),
        Part::HeldOn(Action::Delete, on),
        Part::HeldOn(Action::References, on),
        Part::GrantableOn(Action::Select, on),
        Part::GrantableOn(Action::Insert, on),
        Part::GrantableOn(Action::Update, on),
        Part::GrantableOn(Action::Delete, on),
        Part::GrantableOn(Action::References, on),
    ]
}
