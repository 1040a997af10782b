//! The parts of a catalogue in which what goes with an object stands.

ghost use Rattle.sql_tree.specs.declared.statement.DropKind.TheVariants as kind;
ghost use Rattle.drop_edit.specs.Parts.{HoldAllOf};

use cat_items::{ObjectKey, ObjectKind, Part, PathKey};
use sql_tree::{Action, Object};

/// The part of an assertion.
pub(crate) fn assertion_parts(object: &Object) -> [Part<'_>; 1]
    ensures { HoldAllOf kind.Assertion object.now result }
{
    [Part::Objects(ObjectKind::Assertion, &object.schema)]
}

/// The parts of a function or a procedure.
pub(crate) fn routine_parts(object: &Object) -> [Part<'_>; 3]
    ensures function { HoldAllOf kind.Function object.now result }
    ensures procedure { HoldAllOf kind.Procedure object.now result }
    ensures routine { HoldAllOf kind.Routine object.now result }
{
    let key: ObjectKey<'_> = object.into();
    let on = PathKey::Object(key);
    [
        Part::Routine(key),
        Part::HeldOn(Action::Execute, on),
        Part::GrantableOn(Action::Execute, on),
    ]
}
