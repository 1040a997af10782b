//! The rights that REVOKE takes, looked for among those on its object.

ghost use Rattle.std.specs.Prelude.{◌≡◌, ◌↔◌, IfOk};
ghost use Rattle.std.specs.List.{Contains};
ghost use Rattle.cat_items.specs.declared.item.Item.{Item as AnyItem};
ghost use Rattle.cat_items.specs.declared.need.Need.{Need};
ghost use Rattle.cat_items.specs.Catalogues.{IsInOrder};
ghost use Rattle.cat_items.specs.Rights.{path_of};
ghost use Rattle.grant_edit.specs.Revokes as spec;
ghost use Rattle.grant_edit.specs.RightParts.{HoldRightsOn};

use crate::revokes::{Revoking, is_identified};
use cat_items::{Catalogue, Item, ObjectKey, Part, PathKey};
use chosen_parts::chosen_in;
use edit_rules::Chooses;
use sql_tree::{Action, Items, Object};
use std::alloc::{AllocError, Global};

/// A REVOKE of privileges that are all on its object.
#[derive(Drop)]
struct Sought<'a> {
    revoking: Revoking<'a>,
    ghost on_object: { (n : Need) → Contains revoking.named.now.items n → n.on ≡ path_of revoking.object.now },
}

impl<'a> Chooses for Sought<'a> {
    ghost use Rattle.grant_edit.specs.Revokes.{IsIdentifiedRight, revoked_of};

    ghost fits = { λ t x. IsIdentifiedRight (revoked_of t.revoking) x };

    fn chooses(&self, x: &Item) -> bool {
        is_identified(self.revoking, x)
    }
}

/// The parts of a catalogue in which the rights on an object and on its columns stand.
fn rights_on(object: &Object) -> [Part<'_>; 16]
    ensures { HoldRightsOn object.now result }
{
    let key: ObjectKey<'_> = object.into();
    let on = PathKey::Object(key);
    [
        Part::HeldOn(Action::Select, on),
        Part::HeldOn(Action::Insert, on),
        Part::HeldOn(Action::Update, on),
        Part::HeldOn(Action::Delete, on),
        Part::HeldOn(Action::References, on),
        Part::HeldOn(Action::Usage, on),
        Part::HeldOn(Action::Execute, on),
        Part::HeldOn(Action::Admin, on),
        Part::GrantableOn(Action::Select, on),
        Part::GrantableOn(Action::Insert, on),
        Part::GrantableOn(Action::Update, on),
        Part::GrantableOn(Action::Delete, on),
        Part::GrantableOn(Action::References, on),
        Part::GrantableOn(Action::Usage, on),
        Part::GrantableOn(Action::Execute, on),
        Part::GrantableOn(Action::Admin, on),
    ]
}

/// The items that are identified, in order. It looks at the rights on the object alone.
pub fn identified(
    alloc: Global,
    c: &Catalogue,
    revoking: Revoking<'_>,
) -> Result<Items<Item>, AllocError>
    requires { (n : Need) → Contains revoking.named.now.items n → n.on ≡ path_of revoking.object.now }
    ensures order { IfOk result IsInOrder }
    ensures members { IfOk result (λ target. (x : AnyItem) → Contains target x ↔ (Contains c.now.items x × spec.IsIdentifiedRight (spec.revoked_of revoking.entry) x)) }
{
    let parts = rights_on(revoking.object);
    chosen_in(alloc, c, &parts, &Sought { revoking })
}
