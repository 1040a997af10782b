//! The rights that REVOKE takes.

ghost use Rattle.std.specs.Prelude.{◌≡◌, ◌↔◌, IsTrue};
ghost use Rattle.std.specs.List.{Contains};
ghost use Rattle.cat_items.specs.declared.need.Need.{Need};
ghost use Rattle.cat_items.specs.declared.need.Auth.TheVariants.{Named};
ghost use Rattle.cat_items.specs.Rights.{path_of};
ghost use Rattle.grant_edit.specs.Named.{grantee_auth, named_grantees};
ghost use Rattle.grant_edit.specs.Revokes as spec;

use cat_items::{Auth, Item, Need, Right};
use sql_tree::{Grantee, Items, Name, Object};

/// What is revoked, from whom and by whom.
#[derive(Clone, Copy)]
pub struct Revoking<'a> {
    pub object: &'a Object,
    pub named: &'a Vec<Need>,
    pub grantor: &'a Name,
    pub grantees: &'a Items<Grantee>,
    pub option_alone: bool,
}

/// Whether a column is named, or the whole object.
fn covers_column(named: &Option<Name>, column: &Option<Name>) -> bool
    ensures { IsTrue result ↔ spec.CoversColumn named.now column.now }
{
    match (named, column) {
        (None, _) => true,
        (Some(named), Some(column)) => named.same(column),
        (Some(_), None) => false,
    }
}

/// Whether a privilege that is named is this one, or on the whole object the same on its column.
fn covers(named: &Need, need: &Need) -> bool
    ensures { IsTrue result ↔ spec.Covers named.now need.now }
{
    named.action == need.action
        && named.on.same(&need.on)
        && covers_column(&named.column, &need.column)
}

/// Whether a privilege is revoked.
fn is_revoked(object: &Object, named: &Vec<Need>, need: &Need) -> bool
    requires { (n : Need) → Contains named.now.items n → n.on ≡ path_of object.now }
    ensures { IsTrue result ↔ spec.IsRevoked object.now named.now.items need.now }
{
    for other in named {
        if covers(other, need) {
            return true;
        }
    }
    false
}

/// Whether a right is this grantee's.
fn is_of(grantee: &Grantee, auth: &Auth) -> bool
    ensures { IsTrue result ↔ (grantee_auth grantee.now ≡ auth.now) }
{
    match (grantee, auth) {
        (Grantee::Public, Auth::Public) => true,
        (Grantee::Named(name), Auth::Named(other)) => name.same(other),
        _ => false,
    }
}

/// Whether a right is that of one of these grantees.
fn is_among(grantees: &Items<Grantee>, auth: &Auth) -> bool
    ensures { IsTrue result ↔ Contains (named_grantees grantees.now) auth.now }
{
    for grantee in grantees.as_slice() {
        if is_of(grantee, auth) {
            return true;
        }
    }
    false
}

/// Whether a right was granted by the user or role of this name.
fn is_by(auth: &Auth, grantor: &Name) -> bool
    ensures { IsTrue result ↔ (auth.now ≡ Named grantor.now) }
{
    match auth {
        Auth::Named(name) => name.same(grantor),
        _ => false,
    }
}

/// Whether a right is revoked.
fn is_revoked_right(revoking: Revoking<'_>, right: &Right) -> bool
    requires { (n : Need) → Contains revoking.named.now.items n → n.on ≡ path_of revoking.object.now }
    ensures { IsTrue result ↔ spec.IsRevokedRight (spec.revoked_of revoking.entry) right.now }
{
    is_by(&right.grantor, revoking.grantor)
        && is_among(revoking.grantees, &right.grantee)
        && is_revoked(revoking.object, revoking.named, &right.need)
}

/// Whether an item is identified.
pub(crate) fn is_identified(revoking: Revoking<'_>, x: &Item) -> bool
    requires { (n : Need) → Contains revoking.named.now.items n → n.on ≡ path_of revoking.object.now }
    ensures { IsTrue result ↔ spec.IsIdentifiedRight (spec.revoked_of revoking.entry) x.now }
{
    match x {
        Item::Held(right) => !revoking.option_alone && is_revoked_right(revoking, right.get()),
        Item::Grantable(right) => is_revoked_right(revoking, right.get()),
        _ => false,
    }
}
