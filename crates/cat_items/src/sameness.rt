//! Equality in all fields.

ghost use Rattle.std.specs.Prelude.{◌≡◌, ◌↔◌, IsTrue};

use crate::item::{
    Assertion, Check, Column, Domain, DomainCheck, Foreign, Item, Key, Right, RoleGrant, Routine,
    Schema, View,
};
use crate::need::{Auth, Need};
use sql_tree::{Default, Items, Name, Object, Param};

/// A value whose equality can be tested.
trait Same {
    fn same_as(&self, other: &Self) -> bool
        ensures { IsTrue result ↔ (self.now ≡ other.now) };
}

impl<T: Same> Same for Items<T> {
    fn same_as(&self, other: &Items<T>) -> bool {
        let all = self.as_slice();
        let others = other.as_slice();
        if all.len() != others.len() {
            return false;
        }
        for at in 0..all.len() {
            if !all[at].same_as(&others[at]) {
                return false;
            }
        }
        true
    }
}

impl<T: Same> Same for Option<T> {
    fn same_as(&self, other: &Option<T>) -> bool {
        match (self, other) {
            (None, None) => true,
            (Some(a), Some(b)) => a.same_as(b),
            _ => false,
        }
    }
}

impl Same for Name {
    fn same_as(&self, other: &Name) -> bool {
        self.same(other)
    }
}

impl Same for Object {
    fn same_as(&self, other: &Object) -> bool {
        self.same(other)
    }
}

impl Same for Default {
    fn same_as(&self, other: &Default) -> bool {
        self.same(other)
    }
}

impl Same for Param {
    fn same_as(&self, other: &Param) -> bool {
        self.same(other)
    }
}

impl Same for Need {
    fn same_as(&self, other: &Need) -> bool {
        self.action == other.action && self.on.same(&other.on) && self.column.same_as(&other.column)
    }
}

impl Same for Auth {
    fn same_as(&self, other: &Auth) -> bool {
        match (self, other) {
            (Auth::System, Auth::System) => true,
            (Auth::Public, Auth::Public) => true,
            (Auth::Named(a), Auth::Named(b)) => a.same(b),
            _ => false,
        }
    }
}

fn same_schema(a: &Schema, b: &Schema) -> bool
    ensures { IsTrue result ↔ (a.now ≡ b.now) }
{
    a.name.same(&b.name) && a.owner.same(&b.owner)
}

fn same_view(a: &View, b: &View) -> bool
    ensures { IsTrue result ↔ (a.now ≡ b.now) }
{
    a.view.same(&b.view)
        && a.query.same(&b.query)
        && a.needs.same_as(&b.needs)
        && a.base.same_as(&b.base)
        && a.base_columns.same_as(&b.base_columns)
}

fn same_column(a: &Column, b: &Column) -> bool
    ensures { IsTrue result ↔ (a.now ≡ b.now) }
{
    a.table.same(&b.table)
        && a.place == b.place
        && a.name.same(&b.name)
        && a.sort == b.sort
        && a.domain.same_as(&b.domain)
        && a.default.same_as(&b.default)
        && a.not_null == b.not_null
}

fn same_domain(a: &Domain, b: &Domain) -> bool
    ensures { IsTrue result ↔ (a.now ≡ b.now) }
{
    a.domain.same(&b.domain) && a.sort == b.sort && a.default.same_as(&b.default)
}

fn same_domain_check(a: &DomainCheck, b: &DomainCheck) -> bool
    ensures { IsTrue result ↔ (a.now ≡ b.now) }
{
    a.name.same(&b.name)
        && a.domain.same(&b.domain)
        && a.cond.same(&b.cond)
        && a.needs.same_as(&b.needs)
}

fn same_key(a: &Key, b: &Key) -> bool
    ensures { IsTrue result ↔ (a.now ≡ b.now) }
{
    a.name.same(&b.name)
        && a.table.same(&b.table)
        && a.primary == b.primary
        && a.columns.same_as(&b.columns)
}

fn same_foreign(a: &Foreign, b: &Foreign) -> bool
    ensures { IsTrue result ↔ (a.now ≡ b.now) }
{
    a.name.same(&b.name)
        && a.table.same(&b.table)
        && a.columns.same_as(&b.columns)
        && a.key.same(&b.key)
        && a.target.same(&b.target)
        && a.target_columns.same_as(&b.target_columns)
        && a.matching == b.matching
        && a.on_update == b.on_update
        && a.on_delete == b.on_delete
}

fn same_check(a: &Check, b: &Check) -> bool
    ensures { IsTrue result ↔ (a.now ≡ b.now) }
{
    a.name.same(&b.name)
        && a.table.same(&b.table)
        && a.columns.same_as(&b.columns)
        && a.cond.same(&b.cond)
        && a.needs.same_as(&b.needs)
}

fn same_assertion(a: &Assertion, b: &Assertion) -> bool
    ensures { IsTrue result ↔ (a.now ≡ b.now) }
{
    a.name.same(&b.name) && a.cond.same(&b.cond) && a.needs.same_as(&b.needs)
}

fn same_return(a: &Routine, b: &Routine) -> bool
    ensures { IsTrue result ↔ (a.now.returns ≡ b.now.returns) }
{
    match (&a.returns, &b.returns) {
        (None, None) => true,
        (Some(a), Some(b)) => a == b,
        _ => false,
    }
}

fn same_routine(a: &Routine, b: &Routine) -> bool
    ensures { IsTrue result ↔ (a.now ≡ b.now) }
{
    a.routine.same(&b.routine)
        && a.params.same_as(&b.params)
        && same_return(a, b)
        && a.body.same(&b.body)
        && a.needs.same_as(&b.needs)
}

impl RoleGrant {
    /// Whether the two are equal. It takes no memory.
    pub fn same(&self, other: &RoleGrant) -> bool
        ensures { IsTrue result ↔ (self.now ≡ other.now) }
    {
        self.role.same(&other.role)
            && self.grantor.same_as(&other.grantor)
            && self.grantee.same(&other.grantee)
    }
}

impl Right {
    /// Whether the two are equal. It takes no memory.
    pub fn same(&self, other: &Right) -> bool
        ensures { IsTrue result ↔ (self.now ≡ other.now) }
    {
        self.need.same_as(&other.need)
            && self.grantor.same_as(&other.grantor)
            && self.grantee.same_as(&other.grantee)
    }
}

/// Whether two items are equal in all fields, and not in their keys alone. It takes no memory.
pub fn same_item(a: &Item, b: &Item) -> bool
    ensures { IsTrue result ↔ (a.now ≡ b.now) }
{
    match (a, b) {
        (Item::User(a), Item::User(b)) | (Item::Role(a), Item::Role(b)) => a.same(b),
        (Item::Schema(a), Item::Schema(b)) => same_schema(a.get(), b.get()),
        (Item::Table(a), Item::Table(b)) => a.get().same(b.get()),
        (Item::View(a), Item::View(b)) => same_view(a.get(), b.get()),
        (Item::Column(a), Item::Column(b)) => same_column(a.get(), b.get()),
        (Item::Domain(a), Item::Domain(b)) => same_domain(a.get(), b.get()),
        (Item::DomainCheck(a), Item::DomainCheck(b)) => same_domain_check(a.get(), b.get()),
        (Item::Key(a), Item::Key(b)) => same_key(a.get(), b.get()),
        (Item::Foreign(a), Item::Foreign(b)) => same_foreign(a.get(), b.get()),
        (Item::Check(a), Item::Check(b)) => same_check(a.get(), b.get()),
        (Item::Assertion(a), Item::Assertion(b)) => same_assertion(a.get(), b.get()),
        (Item::Routine(a), Item::Routine(b)) => same_routine(a.get(), b.get()),
        (Item::RoleAuth(a), Item::RoleAuth(b)) | (Item::RoleAdmin(a), Item::RoleAdmin(b)) => {
            a.get().same(b.get())
        }
        (Item::Held(a), Item::Held(b)) | (Item::Grantable(a), Item::Grantable(b)) => {
            a.get().same(b.get())
        }
        _ => false,
    }
}
