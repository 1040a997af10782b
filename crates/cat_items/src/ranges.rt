//! Descriptors that stand together in a catalogue.

ghost use Rattle.std.specs.Prelude.{◌≡◌, ◌≤◌, length};
ghost use Rattle.cat_items.specs.Catalogues.{IsInOrder};
ghost use Rattle.cat_items.specs.Order.{kind_of};
ghost use Rattle.cat_items.specs.Ranges.{IsEndOf, IsRange, IsIn, IsStartOf, IsRoleAuthorization, IsGrantOf, IsAdminOptionOf, IsHeldOf, IsGrantableOf, IsObjectIn, kind_in, number_of, object_place, place_in, schema_in};
ghost use Rattle.std.specs.Option.{option_copied};
ghost use Rattle.cat_items.specs.Shape.{IsColumnOf};

use crate::catalogue::Catalogue;
use crate::item::Item;
use crate::keys::{NeedKey, ObjectKey, PathKey, compare_need, compare_object, compare_target};
use crate::need::Need;
use sql_tree::{Action, Name, Object};
use std::cmp::Ordering;
use std::ops::Range;

/// The kinds of objects of a schema, constraints and columns among them.
#[derive(Clone, Copy, Debug, PartialEq, Eq)]
pub enum ObjectKind {
    Table,
    View,
    Column,
    Domain,
    DomainCheck,
    Key,
    Foreign,
    Check,
    Assertion,
    Routine,
}

/// A part of the order of descriptors: those of a key, or some that stand together.
#[derive(Clone, Copy)]
pub enum Part<'a> {
    User(&'a Name),
    Role(&'a Name),
    Schema(&'a Name),
    /// A base table.
    Table(ObjectKey<'a>),
    View(ObjectKey<'a>),
    /// The columns of a table or a view.
    Columns(ObjectKey<'a>),
    Domain(ObjectKey<'a>),
    /// A PRIMARY KEY or UNIQUE constraint.
    Key(ObjectKey<'a>),
    Routine(ObjectKey<'a>),
    /// The objects of one kind in a schema.
    Objects(ObjectKind, &'a Name),
    RoleAuthorizations,
    /// The role authorizations of a role.
    RoleGrants(&'a Name),
    /// The admin options of a role.
    AdminOptions(&'a Name),
    /// The privileges of exactly this need.
    Held(NeedKey<'a>),
    /// The privileges of an action on an object and on its columns.
    HeldOn(Action, PathKey<'a>),
    /// The grant options of exactly this need.
    Grantable(NeedKey<'a>),
    /// The grant options of an action on an object and on its columns.
    GrantableOn(Action, PathKey<'a>),
}

/// The number of an item's kind.
fn kind(x: &Item) -> u8
    ensures { result ≡ kind_of x.now }
{
    match x {
        Item::User(_) => 1,
        Item::Role(_) => 2,
        Item::Schema(_) => 3,
        Item::Table(_) => 4,
        Item::View(_) => 5,
        Item::Column(_) => 6,
        Item::Domain(_) => 7,
        Item::DomainCheck(_) => 8,
        Item::Key(_) => 9,
        Item::Foreign(_) => 10,
        Item::Check(_) => 11,
        Item::Assertion(_) => 12,
        Item::Routine(_) => 13,
        Item::RoleAuth(_) => 14,
        Item::RoleAdmin(_) => 15,
        Item::Held(_) => 16,
        Item::Grantable(_) => 17,
    }
}

/// The number of a kind of objects.
fn object_kind(kind: ObjectKind) -> u8
    ensures { result ≡ number_of kind }
{
    match kind {
        ObjectKind::Table => 4,
        ObjectKind::View => 5,
        ObjectKind::Column => 6,
        ObjectKind::Domain => 7,
        ObjectKind::DomainCheck => 8,
        ObjectKind::Key => 9,
        ObjectKind::Foreign => 10,
        ObjectKind::Check => 11,
        ObjectKind::Assertion => 12,
        ObjectKind::Routine => 13,
    }
}

/// The schema that an object is in.
fn schema_of(x: &Item) -> Option<&Name>
    ensures { option_copied result ≡ schema_in x.now }
{
    match x {
        Item::Table(table) => Some(&table.get().schema),
        Item::View(view) => Some(&view.get().view.schema),
        Item::Column(column) => Some(&column.get().table.schema),
        Item::Domain(domain) => Some(&domain.get().domain.schema),
        Item::DomainCheck(check) => Some(&check.get().name.schema),
        Item::Key(key) => Some(&key.get().name.schema),
        Item::Foreign(key) => Some(&key.get().name.schema),
        Item::Check(check) => Some(&check.get().name.schema),
        Item::Assertion(assertion) => Some(&assertion.get().name.schema),
        Item::Routine(routine) => Some(&routine.get().routine.schema),
        _ => None,
    }
}

/// The kind of the items of a part.
fn kind_of_part(part: Part<'_>) -> u8
    ensures { result ≡ kind_in part.entry }
{
    match part {
        Part::Objects(kind, _) => object_kind(kind),
        Part::User(_) => 1,
        Part::Role(_) => 2,
        Part::Schema(_) => 3,
        Part::Table(_) => 4,
        Part::View(_) => 5,
        Part::Columns(_) => 6,
        Part::Domain(_) => 7,
        Part::Key(_) => 9,
        Part::Routine(_) => 13,
        Part::RoleAuthorizations | Part::RoleGrants(_) => 14,
        Part::AdminOptions(_) => 15,
        Part::Held(_) | Part::HeldOn(_, _) => 16,
        Part::Grantable(_) | Part::GrantableOn(_, _) => 17,
    }
}

/// Whether an item comes before the objects of a kind in a schema, is one of them, or comes behind them.
fn place_of_object(number: u8, schema: &Name, x: &Item) -> Ordering
    ensures { result ≡ object_place number schema.now (kind_of x.now) (schema_in x.now) }
{
    match schema_of(x) {
        Some(own) if kind(x) == number => own.cmp(schema),
        _ => kind(x).cmp(&number),
    }
}

/// Whether an item comes before a part, is in it, or comes behind it.
fn place(part: Part<'_>, x: &Item) -> Ordering
    ensures { result ≡ place_in part.entry x.now }
{
    match (part, x) {
        (Part::Objects(kind, schema), _) => place_of_object(object_kind(kind), schema, x),
        (Part::User(name), Item::User(user)) => user.cmp(name),
        (Part::Role(name), Item::Role(role)) => role.cmp(name),
        (Part::Schema(name), Item::Schema(schema)) => schema.get().name.cmp(name),
        (Part::Table(key), Item::Table(table)) => compare_object(table.get(), key),
        (Part::View(key), Item::View(view)) => compare_object(&view.get().view, key),
        (Part::Columns(key), Item::Column(column)) => compare_object(&column.get().table, key),
        (Part::Domain(key), Item::Domain(domain)) => compare_object(&domain.get().domain, key),
        (Part::Key(key), Item::Key(constraint)) => compare_object(&constraint.get().name, key),
        (Part::Routine(key), Item::Routine(routine)) => compare_object(&routine.get().routine, key),
        (Part::RoleGrants(role), Item::RoleAuth(grant)) => grant.get().role.cmp(role),
        (Part::AdminOptions(role), Item::RoleAdmin(grant)) => grant.get().role.cmp(role),
        (Part::Held(need), Item::Held(right)) => compare_need(&right.get().need, need),
        (Part::HeldOn(action, on), Item::Held(right)) => compare_target(
            &right.get().need,
            action,
            on,
        ),
        (Part::Grantable(need), Item::Grantable(right)) => compare_need(&right.get().need, need),
        (Part::GrantableOn(action, on), Item::Grantable(right)) => compare_target(
            &right.get().need,
            action,
            on,
        ),
        _ => kind(x).cmp(&kind_of_part(part)),
    }
}

/// How many items are looked at one by one for the end of a part, as most parts are short.
const NEAR: usize = 8;

/// The end of a part that begins here, where it has any items.
fn end_of(items: &[Item], part: Part<'_>, start: usize) -> usize
    requires order { IsInOrder items.now }
    requires within { start ≤ length items.now }
    requires start { IsStartOf part items.now start }
    ensures bound { result ≤ length items.now }
    ensures end { IsEndOf part.entry items.now result }
{
    let mut end = start;
    while end < items.len() && end - start < NEAR {
        if !place(part, &items[end]).is_le() {
            return end;
        }
        end += 1;
    }
    if end == items.len() {
        return end;
    }
    items.partition_point(|x| place(part, x).is_le())
}

/// The places of a part. It takes no memory.
pub fn places(c: &Catalogue, part: Part<'_>) -> Range<usize>
    ensures { IsRange c.now.items result.start result.end (IsIn part.entry) }
{
    let items = c.items();
    let start = items.partition_point(|x| place(part, x).is_lt());
    start..end_of(items, part, start)
}

/// The places of the objects of one kind in a schema. It takes no memory.
pub fn objects_of(c: &Catalogue, kind: ObjectKind, schema: &Name) -> Range<usize>
    ensures { IsRange c.now.items result.start result.end (IsObjectIn kind schema.now) }
{
    places(c, Part::Objects(kind, schema))
}

/// The places of all role authorizations. It takes no memory.
pub fn role_authorizations(c: &Catalogue) -> Range<usize>
    ensures { IsRange c.now.items result.start result.end IsRoleAuthorization }
{
    places(c, Part::RoleAuthorizations)
}

/// The places of the role authorizations of a role: to whom it is granted. It takes no memory.
pub fn role_grants_of(c: &Catalogue, role: &Name) -> Range<usize>
    ensures { IsRange c.now.items result.start result.end (IsGrantOf role.now) }
{
    places(c, Part::RoleGrants(role))
}

/// The places of the admin options of a role. It takes no memory.
pub fn admin_options_of(c: &Catalogue, role: &Name) -> Range<usize>
    ensures { IsRange c.now.items result.start result.end (IsAdminOptionOf role.now) }
{
    places(c, Part::AdminOptions(role))
}

/// The places of the columns of a table or a view, in the order of their own places. It takes no memory.
pub fn columns_of(c: &Catalogue, table: &Object) -> Range<usize>
    ensures { IsRange c.now.items result.start result.end (IsColumnOf table.now) }
{
    places(c, Part::Columns(table.into()))
}

/// The places of the privileges of exactly this need. It takes no memory.
pub fn held_of(c: &Catalogue, need: &Need) -> Range<usize>
    ensures { IsRange c.now.items result.start result.end (IsHeldOf need.now) }
{
    places(c, Part::Held(need.into()))
}

/// The places of the grant options of exactly this need. It takes no memory.
pub fn grantable_of(c: &Catalogue, need: &Need) -> Range<usize>
    ensures { IsRange c.now.items result.start result.end (IsGrantableOf need.now) }
{
    places(c, Part::Grantable(need.into()))
}
