//! Topics on which an item depends by name.

ghost use Rattle.std.specs.Prelude.{◌≡◌, ◌⊎◌, OnOk};
ghost use Rattle.cascade_laws.specs.Asks as asks;
ghost use Rattle.cascade_laws.specs.Topics as topics;
ghost use Rattle.cat_items.specs.declared.item.Item.TheVariants as item;
ghost use Rattle.topic_keys.specs.Names as spec;
ghost use Rattle.topic_keys.specs.Lists.{Adds};

use crate::keys::{TopicKey, put_topic};
use crate::objects::{put_column, put_domain, put_table};
use cat_items::{Auth, Column, DomainCheck, Foreign, Item, Need, PathKey, Right, RoleGrant};
use sql_tree::{Action, Items, Name, Object, Path};
use std::alloc::{AllocError, Global};

fn put_columns(
    alloc: Global,
    keys: &mut Vec<Item>,
    table: &Object,
    names: &Items<Name>,
) -> Result<(), AllocError>
    ensures { OnOk result (Adds (topics.IsColumnTopic table.now names.now) keys.old.items keys.new.items) }
{
    for name in names.as_slice() {
        put_column(alloc, keys, table, name)?;
    }
    Ok(())
}

fn put_optional_domain(
    alloc: Global,
    keys: &mut Vec<Item>,
    domain: &Option<Object>,
) -> Result<(), AllocError>
    ensures { OnOk result (Adds (topics.IsOptionalDomainTopic domain.now) keys.old.items keys.new.items) }
{
    match domain {
        None => Ok(()),
        Some(domain) => put_domain(alloc, keys, domain),
    }
}

fn put_auth(alloc: Global, keys: &mut Vec<Item>, auth: &Auth) -> Result<(), AllocError>
    ensures { OnOk result (Adds (topics.IsAuthTopic auth.now) keys.old.items keys.new.items) }
{
    match auth {
        Auth::System | Auth::Public => Ok(()),
        Auth::Named(name) => put_topic(alloc, keys, TopicKey::Authorization(name)),
    }
}

/// Puts in the topic of the object of a need.
fn put_object(alloc: Global, keys: &mut Vec<Item>, need: &Need) -> Result<(), AllocError>
    ensures { OnOk result (Adds (topics.IsObjectTopic need.now.action need.now.on) keys.old.items keys.new.items) }
{
    let on = PathKey::Path(&need.on);
    match need.action {
        Action::Usage => put_topic(alloc, keys, TopicKey::Domain(on)),
        Action::Execute => put_topic(alloc, keys, TopicKey::Routine(on)),
        Action::Admin => Ok(()),
        _ => put_topic(alloc, keys, TopicKey::Table(on)),
    }
}

/// Puts in the topic of the column of a need.
fn put_need_column(alloc: Global, keys: &mut Vec<Item>, need: &Need) -> Result<(), AllocError>
    ensures { OnOk result (Adds (spec.IsNeedColumnTopic need.now) keys.old.items keys.new.items) }
{
    match &need.column {
        None => Ok(()),
        Some(name) => put_topic(alloc, keys, TopicKey::Column(PathKey::Path(&need.on), name)),
    }
}

/// Puts in the topics of the object of a need and its column. `Err` is want of memory.
pub fn put_need(alloc: Global, keys: &mut Vec<Item>, need: &Need) -> Result<(), AllocError>
    ensures { OnOk result (Adds (topics.IsNeedTopic need.now) keys.old.items keys.new.items) }
{
    put_object(alloc, keys, need)?;
    put_need_column(alloc, keys, need)
}

/// Puts in the topics of the two parties of a right, where it isn't by the system.
fn put_parties(
    alloc: Global,
    keys: &mut Vec<Item>,
    grantor: &Auth,
    grantee: &Auth,
) -> Result<(), AllocError>
    ensures { OnOk result (Adds (topics.IsPartyTopic grantor.now grantee.now) keys.old.items keys.new.items) }
{
    match grantor {
        Auth::System => Ok(()),
        _ => {
            put_auth(alloc, keys, grantor)?;
            put_auth(alloc, keys, grantee)
        }
    }
}

fn put_right(alloc: Global, keys: &mut Vec<Item>, right: &Right) -> Result<(), AllocError>
    ensures { OnOk result (Adds (topics.IsRightTopic right.now) keys.old.items keys.new.items) }
{
    put_need(alloc, keys, &right.need)?;
    put_parties(alloc, keys, &right.grantor, &right.grantee)
}

fn put_role_grant(alloc: Global, keys: &mut Vec<Item>, grant: &RoleGrant) -> Result<(), AllocError>
    ensures { OnOk result (Adds (topics.IsRoleGrantTopic grant.now) keys.old.items keys.new.items) }
{
    put_topic(alloc, keys, TopicKey::RoleNamed(&grant.role))?;
    put_topic(alloc, keys, TopicKey::Authorization(&grant.grantee))?;
    put_auth(alloc, keys, &grant.grantor)
}

fn put_table_names(alloc: Global, keys: &mut Vec<Item>, table: &Object) -> Result<(), AllocError>
    ensures { OnOk result (Adds (λ t. (t ≡ topics.schema table.now.schema) ⊎ (t ≡ topics.columns table.now)) keys.old.items keys.new.items) }
{
    put_topic(alloc, keys, TopicKey::Schema(&table.schema))?;
    put_topic(alloc, keys, TopicKey::Columns(table))
}

fn put_column_names(alloc: Global, keys: &mut Vec<Item>, column: &Column) -> Result<(), AllocError>
    ensures { OnOk result (Adds (topics.IsNameTopic (item.Column column.now)) keys.old.items keys.new.items) }
{
    put_table(alloc, keys, &column.table)?;
    put_optional_domain(alloc, keys, &column.domain)
}

fn put_domain_check(
    alloc: Global,
    keys: &mut Vec<Item>,
    check: &DomainCheck,
) -> Result<(), AllocError>
    ensures { OnOk result (Adds (topics.IsNameTopic (item.DomainCheck check.now)) keys.old.items keys.new.items) }
{
    put_topic(alloc, keys, TopicKey::Schema(&check.name.schema))?;
    put_domain(alloc, keys, &check.domain)
}

/// Puts in the topics of a constraint's schema, its table and some columns of this.
fn put_constraint(
    alloc: Global,
    keys: &mut Vec<Item>,
    name: &Object,
    table: &Object,
    columns: &Items<Name>,
) -> Result<(), AllocError>
    ensures { OnOk result (Adds (spec.IsConstraintTopic name.now table.now columns.now) keys.old.items keys.new.items) }
{
    put_topic(alloc, keys, TopicKey::Schema(&name.schema))?;
    put_topic(alloc, keys, TopicKey::BaseTable(table))?;
    put_columns(alloc, keys, table, columns)
}

/// Puts in the topics of the target of a foreign key, its columns there and its key.
fn put_target(alloc: Global, keys: &mut Vec<Item>, foreign: &Foreign) -> Result<(), AllocError>
    ensures { OnOk result (Adds (spec.IsTargetTopic foreign.now) keys.old.items keys.new.items) }
{
    put_topic(alloc, keys, TopicKey::BaseTable(&foreign.target))?;
    put_columns(alloc, keys, &foreign.target, &foreign.target_columns)?;
    put_topic(alloc, keys, TopicKey::Key(&foreign.key))
}

fn put_foreign(alloc: Global, keys: &mut Vec<Item>, foreign: &Foreign) -> Result<(), AllocError>
    ensures { OnOk result (Adds (topics.IsNameTopic (item.Foreign foreign.now)) keys.old.items keys.new.items) }
{
    put_constraint(alloc, keys, &foreign.name, &foreign.table, &foreign.columns)?;
    put_target(alloc, keys, foreign)
}

/// Puts in the topics that an item depends on by name, but for those that it depends on by way of its table or object. `Err` is want of
/// memory.
pub fn put_names(alloc: Global, keys: &mut Vec<Item>, x: &Item) -> Result<(), AllocError>
    ensures { OnOk result (Adds (topics.IsNameTopic x.now) keys.old.items keys.new.items) }
{
    match x {
        Item::User(_) | Item::Role(_) => Ok(()),
        Item::Schema(schema) => {
            put_topic(alloc, keys, TopicKey::Authorization(&schema.get().owner))
        }
        Item::Table(table) => put_table_names(alloc, keys, table.get()),
        Item::View(view) => put_topic(alloc, keys, TopicKey::Schema(&view.get().view.schema)),
        Item::Column(column) => put_column_names(alloc, keys, column.get()),
        Item::Domain(domain) => {
            put_topic(alloc, keys, TopicKey::Schema(&domain.get().domain.schema))
        }
        Item::DomainCheck(check) => put_domain_check(alloc, keys, check.get()),
        Item::Key(key) => {
            let key = key.get();
            put_constraint(alloc, keys, &key.name, &key.table, &key.columns)
        }
        Item::Foreign(foreign) => put_foreign(alloc, keys, foreign.get()),
        Item::Check(check) => {
            let check = check.get();
            put_constraint(alloc, keys, &check.name, &check.table, &check.columns)
        }
        Item::Assertion(assertion) => {
            put_topic(alloc, keys, TopicKey::Schema(&assertion.get().name.schema))
        }
        Item::Routine(routine) => {
            put_topic(alloc, keys, TopicKey::Schema(&routine.get().routine.schema))
        }
        Item::RoleAuth(grant) => put_role_grant(alloc, keys, grant.get()),
        Item::RoleAdmin(grant) => put_role_grant(alloc, keys, grant.get()),
        Item::Held(right) => put_right(alloc, keys, right.get()),
        Item::Grantable(right) => put_right(alloc, keys, right.get()),
    }
}

/// Puts in the topic of the schema that a path begins with.
fn put_first(alloc: Global, keys: &mut Vec<Item>, path: &Path) -> Result<(), AllocError>
    ensures { OnOk result (Adds (asks.IsFirstTopic path.now) keys.old.items keys.new.items) }
{
    match path.get(0) {
        None => Ok(()),
        Some(name) => put_topic(alloc, keys, TopicKey::Schema(name)),
    }
}

fn put_far_right(alloc: Global, keys: &mut Vec<Item>, right: &Right) -> Result<(), AllocError>
    ensures { OnOk result (Adds (asks.IsFarRightTopic right.now) keys.old.items keys.new.items) }
{
    put_first(alloc, keys, &right.need.on)?;
    put_auth(alloc, keys, &right.grantee)?;
    put_auth(alloc, keys, &right.grantor)
}

/// Puts in the topics of what an item names, and depends on by way of its table or object. `Err` is want of memory.
pub fn put_far_names(alloc: Global, keys: &mut Vec<Item>, x: &Item) -> Result<(), AllocError>
    ensures { OnOk result (Adds (asks.IsFarTopic x.now) keys.old.items keys.new.items) }
{
    match x {
        Item::Column(column) => {
            put_topic(alloc, keys, TopicKey::Schema(&column.get().table.schema))
        }
        Item::Held(right) => put_far_right(alloc, keys, right.get()),
        Item::Grantable(right) => put_far_right(alloc, keys, right.get()),
        _ => Ok(()),
    }
}
