//! Under which topics an item stands.

ghost use Rattle.std.specs.Prelude.{◌≡◌, ◌⊎◌, IfOk, OnOk};
ghost use Rattle.cat_items.specs.Rights.{path_of};
ghost use Rattle.cascade_laws.specs.Topics as topics;
ghost use Rattle.edit_rules.specs.Chosen.{AreAll};
ghost use Rattle.topic_keys.specs.Homes as spec;
ghost use Rattle.topic_keys.specs.Lists as lists;

use crate::keys::{TopicKey, put_topic};
use crate::objects::{put_column, put_domain, put_routine, put_table};
use crate::order::in_order;
use cat_items::{Column, Item, Right};
use sql_tree::{Items, Name, Object};
use std::alloc::{AllocError, Global};

fn put_role(alloc: Global, keys: &mut Vec<Item>, name: &Name) -> Result<(), AllocError>
    ensures { OnOk result (lists.Adds (λ t. (t ≡ topics.authorization name.now) ⊎ (t ≡ topics.role_named name.now)) keys.old.items keys.new.items) }
{
    put_topic(alloc, keys, TopicKey::Authorization(name))?;
    put_topic(alloc, keys, TopicKey::RoleNamed(name))
}

fn put_base_table(alloc: Global, keys: &mut Vec<Item>, table: &Object) -> Result<(), AllocError>
    ensures { OnOk result (lists.Adds (λ t. (t ≡ topics.table (path_of table.now)) ⊎ (t ≡ topics.base_table table.now)) keys.old.items keys.new.items) }
{
    put_table(alloc, keys, table)?;
    put_topic(alloc, keys, TopicKey::BaseTable(table))
}

fn put_column_of(alloc: Global, keys: &mut Vec<Item>, column: &Column) -> Result<(), AllocError>
    ensures { OnOk result (lists.Adds (λ t. (t ≡ topics.columns column.now.table) ⊎ (t ≡ topics.column (path_of column.now.table) column.now.name)) keys.old.items keys.new.items) }
{
    put_topic(alloc, keys, TopicKey::Columns(&column.table))?;
    put_column(alloc, keys, &column.table, &column.name)
}

fn put_right(alloc: Global, keys: &mut Vec<Item>, right: &Right) -> Result<(), AllocError>
    ensures { OnOk result (lists.Adds (λ t. t ≡ topics.supply right.now.need right.now.grantee) keys.old.items keys.new.items) }
{
    let need = (&right.need).into();
    let grantee = (&right.grantee).into();
    put_topic(alloc, keys, TopicKey::Supply(need, grantee))
}

fn put_homes(alloc: Global, keys: &mut Vec<Item>, x: &Item) -> Result<(), AllocError>
    ensures { OnOk result (lists.Adds (spec.IsHomeOf x.now) keys.old.items keys.new.items) }
{
    match x {
        Item::User(name) => put_topic(alloc, keys, TopicKey::Authorization(name)),
        Item::Role(name) => put_role(alloc, keys, name),
        Item::Schema(schema) => put_topic(alloc, keys, TopicKey::Schema(&schema.get().name)),
        Item::Table(table) => put_base_table(alloc, keys, table.get()),
        Item::View(view) => put_table(alloc, keys, &view.get().view),
        Item::Column(column) => put_column_of(alloc, keys, column.get()),
        Item::Domain(domain) => put_domain(alloc, keys, &domain.get().domain),
        Item::Key(key) => put_topic(alloc, keys, TopicKey::Key(&key.get().name)),
        Item::Routine(routine) => put_routine(alloc, keys, &routine.get().routine),
        Item::RoleAuth(grant) => put_topic(alloc, keys, TopicKey::Edges(&grant.get().grantee)),
        Item::RoleAdmin(grant) => {
            let grant = grant.get();
            put_topic(alloc, keys, TopicKey::Admins(&grant.role, &grant.grantee))
        }
        Item::Held(right) => put_right(alloc, keys, right.get()),
        Item::Grantable(right) => put_right(alloc, keys, right.get()),
        Item::DomainCheck(_) | Item::Foreign(_) | Item::Check(_) | Item::Assertion(_) => Ok(()),
    }
}

/// The keys of the topics under which an item stands, in order: at most two. `Err` is want of memory.
pub fn homes(alloc: Global, x: &Item) -> Result<Items<Item>, AllocError>
    ensures { IfOk result (λ keys. AreAll (lists.IsKeyWhere (spec.IsHome x.now)) keys) }
{
    let mut keys = Vec::new(alloc);
    put_homes(alloc, &mut keys, x)?;
    Ok(Items::from_vec(in_order(keys)))
}
