//! Topics of objects of schemas.

ghost use Rattle.std.specs.Prelude.{◌≡◌, OnOk};
ghost use Rattle.cat_items.specs.Rights.{path_of};
ghost use Rattle.cascade_laws.specs.Topics as topics;
ghost use Rattle.topic_keys.specs.Lists.{Adds};

use crate::keys::{TopicKey, put_topic};
use cat_items::{Item, ObjectKey, PathKey};
use sql_tree::{Name, Object};
use std::alloc::{AllocError, Global};

/// Puts in the topic of a base table or a view. `Err` is want of memory.
pub fn put_table(alloc: Global, keys: &mut Vec<Item>, table: &Object) -> Result<(), AllocError>
    ensures { OnOk result (Adds (λ t. t ≡ topics.table (path_of table.now)) keys.old.items keys.new.items) }
{
    let path = PathKey::Object(ObjectKey {
        schema: &table.schema,
        name: &table.name,
    });
    put_topic(alloc, keys, TopicKey::Table(path))
}

/// Puts in the topic of a column of a base table or a view. `Err` is want of memory.
pub fn put_column(
    alloc: Global,
    keys: &mut Vec<Item>,
    table: &Object,
    name: &Name,
) -> Result<(), AllocError>
    ensures { OnOk result (Adds (λ t. t ≡ topics.column (path_of table.now) name.now) keys.old.items keys.new.items) }
{
    let path = PathKey::Object(ObjectKey {
        schema: &table.schema,
        name: &table.name,
    });
    put_topic(alloc, keys, TopicKey::Column(path, name))
}

/// Puts in the topic of a domain. `Err` is want of memory.
pub fn put_domain(alloc: Global, keys: &mut Vec<Item>, domain: &Object) -> Result<(), AllocError>
    ensures { OnOk result (Adds (λ t. t ≡ topics.domain (path_of domain.now)) keys.old.items keys.new.items) }
{
    let path = PathKey::Object(ObjectKey {
        schema: &domain.schema,
        name: &domain.name,
    });
    put_topic(alloc, keys, TopicKey::Domain(path))
}

/// Puts in the topic of a routine. `Err` is want of memory.
pub fn put_routine(alloc: Global, keys: &mut Vec<Item>, routine: &Object) -> Result<(), AllocError>
    ensures { OnOk result (Adds (λ t. t ≡ topics.routine (path_of routine.now)) keys.old.items keys.new.items) }
{
    let path = PathKey::Object(ObjectKey {
        schema: &routine.schema,
        name: &routine.name,
    });
    put_topic(alloc, keys, TopicKey::Routine(path))
}
