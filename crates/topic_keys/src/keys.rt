//! Topics whose parts are lent, and their keys.

ghost use Rattle.std.specs.Prelude.{◌≡◌, ◌∷◌, [], IfOk, None, OnOk};
ghost use Rattle.std.specs.Option.{option_copied};
ghost use Rattle.cat_items.specs.Keys as lent;
ghost use Rattle.cat_items.specs.Rights as rights;
ghost use Rattle.cat_items.specs.declared.need.Auth.TheVariants as auths;
ghost use Rattle.role_graph.specs.Actors as actors;
ghost use Rattle.board_graph.specs.BoardKeys as boards;
ghost use Rattle.topic_keys.specs.Keys as spec;
ghost use Rattle.topic_keys.specs.Lists.{Adds};

use cat_items::{Auth, Item, Need, NeedKey, PathKey, Right, RoleGrant, Shared};
use edit_rules::path_of;
use role_graph::Actor;
use sql_tree::{Action, Name, Object, Path};
use std::alloc::{AllocError, Global};

/// A topic whose parts are lent: what an item depends on, or stands under.
#[derive(Clone, Copy)]
pub enum TopicKey<'a> {
    /// A user or a role.
    Authorization(&'a Name),
    RoleNamed(&'a Name),
    Schema(&'a Name),
    /// A base table or a view.
    Table(PathKey<'a>),
    BaseTable(&'a Object),
    /// All columns of a table or a view.
    Columns(&'a Object),
    Column(PathKey<'a>, &'a Name),
    Domain(PathKey<'a>),
    Routine(PathKey<'a>),
    /// A PRIMARY KEY or UNIQUE constraint.
    Key(&'a Object),
    /// The rights of a need to a grantee.
    Supply(NeedKey<'a>, Actor<'a>),
    /// The role authorizations to a grantee.
    Edges(&'a Name),
    /// The admin options of a role to a grantee.
    Admins(&'a Name, &'a Name),
}

fn copy_path(path: PathKey<'_>) -> Result<Path, AllocError>
    ensures { IfOk result (λ copy. copy ≡ lent.path_in path.entry) }
{
    match path {
        PathKey::Path(path) => path.copy(),
        PathKey::Object(object) => Ok(Path::two(object.schema.copy()?, object.name.copy()?)),
    }
}

fn copy_column(column: Option<&Name>) -> Result<Option<Name>, AllocError>
    ensures { IfOk result (λ copy. copy ≡ option_copied column.entry) }
{
    match column {
        None => Ok(None),
        Some(name) => Ok(Some(name.copy()?)),
    }
}

fn copy_need(need: NeedKey<'_>) -> Result<Need, AllocError>
    ensures { IfOk result (λ copy. copy ≡ lent.need_of need.entry) }
{
    Ok(Need {
        action: need.action,
        on: copy_path(need.on)?,
        column: copy_column(need.column)?,
    })
}

fn copy_auth(actor: Actor<'_>) -> Result<Auth, AllocError>
    ensures { IfOk result (λ auth. auth ≡ actors.auth_of actor.entry) }
{
    match actor {
        Actor::System => Ok(Auth::System),
        Actor::Public => Ok(Auth::Public),
        Actor::Named(name) => Ok(Auth::Named(name.copy()?)),
    }
}

/// A right that no catalogue has: its grantee is the system.
fn place(alloc: Global, action: Action, on: Path, column: Option<Name>) -> Result<Item, AllocError>
    ensures { IfOk result (λ key. key ≡ boards.place action on column) }
{
    let need = Need { action, on, column };
    let right = Right {
        need,
        grantor: Auth::System,
        grantee: Auth::System,
    };
    Ok(Item::Held(Shared::new(alloc, right)?))
}

fn place_of_name(alloc: Global, action: Action, name: &Name) -> Result<Item, AllocError>
    ensures { IfOk result (λ key. key ≡ boards.place action (name.now ∷ []) None) }
{
    place(alloc, action, Path::one(name.copy()?), None)
}

fn place_of_object(alloc: Global, action: Action, object: &Object) -> Result<Item, AllocError>
    ensures { IfOk result (λ key. key ≡ boards.place action (rights.path_of object.now) None) }
{
    place(alloc, action, path_of(object)?, None)
}

fn place_of_path(alloc: Global, action: Action, path: PathKey<'_>) -> Result<Item, AllocError>
    ensures { IfOk result (λ key. key ≡ boards.place action (lent.path_in path.entry) None) }
{
    place(alloc, action, copy_path(path)?, None)
}

/// A role grant by PUBLIC, which no catalogue has.
fn grant_by_public(
    alloc: Global,
    role: &Name,
    grantee: &Name,
) -> Result<Shared<RoleGrant>, AllocError>
    ensures { IfOk result (λ grant. grant ≡ record { role = role.now; grantor = auths.Public; grantee = grantee.now }) }
{
    let grant = RoleGrant {
        role: role.copy()?,
        grantor: Auth::Public,
        grantee: grantee.copy()?,
    };
    Shared::new(alloc, grant)
}

/// The key of the rights of a need to a grantee: a right by PUBLIC, which no catalogue has.
fn supply(alloc: Global, need: NeedKey<'_>, grantee: Actor<'_>) -> Result<Item, AllocError>
    ensures { IfOk result (λ key. key ≡ boards.topic_key (spec.supply_of need.entry grantee.entry)) }
{
    let right = Right {
        need: copy_need(need)?,
        grantor: Auth::Public,
        grantee: copy_auth(grantee)?,
    };
    Ok(Item::Held(Shared::new(alloc, right)?))
}

/// The key of a topic. `Err` is want of memory.
pub fn key_of(alloc: Global, topic: TopicKey<'_>) -> Result<Item, AllocError>
    ensures { IfOk result (λ key. key ≡ boards.topic_key (spec.topic_of topic.entry)) }
{
    match topic {
        TopicKey::Authorization(name) => place_of_name(alloc, Action::Insert, name),
        TopicKey::RoleNamed(name) => place_of_name(alloc, Action::Update, name),
        TopicKey::Schema(name) => place_of_name(alloc, Action::Delete, name),
        TopicKey::Table(path) => place_of_path(alloc, Action::Select, path),
        TopicKey::BaseTable(table) => place_of_object(alloc, Action::Insert, table),
        TopicKey::Columns(table) => place_of_object(alloc, Action::Update, table),
        TopicKey::Column(path, name) => {
            place(alloc, Action::Select, copy_path(path)?, Some(name.copy()?))
        }
        TopicKey::Domain(path) => place_of_path(alloc, Action::Usage, path),
        TopicKey::Routine(path) => place_of_path(alloc, Action::Execute, path),
        TopicKey::Key(name) => place_of_object(alloc, Action::References, name),
        TopicKey::Supply(need, grantee) => supply(alloc, need, grantee),
        TopicKey::Edges(name) => Ok(Item::RoleAuth(grant_by_public(alloc, name, name)?)),
        TopicKey::Admins(role, name) => Ok(Item::RoleAdmin(grant_by_public(alloc, role, name)?)),
    }
}

/// Puts the key of a topic behind a list of keys, whether it is there or not. `Err` is want of memory.
pub fn put_topic(alloc: Global, keys: &mut Vec<Item>, topic: TopicKey<'_>) -> Result<(), AllocError>
    ensures { OnOk result (Adds (λ t. t ≡ spec.topic_of topic.entry) keys.old.items keys.new.items) }
{
    keys.push(key_of(alloc, topic)?)?;
    Ok(())
}
