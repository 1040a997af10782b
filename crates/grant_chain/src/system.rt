//! What the system grants to the owner of a schema.

ghost use Rattle.std.specs.Prelude.{◌≡◌, ◌↔◌, IsTrue, None, slice_get};
ghost use Rattle.std.specs.Option.{option_copied};
ghost use Rattle.sql_names.specs.declared.object.Object.{Object};
ghost use Rattle.cat_items.specs.declared.need.Auth.TheVariants.{Named};
ghost use Rattle.cat_items.specs.Keys.{object_of};
ghost use Rattle.cat_items.specs.Reach.{Has};
ghost use Rattle.cat_items.specs.Rights.{path_of};
ghost use Rattle.cat_items.specs.SystemRights.{IsRoutineRow, IsSystemRow, IsTableRow, IsUpdatable, IsViewRow, MetOnBase, MetOnBaseColumn, SystemGrants, security_of};
ghost use Rattle.role_graph.specs.Judges.{counting};

use cat_items::{Auth, Item, Need, NeedKey, ObjectKey, Part, PathKey, Right, Routine, View};
use role_graph::{Actor, Condition, Judge, object_at};
use sql_tree::{Action, Body, Name, Object, Security};

/// With whose rights a routine runs.
pub fn security(body: &Body) -> Security
    ensures { result ≡ security_of body.now }
{
    match body {
        Body::Return { security, .. } => *security,
        Body::Atomic { security, .. } => *security,
    }
}

/// Whether the system grants such an action on a base table, or on a column of it.
fn is_table_row(action: Action, column: Option<&Name>) -> bool
    ensures { IsTrue result ↔ IsTableRow action (option_copied column.entry) }
{
    match (action, column) {
        (Action::Select | Action::Insert | Action::Update | Action::References, _) => true,
        (Action::Delete, None) => true,
        _ => false,
    }
}

/// Whether an action on the base of a plain view is met.
fn met_on_base(
    judge: &mut Judge<'_>,
    owner: &Name,
    action: Action,
    base: &Option<Object>,
    grantable: bool,
) -> bool
    ensures answer { IsTrue result ↔ MetOnBase grantable (counting judge.old) (Named owner.now) action base.now }
    ensures same { judge.new ≡ judge.old }
{
    match base {
        None => false,
        Some(base) => {
            let need = NeedKey {
                action,
                on: PathKey::Object(base.into()),
                column: None,
            };
            judge.met_by(Actor::Named(owner), need, grantable)
        }
    }
}

/// Whether an action on a column of the base of a plain view is met.
fn met_on_base_column(
    judge: &mut Judge<'_>,
    owner: &Name,
    action: Action,
    base: &Option<Object>,
    column: Option<&Name>,
    grantable: bool,
) -> bool
    ensures answer { IsTrue result ↔ MetOnBaseColumn grantable (counting judge.old) (Named owner.now) action base.now (option_copied column.entry) }
    ensures same { judge.new ≡ judge.old }
{
    match (base, column) {
        (Some(base), Some(_)) => {
            let need = NeedKey {
                action,
                on: PathKey::Object(base.into()),
                column,
            };
            judge.met_by(Actor::Named(owner), need, grantable)
        }
        _ => false,
    }
}

/// A column of a view that can be changed by an action on its base.
#[derive(Drop)]
struct Updatable<'a> {
    owner: &'a Name,
    view: &'a View,
    action: Action,
    name: &'a Name,
    grantable: bool,
}

impl<'a> Condition for Updatable<'a> {
    ghost use Rattle.cat_items.specs.declared.need.Auth.TheVariants.{Named};
    ghost use Rattle.cat_items.specs.SystemRights.{IsUpdatable};

    ghost holds = { λ t s x. IsUpdatable t.grantable s (Named t.owner.now) t.view.now t.action t.name.now x };

    fn is_met(&self, judge: &mut Judge<'_>, x: &Item) -> bool {
        match x {
            Item::Column(column) => {
                let column = column.get();
                let at = column.place.saturating_sub(1) as usize;
                column.table.same(&self.view.view)
                    && column.name.same(self.name)
                    && met_on_base_column(
                        judge,
                        self.owner,
                        self.action,
                        &self.view.base,
                        self.view.base_columns.get(at),
                        self.grantable,
                    )
            }
            _ => false,
        }
    }
}

/// Whether a column of a view of this name can be changed by an action on its base.
fn is_updatable(
    judge: &mut Judge<'_>,
    owner: &Name,
    view: &View,
    action: Action,
    name: &Name,
    grantable: bool,
) -> bool
    ensures answer { IsTrue result ↔ Has (counting judge.old) (IsUpdatable grantable (counting judge.old) (Named owner.now) view.now action name.now) }
    ensures same { judge.new ≡ judge.old }
{
    let test = Updatable {
        owner,
        view,
        action,
        name,
        grantable,
    };
    let part = Part::Columns((&view.view).into());
    judge.any_met(part, &test)
}

/// Whether the system grants such an action on a view, or on a column of it.
fn is_view_row(
    judge: &mut Judge<'_>,
    owner: &Name,
    view: &View,
    action: Action,
    column: Option<&Name>,
    grantable: bool,
) -> bool
    ensures answer { IsTrue result ↔ IsViewRow grantable (counting judge.old) (Named owner.now) view.now action (option_copied column.entry) }
    ensures same { judge.new ≡ judge.old }
{
    match (action, column) {
        (Action::Select, _) => judge.met_with_option(owner, &view.needs, grantable),
        (Action::Insert | Action::Update | Action::Delete, None) => {
            met_on_base(judge, owner, action, &view.base, grantable)
        }
        (Action::Insert | Action::Update, Some(name)) => {
            is_updatable(judge, owner, view, action, name, grantable)
        }
        _ => false,
    }
}

/// Whether the system grants EXECUTE on a routine: what an invoker's routine needs is its caller's affair.
fn is_routine_row(judge: &mut Judge<'_>, owner: &Name, routine: &Routine, grantable: bool) -> bool
    ensures answer { IsTrue result ↔ IsRoutineRow grantable (counting judge.old) (Named owner.now) routine.now (security_of routine.now.body) }
    ensures same { judge.new ≡ judge.old }
{
    match security(&routine.body) {
        Security::Definer => judge.met_with_option(owner, &routine.needs, grantable),
        Security::Invoker => true,
    }
}

/// Whether a need is of this action on the whole object.
fn is_whole(need: &Need, action: Action) -> bool
    ensures { IsTrue result ↔ (need.now.action ≡ action) × (need.now.column ≡ None) }
{
    need.action == action && need.column.is_none()
}

/// An object, in this schema, on which the system grants this to the owner.
#[derive(Drop)]
struct SystemRow<'a> {
    schema: &'a Name,
    owner: &'a Name,
    need: &'a Need,
    grantable: bool,
}

impl<'a> SystemRow<'a> {
    /// Whether the need is on this object, and the object in the schema.
    fn is_on(&self, object: &Object) -> bool
        ensures { IsTrue result ↔ (object.now.schema ≡ self.now.schema.now) × (self.now.need.now.on ≡ path_of object.now) }
    {
        match object_at(PathKey::Path(&self.need.on)) {
            None => false,
            Some(key) => {
                object.schema.same(self.schema)
                    && object.schema.same(key.schema)
                    && object.name.same(key.name)
            }
        }
    }
}

impl<'a> Condition for SystemRow<'a> {
    ghost use Rattle.cat_items.specs.declared.need.Auth.TheVariants.{Named};
    ghost use Rattle.cat_items.specs.SystemRights.{IsSystemRow};

    ghost holds = { λ t s x. IsSystemRow t.grantable s t.schema.now (Named t.owner.now) t.need.now x };

    fn is_met(&self, judge: &mut Judge<'_>, x: &Item) -> bool {
        let action = self.need.action;
        let column = self.need.column.as_ref();
        match x {
            Item::Table(table) => self.is_on(table.get()) && is_table_row(action, column),
            Item::View(view) => {
                let view = view.get();
                self.is_on(&view.view)
                    && is_view_row(judge, self.owner, view, action, column, self.grantable)
            }
            Item::Domain(domain) => {
                self.is_on(&domain.get().domain) && is_whole(self.need, Action::Usage)
            }
            Item::Routine(routine) => {
                let routine = routine.get();
                self.is_on(&routine.routine)
                    && is_whole(self.need, Action::Execute)
                    && is_routine_row(judge, self.owner, routine, self.grantable)
            }
            _ => false,
        }
    }
}

/// Whether an object of this name, of one of the kinds, is one on which the system grants this to the owner.
fn any_row(judge: &mut Judge<'_>, key: ObjectKey<'_>, row: &SystemRow<'_>) -> bool
    requires on { row.now.need.now.on ≡ path_of (object_of key) }
    ensures answer { IsTrue result ↔ Has (counting judge.old) (IsSystemRow row.now.grantable (counting judge.old) row.now.schema.now (Named row.now.owner.now) row.now.need.now) }
    ensures same { judge.new ≡ judge.old }
{
    judge.any_met(Part::Table(key), row)
        || judge.any_met(Part::View(key), row)
        || judge.any_met(Part::Domain(key), row)
        || judge.any_met(Part::Routine(key), row)
}

/// Whether an object is one on which the system grants this to the owner.
fn is_system_row(judge: &mut Judge<'_>, row: &SystemRow<'_>) -> bool
    ensures answer { IsTrue result ↔ Has (counting judge.old) (IsSystemRow row.now.grantable (counting judge.old) row.now.schema.now (Named row.now.owner.now) row.now.need.now) }
    ensures same { judge.new ≡ judge.old }
{
    match object_at(PathKey::Path(&row.need.on)) {
        None => false,
        Some(key) => any_row(judge, key, row),
    }
}

/// Whether an authorization is the user or role of this name.
fn is_named(a: &Auth, name: &Name) -> bool
    ensures { IsTrue result ↔ (a.now ≡ Named name.now) }
{
    match a {
        Auth::Named(other) => other.same(name),
        _ => false,
    }
}

/// A schema whose owner is the grantee, and in which the system grants this.
#[derive(Drop)]
struct SystemSchema<'a> {
    right: &'a Right,
    grantable: bool,
}

impl<'a> Condition for SystemSchema<'a> {
    ghost use Rattle.cat_items.specs.SystemRights.{IsSystemSchema};

    ghost holds = { λ t s x. IsSystemSchema t.grantable s t.right.now x };

    fn is_met(&self, judge: &mut Judge<'_>, x: &Item) -> bool {
        match x {
            Item::Schema(schema) => {
                let schema = schema.get();
                let row = SystemRow {
                    schema: &schema.name,
                    owner: &schema.owner,
                    need: &self.right.need,
                    grantable: self.grantable,
                };
                is_named(&self.right.grantee, &schema.owner) && is_system_row(judge, &row)
            }
            _ => false,
        }
    }
}

/// Whether the system grants a right, held or with grant option.
pub fn system_grants(judge: &mut Judge<'_>, right: &Right, grantable: bool) -> bool
    ensures answer { IsTrue result ↔ SystemGrants grantable (counting judge.old) right.now }
    ensures same { judge.new ≡ judge.old }
{
    match object_at(PathKey::Path(&right.need.on)) {
        None => false,
        Some(key) => {
            let test = SystemSchema { right, grantable };
            judge.any_met(Part::Schema(key.schema), &test)
        }
    }
}
