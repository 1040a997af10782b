//! Which items are supported.

ghost use Rattle.std.specs.Prelude.{◌≡◌, ◌≢◌, ◌↔◌, length, IsTrue, Some};
ghost use Rattle.sql_tree.specs.declared.rights.Action.TheVariants.{Admin};
ghost use Rattle.cat_items.specs.declared.item.Item.TheVariants as item;
ghost use Rattle.cat_items.specs.Reach.{Has};
ghost use Rattle.cat_items.specs.Rights.{IsBaseTable};
ghost use Rattle.cat_items.specs.Supported.{HasColumns, IsGrantee, IsHeld, IsRoleAuth, Keeps, MayGrant, MayGrantRole, RestsOnDomain, RightRests, RoleGrantRests, RoutineRests, Supported};
ghost use Rattle.cat_items.specs.SystemRights.{security_of};
ghost use Rattle.role_graph.specs.Judges.{counting};
ghost use Rattle.role_graph.specs.Marked.{marked};
ghost use Rattle.role_graph.specs.Roles.{IsRoomFor};

use crate::system::{security, system_grants};
use cat_items::{
    Auth, Catalogue, Check, Column, DomainCheck, Foreign, Item, Key, Marks, NeedKey, Part, PathKey,
    Right, RoleGrant, Routine,
};
use role_graph::{Actor, Condition, Judge, Matches, Needs, Walk};
use sql_tree::{Action, Items, Name, Object, Security};

/// Whether what a column of a schema rests on counts, where it is based on a domain.
fn rests_on_domain(judge: &mut Judge<'_>, schema: &Name, domain: &Option<Object>) -> bool
    ensures answer { IsTrue result ↔ RestsOnDomain (counting judge.old) schema.now domain.now }
    ensures same { judge.new ≡ judge.old }
{
    match domain {
        None => true,
        Some(domain) => {
            let usage = NeedKey {
                action: Action::Usage,
                on: PathKey::Object(domain.into()),
                column: None,
            };
            judge.domain_stands(domain.into()) && judge.owner_meets(schema, Needs::One(usage))
        }
    }
}

/// A column that keeps its table.
#[derive(Drop)]
struct Keeping<'a> {
    table: &'a Object,
}

impl<'a> Condition for Keeping<'a> {
    ghost use Rattle.cat_items.specs.Supported.{Keeps};

    ghost holds = { λ t s x. Keeps s t.table.now x };

    fn is_met(&self, judge: &mut Judge<'_>, x: &Item) -> bool {
        match x {
            Item::Column(column) => {
                let column = column.get();
                column.table.same(self.table)
                    && rests_on_domain(judge, &self.table.schema, &column.domain)
            }
            _ => false,
        }
    }
}

/// Whether the table has a column, whether or not it counts, that keeps it.
fn has_keeping_column(judge: &mut Judge<'_>, table: &Object) -> bool
    ensures answer { IsTrue result ↔ Has judge.old.items (Keeps (counting judge.old) table.now) }
    ensures same { judge.new ≡ judge.old }
{
    let part = Part::Columns(table.into());
    judge.any_among(None, part, &Keeping { table })
}

fn table_rests(judge: &mut Judge<'_>, table: &Object) -> bool
    ensures answer { IsTrue result ↔ Supported judge.old.items (counting judge.old) (item.Table table.now) }
    ensures same { judge.new ≡ judge.old }
{
    judge.any_in(Part::Schema(&table.schema)) && has_keeping_column(judge, table)
}

fn column_rests(judge: &mut Judge<'_>, column: &Column) -> bool
    ensures answer { IsTrue result ↔ Supported judge.old.items (counting judge.old) (item.Column column.now) }
    ensures same { judge.new ≡ judge.old }
{
    let schema = &column.table.schema;
    judge.any_in(Part::Schema(schema))
        && judge.table_stands((&column.table).into())
        && rests_on_domain(judge, schema, &column.domain)
}

fn domain_check_rests(judge: &mut Judge<'_>, check: &DomainCheck) -> bool
    ensures answer { IsTrue result ↔ Supported judge.old.items (counting judge.old) (item.DomainCheck check.now) }
    ensures same { judge.new ≡ judge.old }
{
    let needs = Needs::Listed(&check.needs);
    judge.domain_stands((&check.domain).into()) && judge.owner_meets(&check.name.schema, needs)
}

/// Whether a base table counts, and these columns of it.
fn table_has_columns(judge: &Judge<'_>, table: &Object, columns: &Items<Name>) -> bool
    ensures { IsTrue result ↔ (Has (counting judge.now) (IsBaseTable table.now) × HasColumns (counting judge.now) table.now columns.now) }
{
    judge.any_in(Part::Table(table.into())) && judge.has_columns(table, columns)
}

fn key_rests(judge: &Judge<'_>, key: &Key) -> bool
    ensures { IsTrue result ↔ Supported judge.now.items (counting judge.now) (item.Key key.now) }
{
    judge.any_in(Part::Schema(&key.name.schema))
        && table_has_columns(judge, &key.table, &key.columns)
}

fn foreign_rests(judge: &mut Judge<'_>, foreign: &Foreign) -> bool
    ensures answer { IsTrue result ↔ Supported judge.old.items (counting judge.old) (item.Foreign foreign.now) }
    ensures same { judge.new ≡ judge.old }
{
    let needs = Needs::References {
        table: &foreign.target,
        columns: &foreign.target_columns,
    };
    table_has_columns(judge, &foreign.table, &foreign.columns)
        && table_has_columns(judge, &foreign.target, &foreign.target_columns)
        && judge.any_in(Part::Key((&foreign.key).into()))
        && judge.owner_meets(&foreign.name.schema, needs)
}

fn check_rests(judge: &mut Judge<'_>, check: &Check) -> bool
    ensures answer { IsTrue result ↔ Supported judge.old.items (counting judge.old) (item.Check check.now) }
    ensures same { judge.new ≡ judge.old }
{
    table_has_columns(judge, &check.table, &check.columns)
        && judge.owner_meets(&check.name.schema, Needs::Listed(&check.needs))
}

fn routine_rests(judge: &mut Judge<'_>, routine: &Routine) -> bool
    ensures answer { IsTrue result ↔ RoutineRests (counting judge.old) routine.now (security_of routine.now.body) }
    ensures same { judge.new ≡ judge.old }
{
    let schema = &routine.routine.schema;
    match security(&routine.body) {
        Security::Definer => judge.owner_meets(schema, Needs::Listed(&routine.needs)),
        Security::Invoker => {
            judge.any_in(Part::Schema(schema)) && judge.all_stand(&routine.needs)
        }
    }
}

/// Whether the grantor of a role is the system, or counts and has the admin option.
fn may_grant_role(judge: &mut Judge<'_>, role: &Name, grantor: &Auth) -> bool
    ensures answer { IsTrue result ↔ MayGrantRole (counting judge.old) role.now grantor.now }
    ensures same { judge.new ≡ judge.old }
{
    match grantor {
        Auth::System => true,
        Auth::Public => false,
        Auth::Named(name) => {
            judge.authorization_stands(name) && judge.has_admin(Actor::Named(name), role)
        }
    }
}

fn role_grant_rests(judge: &mut Judge<'_>, grant: &RoleGrant) -> bool
    ensures answer { IsTrue result ↔ RoleGrantRests (counting judge.old) grant.now }
    ensures same { judge.new ≡ judge.old }
{
    judge.any_in(Part::Role(&grant.role))
        && judge.authorization_stands(&grant.grantee)
        && may_grant_role(judge, &grant.role, &grant.grantor)
}

/// Whether a grantee is PUBLIC, or counts.
fn is_grantee(judge: &Judge<'_>, grantee: &Auth) -> bool
    ensures { IsTrue result ↔ IsGrantee (counting judge.now) grantee.now }
{
    match grantee {
        Auth::System => false,
        Auth::Public => true,
        Auth::Named(name) => judge.authorization_stands(name),
    }
}

/// Whether the grantor of a right is the system by its rules, or counts and may grant it.
fn may_grant(judge: &mut Judge<'_>, right: &Right, grantable: bool) -> bool
    ensures answer { IsTrue result ↔ MayGrant grantable (counting judge.old) right.now right.now.grantor }
    ensures same { judge.new ≡ judge.old }
{
    match &right.grantor {
        Auth::System => system_grants(judge, right, grantable),
        Auth::Public => false,
        Auth::Named(name) => {
            judge.authorization_stands(name)
                && judge.met_by(Actor::Named(name), (&right.need).into(), true)
        }
    }
}

/// Whether a right isn't one to ADMIN.
fn is_no_admin(action: Action) -> bool
    ensures { IsTrue result ↔ (action ≢ Admin) }
{
    match action {
        Action::Admin => false,
        _ => true,
    }
}

fn right_rests(judge: &mut Judge<'_>, right: &Right, grantable: bool) -> bool
    ensures answer { IsTrue result ↔ RightRests grantable (counting judge.old) right.now }
    ensures same { judge.new ≡ judge.old }
{
    is_no_admin(right.need.action)
        && judge.stands((&right.need).into())
        && is_grantee(judge, &right.grantee)
        && may_grant(judge, right, grantable)
}

/// The role authorization of the same fields.
#[derive(Drop)]
struct SameRoleGrant<'a> {
    grant: &'a RoleGrant,
}

impl<'a> Matches for SameRoleGrant<'a> {
    ghost use Rattle.cat_items.specs.Supported.{IsRoleAuth};

    ghost fits = { λ t x. IsRoleAuth t.grant.now x };

    fn matches(&self, x: &Item) -> bool {
        match x {
            Item::RoleAuth(grant) => grant.get().same(self.grant),
            _ => false,
        }
    }
}

/// Whether the role authorization of the same fields counts.
fn has_role_grant(judge: &Judge<'_>, grant: &RoleGrant) -> bool
    ensures { IsTrue result ↔ Has (counting judge.now) (IsRoleAuth grant.now) }
{
    let part = Part::RoleGrants(&grant.role);
    judge.any_match(part, &SameRoleGrant { grant })
}

/// The held privilege of the same fields.
#[derive(Drop)]
struct SameRight<'a> {
    right: &'a Right,
}

impl<'a> Matches for SameRight<'a> {
    ghost use Rattle.cat_items.specs.Supported.{IsHeld};

    ghost fits = { λ t x. IsHeld t.right.now x };

    fn matches(&self, x: &Item) -> bool {
        match x {
            Item::Held(right) => right.get().same(self.right),
            _ => false,
        }
    }
}

/// Whether the held privilege of the same fields counts.
fn has_held(judge: &Judge<'_>, right: &Right) -> bool
    ensures { IsTrue result ↔ Has (counting judge.now) (IsHeld right.now) }
{
    let part = Part::Held((&right.need).into());
    judge.any_match(part, &SameRight { right })
}

/// Whether the items that count support an item.
fn is_supported(judge: &mut Judge<'_>, item: &Item) -> bool
    ensures answer { IsTrue result ↔ Supported judge.old.items (counting judge.old) item.now }
    ensures same { judge.new ≡ judge.old }
{
    match item {
        Item::User(_) | Item::Role(_) => true,
        Item::Schema(schema) => judge.authorization_stands(&schema.get().owner),
        Item::Table(table) => table_rests(judge, table.get()),
        Item::View(view) => {
            let view = view.get();
            judge.owner_meets(&view.view.schema, Needs::Listed(&view.needs))
        }
        Item::Column(column) => column_rests(judge, column.get()),
        Item::Domain(domain) => judge.any_in(Part::Schema(&domain.get().domain.schema)),
        Item::DomainCheck(check) => domain_check_rests(judge, check.get()),
        Item::Key(key) => key_rests(judge, key.get()),
        Item::Foreign(foreign) => foreign_rests(judge, foreign.get()),
        Item::Check(check) => check_rests(judge, check.get()),
        Item::Assertion(assertion) => {
            let needs = Needs::Listed(&assertion.get().needs);
            judge.owner_meets(&assertion.get().name.schema, needs)
        }
        Item::Routine(routine) => routine_rests(judge, routine.get()),
        Item::RoleAuth(grant) => role_grant_rests(judge, grant.get()),
        Item::RoleAdmin(grant) => {
            role_grant_rests(judge, grant.get()) && has_role_grant(judge, grant.get())
        }
        Item::Held(right) => right_rests(judge, right.get(), false),
        Item::Grantable(right) => {
            right_rests(judge, right.get(), true) && has_held(judge, right.get())
        }
    }
}

/// Whether the items at marked places support an item; the columns of a base table count where they aren't
/// marked, too. It takes no memory.
///
/// It looks up what the item names, and walks from grantees as [`met`](crate::met) does.
pub fn supported(c: &Catalogue, marks: &Marks, walk: &mut Walk, item: &Item) -> bool
    requires room { IsRoomFor walk.old c.now.items }
    requires marks { length marks.now ≡ length c.now.items }
    ensures answer { IsTrue result ↔ Supported c.now.items (marked c.now.items marks.now) item.now }
    ensures room { walk.new ≡ walk.old }
{
    let mut judge = Judge::new(c, Some(marks), walk);
    let answer = is_supported(&mut judge, item);
    judge.end();
    answer
}
