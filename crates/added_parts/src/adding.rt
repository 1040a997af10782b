//! What the items that an edit adds name and need.

ghost use Rattle.std.specs.Prelude.{◌≡◌, ◌↔◌, All, IfOk, IsTrue};
ghost use Rattle.std.specs.List.{Contains};
ghost use Rattle.cat_items.specs.declared.item.Item.TheVariants as item;
ghost use Rattle.cat_items.specs.Catalogues.{IsInOrder};
ghost use Rattle.added_parts.specs.Extended.{items_of, PartsStandIn};
ghost use Rattle.added_parts.specs.Parts.{AllStand, AuthStands, ConstraintStands, DomainStands, GrantorStands, RightStands, RoleGrantStands, SchemaAndNeedsStand};

use crate::extended::Extended;
use cat_items::{
    Assertion, Auth, Catalogue, Check, Column, DomainCheck, Edit, Foreign, Item, Key, Need, Right,
    RoleGrant, Routine, Shared, View,
};
use sql_tree::{Items, Name, Object};
use std::alloc::{AllocError, Global};

impl Extended<'_> {
    /// Whether a user or a role stands, where one is named.
    fn auth_stands(&self, auth: &Auth) -> bool
        ensures { IsTrue result ↔ AuthStands (items_of self.now) auth.now }
    {
        match auth {
            Auth::Named(name) => self.has_authorization(name),
            _ => true,
        }
    }

    /// Whether who grants a right isn't the system, and stands where one is named.
    fn grantor_stands(&self, grantor: &Auth) -> bool
        ensures { IsTrue result ↔ GrantorStands (items_of self.now) grantor.now }
    {
        match grantor {
            Auth::System => false,
            _ => self.auth_stands(grantor),
        }
    }

    /// Whether the domain stands, where there is one.
    fn domain_stands(&self, domain: &Option<Object>) -> bool
        ensures { IsTrue result ↔ DomainStands (items_of self.now) domain.now }
    {
        match domain {
            None => true,
            Some(domain) => self.has_domain(domain.into()),
        }
    }

    /// Whether a schema stands, and what is needed.
    fn schema_and_needs_stand(&self, schema: &Name, needs: &Items<Need>) -> bool
        ensures { IsTrue result ↔ SchemaAndNeedsStand (items_of self.now) schema.now needs.now }
    {
        self.has_schema(schema) && self.each_stands(needs)
    }

    /// Whether the schema of a constraint stands, its base table, and these columns of that.
    fn constraint_stands(&self, name: &Object, table: &Object, columns: &Items<Name>) -> bool
        ensures { IsTrue result ↔ ConstraintStands (items_of self.now) name.now table.now columns.now }
    {
        self.has_schema(&name.schema)
            && self.has_base_table(table)
            && self.has_columns(table, columns)
    }

    fn table_stands(&self, table: &Object) -> bool
        ensures { IsTrue result ↔ PartsStandIn self.now (item.Table table.now) }
    {
        self.has_schema(&table.schema) && self.has_new_columns(table)
    }

    fn view_stands(&self, view: &View) -> bool
        ensures { IsTrue result ↔ PartsStandIn self.now (item.View view.now) }
    {
        self.schema_and_needs_stand(&view.view.schema, &view.needs)
    }

    fn column_stands(&self, column: &Column) -> bool
        ensures { IsTrue result ↔ PartsStandIn self.now (item.Column column.now) }
    {
        self.has_schema(&column.table.schema)
            && self.has_table((&column.table).into())
            && self.domain_stands(&column.domain)
    }

    fn domain_check_stands(&self, check: &DomainCheck) -> bool
        ensures { IsTrue result ↔ PartsStandIn self.now (item.DomainCheck check.now) }
    {
        self.has_domain((&check.domain).into())
            && self.schema_and_needs_stand(&check.name.schema, &check.needs)
    }

    fn key_stands(&self, key: &Key) -> bool
        ensures { IsTrue result ↔ PartsStandIn self.now (item.Key key.now) }
    {
        self.constraint_stands(&key.name, &key.table, &key.columns)
    }

    fn foreign_stands(&self, key: &Foreign) -> bool
        ensures { IsTrue result ↔ PartsStandIn self.now (item.Foreign key.now) }
    {
        self.constraint_stands(&key.name, &key.table, &key.columns)
            && self.has_base_table(&key.target)
            && self.has_columns(&key.target, &key.target_columns)
            && self.has_key(&key.key)
    }

    fn check_stands(&self, check: &Check) -> bool
        ensures { IsTrue result ↔ PartsStandIn self.now (item.Check check.now) }
    {
        self.constraint_stands(&check.name, &check.table, &check.columns)
            && self.each_stands(&check.needs)
    }

    fn assertion_stands(&self, assertion: &Assertion) -> bool
        ensures { IsTrue result ↔ PartsStandIn self.now (item.Assertion assertion.now) }
    {
        self.schema_and_needs_stand(&assertion.name.schema, &assertion.needs)
    }

    fn routine_stands(&self, routine: &Routine) -> bool
        ensures { IsTrue result ↔ PartsStandIn self.now (item.Routine routine.now) }
    {
        self.schema_and_needs_stand(&routine.routine.schema, &routine.needs)
    }

    fn role_grant_stands(&self, grant: &RoleGrant) -> bool
        ensures { IsTrue result ↔ RoleGrantStands (items_of self.now) grant.now }
    {
        self.has_role(&grant.role)
            && self.has_authorization(&grant.grantee)
            && self.auth_stands(&grant.grantor)
    }

    fn right_stands(&self, right: &Right) -> bool
        ensures { IsTrue result ↔ RightStands (items_of self.now) right.now }
    {
        self.stands((&right.need).into())
            && self.has_first_schema(&right.need.on)
            && self.auth_stands(&right.grantee)
            && self.grantor_stands(&right.grantor)
    }

    /// Whether the role authorization of these fields stands.
    fn has_role_auth(&self, grant: &Shared<RoleGrant>) -> Result<bool, AllocError>
        ensures { IfOk result (λ has. IsTrue has ↔ Contains (items_of self.now) (item.RoleAuth grant.now)) }
    {
        let without = Item::RoleAuth(grant.share()?);
        Ok(self.has_item(&without))
    }

    /// Whether the right of these fields stands.
    fn has_held(&self, right: &Shared<Right>) -> Result<bool, AllocError>
        ensures { IfOk result (λ has. IsTrue has ↔ Contains (items_of self.now) (item.Held right.now)) }
    {
        let without = Item::Held(right.share()?);
        Ok(self.has_item(&without))
    }

    fn admin_stands(&self, grant: &Shared<RoleGrant>) -> Result<bool, AllocError>
        ensures { IfOk result (λ all. IsTrue all ↔ PartsStandIn self.now (item.RoleAdmin grant.now)) }
    {
        if !self.role_grant_stands(grant.get()) {
            return Ok(false);
        }
        self.has_role_auth(grant)
    }

    fn grantable_stands(&self, right: &Shared<Right>) -> Result<bool, AllocError>
        ensures { IfOk result (λ all. IsTrue all ↔ PartsStandIn self.now (item.Grantable right.now)) }
    {
        if !self.right_stands(right.get()) {
            return Ok(false);
        }
        self.has_held(right)
    }

    /// Whether all that an item names and needs stands. `Err` is the end of a count of owners.
    fn parts_stand(&self, x: &Item) -> Result<bool, AllocError>
        ensures { IfOk result (λ all. IsTrue all ↔ PartsStandIn self.now x.now) }
    {
        match x {
            Item::User(_) | Item::Role(_) => Ok(true),
            Item::Schema(schema) => Ok(self.has_authorization(&schema.get().owner)),
            Item::Table(table) => Ok(self.table_stands(table.get())),
            Item::View(view) => Ok(self.view_stands(view.get())),
            Item::Column(column) => Ok(self.column_stands(column.get())),
            Item::Domain(domain) => Ok(self.has_schema(&domain.get().domain.schema)),
            Item::DomainCheck(check) => Ok(self.domain_check_stands(check.get())),
            Item::Key(key) => Ok(self.key_stands(key.get())),
            Item::Foreign(key) => Ok(self.foreign_stands(key.get())),
            Item::Check(check) => Ok(self.check_stands(check.get())),
            Item::Assertion(assertion) => Ok(self.assertion_stands(assertion.get())),
            Item::Routine(routine) => Ok(self.routine_stands(routine.get())),
            Item::RoleAuth(grant) => Ok(self.role_grant_stands(grant.get())),
            Item::RoleAdmin(grant) => self.admin_stands(grant),
            Item::Held(right) => Ok(self.right_stands(right.get())),
            Item::Grantable(right) => self.grantable_stands(right),
        }
    }
}

/// Copies of all these items.
fn copies(alloc: Global, items: &[Item]) -> Result<Vec<Item>, AllocError>
    ensures { IfOk result (λ copies. copies.items ≡ items.now) }
{
    let mut copies = Vec::with_capacity(alloc, items.len())?;
    for x in items {
        copies.push(x.copy()?)?;
    }
    Ok(copies)
}

/// Whether all that these items name and need stands.
fn each_of(extended: &Extended<'_>, items: &[Item]) -> Result<bool, AllocError>
    ensures { IfOk result (λ all. IsTrue all ↔ All (PartsStandIn extended.now) items.now) }
{
    for x in items {
        if !extended.parts_stand(x)? {
            return Ok(false);
        }
    }
    Ok(true)
}

/// Whether all that the added items of an edit name and need stands, in the catalogue or among the added ones. What is
/// named is searched for in the order of the two, while the columns of a table are looked at in turn. `Err` is want of memory.
pub fn all_stand(alloc: Global, c: &Catalogue, edit: &Edit) -> Result<bool, AllocError>
    requires { IsInOrder edit.now.added }
    ensures { IfOk result (λ all. IsTrue all ↔ AllStand c.now.items edit.now.added) }
{
    let added = Catalogue::of_sorted(copies(alloc, edit.added.as_slice())?);
    let extended = Extended {
        old: c,
        added: &added,
    };
    each_of(&extended, added.items())
}
