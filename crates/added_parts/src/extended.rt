//! What stands in a catalogue or is added to it.

ghost use Rattle.std.specs.Prelude.{◌↔◌, All, IsTrue};
ghost use Rattle.std.specs.List.{Contains};
ghost use Rattle.std.specs.Option.{option_copied};
ghost use Rattle.cat_items.specs.Keys.{need_of, object_of};
ghost use Rattle.cat_items.specs.Ranges.{IsIn};
ghost use Rattle.cat_items.specs.Reach.{Has};
ghost use Rattle.cat_items.specs.Relevant.{IsFirstSchema};
ghost use Rattle.cat_items.specs.Rights.{path_of, HasColumn, IsAuthorization, IsBaseTable, IsColumn, IsDomain, IsObject, IsRole, IsRoutine, IsSchema, IsTable, Stands};
ghost use Rattle.cat_items.specs.Supported.{HasColumns, IsKey};
ghost use Rattle.edit_rules.specs.Chosen.{IsRightOrRoleGrant};
ghost use Rattle.role_graph.specs.Loops.{IsColumnNamed};
ghost use Rattle.added_parts.specs.Extended.{items_of};
ghost use Rattle.added_parts.specs.Parts.{HasNewColumns};

use cat_items::{Catalogue, Item, Need, NeedKey, ObjectKey, Part, find, places};
use role_graph::object_at;
use sql_tree::{Action, Items, Name, Object, Path};

/// A catalogue, and copies of the items that are added to it.
#[derive(Drop)]
pub struct Extended<'a> {
    pub old: &'a Catalogue,
    pub added: &'a Catalogue,
}

/// Whether an item is in this part.
fn any_in(c: &Catalogue, part: Part<'_>) -> bool
    ensures { IsTrue result ↔ Has c.now.items (IsIn part.entry) }
{
    !places(c, part).is_empty()
}

/// Whether an item is a column of this name.
fn is_named(x: &Item, name: &Name) -> bool
    ensures { IsTrue result ↔ IsColumnNamed name.now x.now }
{
    match x {
        Item::Column(column) => column.get().name.same(name),
        _ => false,
    }
}

/// Whether a table or a view has a column of this name.
fn any_column(c: &Catalogue, table: ObjectKey<'_>, name: &Name) -> bool
    ensures { IsTrue result ↔ Has c.now.items (IsColumn (path_of (object_of table.entry)) name.now) }
{
    let items = c.items();
    let all = places(c, Part::Columns(table));
    for at in all.start..all.end {
        if is_named(&items[at], name) {
            return true;
        }
    }
    false
}

/// Whether a right or a role authorization is there.
fn is_there(c: &Catalogue, x: &Item) -> bool
    requires { IsRightOrRoleGrant x.now }
    ensures { IsTrue result ↔ Contains c.now.items x.now }
{
    find(c, x).is_some()
}

impl Extended<'_> {
    /// Whether an item in this part stands.
    fn has(&self, part: Part<'_>) -> bool
        ensures { IsTrue result ↔ Has (items_of self.now) (IsIn part.entry) }
    {
        any_in(self.old, part) || any_in(self.added, part)
    }

    /// Whether a right or a role authorization stands.
    pub fn has_item(&self, x: &Item) -> bool
        requires { IsRightOrRoleGrant x.now }
        ensures { IsTrue result ↔ Contains (items_of self.now) x.now }
    {
        is_there(self.old, x) || is_there(self.added, x)
    }

    /// Whether a user or a role of this name stands.
    pub fn has_authorization(&self, name: &Name) -> bool
        ensures { IsTrue result ↔ Has (items_of self.now) (IsAuthorization name.now) }
    {
        self.has(Part::User(name)) || self.has(Part::Role(name))
    }

    /// Whether a role of this name stands.
    pub fn has_role(&self, name: &Name) -> bool
        ensures { IsTrue result ↔ Has (items_of self.now) (IsRole name.now) }
    {
        self.has(Part::Role(name))
    }

    /// Whether a schema of this name stands.
    pub fn has_schema(&self, name: &Name) -> bool
        ensures { IsTrue result ↔ Has (items_of self.now) (IsSchema name.now) }
    {
        self.has(Part::Schema(name))
    }

    /// Whether the schema stands that a path begins with.
    pub fn has_first_schema(&self, path: &Path) -> bool
        ensures { IsTrue result ↔ Has (items_of self.now) (IsFirstSchema path.now) }
    {
        match path.get(0) {
            Some(schema) => self.has_schema(schema),
            None => false,
        }
    }

    /// Whether a base table of this name stands.
    pub fn has_base_table(&self, table: &Object) -> bool
        ensures { IsTrue result ↔ Has (items_of self.now) (IsBaseTable table.now) }
    {
        self.has(Part::Table(table.into()))
    }

    /// Whether a base table or a view of this name stands.
    pub fn has_table(&self, table: ObjectKey<'_>) -> bool
        ensures { IsTrue result ↔ Has (items_of self.now) (IsTable (path_of (object_of table.entry))) }
    {
        self.has(Part::Table(table)) || self.has(Part::View(table))
    }

    /// Whether a domain of this name stands.
    pub fn has_domain(&self, domain: ObjectKey<'_>) -> bool
        ensures { IsTrue result ↔ Has (items_of self.now) (IsDomain (path_of (object_of domain.entry))) }
    {
        self.has(Part::Domain(domain))
    }

    /// Whether a routine of this name stands.
    fn has_routine(&self, routine: ObjectKey<'_>) -> bool
        ensures { IsTrue result ↔ Has (items_of self.now) (IsRoutine (path_of (object_of routine.entry))) }
    {
        self.has(Part::Routine(routine))
    }

    /// Whether a PRIMARY KEY or UNIQUE constraint of this name stands.
    pub fn has_key(&self, key: &Object) -> bool
        ensures { IsTrue result ↔ Has (items_of self.now) (IsKey key.now) }
    {
        self.has(Part::Key(key.into()))
    }

    /// Whether a table is to have columns, and has none in the catalogue.
    pub fn has_new_columns(&self, table: &Object) -> bool
        ensures { IsTrue result ↔ HasNewColumns self.now.old.now.items (items_of self.now) table.now }
    {
        self.has(Part::Columns(table.into())) && !any_in(self.old, Part::Columns(table.into()))
    }

    /// Whether the object of such an action stands.
    fn has_object(&self, action: Action, object: ObjectKey<'_>) -> bool
        ensures { IsTrue result ↔ Has (items_of self.now) (IsObject action (path_of (object_of object.entry))) }
    {
        match action {
            Action::Usage => self.has_domain(object),
            Action::Execute => self.has_routine(object),
            Action::Admin => false,
            _ => self.has_table(object),
        }
    }

    /// Whether a column of this name of the table or view stands.
    fn has_column(&self, table: ObjectKey<'_>, name: &Name) -> bool
        ensures { IsTrue result ↔ Has (items_of self.now) (IsColumn (path_of (object_of table.entry)) name.now) }
    {
        any_column(self.old, table, name) || any_column(self.added, table, name)
    }

    /// Whether the column stands, where there is one.
    fn has_column_named(&self, table: ObjectKey<'_>, column: Option<&Name>) -> bool
        ensures { IsTrue result ↔ HasColumn (items_of self.now) (path_of (object_of table.entry)) (option_copied column.entry) }
    {
        match column {
            None => true,
            Some(name) => self.has_column(table, name),
        }
    }

    /// Whether a need's object stands, and its column where it names one.
    pub fn stands(&self, need: NeedKey<'_>) -> bool
        ensures { IsTrue result ↔ Stands (items_of self.now) (need_of need.entry) }
    {
        match object_at(need.on) {
            None => false,
            Some(object) => {
                self.has_object(need.action, object) && self.has_column_named(object, need.column)
            }
        }
    }

    /// Whether the objects and columns of all these needs stand.
    pub fn each_stands(&self, needs: &Items<Need>) -> bool
        ensures { IsTrue result ↔ All (Stands (items_of self.now)) needs.now }
    {
        for need in needs.as_slice() {
            if !self.stands(need.into()) {
                return false;
            }
        }
        true
    }

    /// Whether each of these columns of a table stands.
    pub fn has_columns(&self, table: &Object, columns: &Items<Name>) -> bool
        ensures { IsTrue result ↔ HasColumns (items_of self.now) table.now columns.now }
    {
        for name in columns.as_slice() {
            if !self.has_column(table.into(), name) {
                return false;
            }
        }
        true
    }
}
