//! What stands: by the items that count.

ghost use Rattle.std.specs.Prelude.{◌≡◌, ◌↔◌, ◌∷◌, [], ℕ, List, All, length, IsTrue, IfSome, IfNone};
ghost use Rattle.std.specs.Option.{option_copied};
ghost use Rattle.sql_names.specs.declared.object.Object.{Object};
ghost use Rattle.cat_items.specs.Keys.{object_of, path_in, need_of};
ghost use Rattle.cat_items.specs.Reach.{Has};
ghost use Rattle.cat_items.specs.Rights.{path_of, IsAuthorization, IsTable, IsDomain, IsRoutine, IsColumn, IsObject, HasColumn, Stands};
ghost use Rattle.cat_items.specs.Supported.{HasColumns};
ghost use Rattle.role_graph.specs.Judges.{counting};

use crate::judge::{Judge, Matches};
use cat_items::{Item, Need, NeedKey, ObjectKey, Part, PathKey};
use sql_tree::{Action, Items, Name, Object};

/// The object of a path: an object's path has two names.
pub fn object_at(on: PathKey<'_>) -> Option<ObjectKey<'_>>
    ensures found { IfSome result (λ key. path_of (object_of key) ≡ path_in on.entry) }
    ensures none { IfNone result ((o : Object) → path_of o ≡ path_in on.entry → ⊥) }
{
    match on {
        PathKey::Object(key) => Some(key),
        PathKey::Path(path) => match (path.get(0), path.get(1), path.get(2)) {
            (Some(schema), Some(name), None) => Some(ObjectKey { schema, name }),
            _ => None,
        },
    }
}

/// The role of a path: a role's path has one name.
pub fn role_at(on: PathKey<'_>) -> Option<&Name>
    ensures found { IfSome result (λ role. role.now ∷ [] ≡ path_in on.entry) }
    ensures none { IfNone result ((role : List ℕ) → role ∷ [] ≡ path_in on.entry → ⊥) }
{
    match on {
        PathKey::Object(_) => None,
        PathKey::Path(path) => match (path.get(0), path.get(1)) {
            (Some(role), None) => Some(role),
            _ => None,
        },
    }
}

/// A column of this name.
#[derive(Drop)]
struct ColumnNamed<'a> {
    name: &'a Name,
}

impl<'a> Matches for ColumnNamed<'a> {
    ghost use Rattle.role_graph.specs.Loops.{IsColumnNamed};

    ghost fits = { λ t x. IsColumnNamed t.name.now x };

    fn matches(&self, x: &Item) -> bool {
        match x {
            Item::Column(column) => column.get().name.same(self.name),
            _ => false,
        }
    }
}

impl Judge<'_> {
    /// Whether a user or a role of this name counts.
    pub fn authorization_stands(&self, name: &Name) -> bool
        ensures { IsTrue result ↔ Has (counting self.now) (IsAuthorization name.now) }
    {
        self.any_in(Part::User(name)) || self.any_in(Part::Role(name))
    }

    /// Whether a base table or a view of this name counts.
    pub fn table_stands(&self, object: ObjectKey<'_>) -> bool
        ensures { IsTrue result ↔ Has (counting self.now) (IsTable (path_of (object_of object.entry))) }
    {
        self.any_in(Part::Table(object)) || self.any_in(Part::View(object))
    }

    /// Whether a domain of this name counts.
    pub fn domain_stands(&self, object: ObjectKey<'_>) -> bool
        ensures { IsTrue result ↔ Has (counting self.now) (IsDomain (path_of (object_of object.entry))) }
    {
        self.any_in(Part::Domain(object))
    }

    /// Whether a routine of this name counts.
    fn routine_stands(&self, object: ObjectKey<'_>) -> bool
        ensures { IsTrue result ↔ Has (counting self.now) (IsRoutine (path_of (object_of object.entry))) }
    {
        self.any_in(Part::Routine(object))
    }

    /// Whether the object of such an action counts.
    fn object_stands(&self, action: Action, object: ObjectKey<'_>) -> bool
        ensures { IsTrue result ↔ Has (counting self.now) (IsObject action (path_of (object_of object.entry))) }
    {
        match action {
            Action::Usage => self.domain_stands(object),
            Action::Execute => self.routine_stands(object),
            Action::Admin => false,
            _ => self.table_stands(object),
        }
    }

    /// Whether a column of this name of the table or view counts.
    pub fn has_column(&self, object: ObjectKey<'_>, name: &Name) -> bool
        ensures { IsTrue result ↔ Has (counting self.now) (IsColumn (path_of (object_of object.entry)) name.now) }
    {
        self.any_match(Part::Columns(object), &ColumnNamed { name })
    }

    /// Whether the column counts, where there is one.
    fn column_stands(&self, object: ObjectKey<'_>, column: Option<&Name>) -> bool
        ensures { IsTrue result ↔ HasColumn (counting self.now) (path_of (object_of object.entry)) (option_copied column.entry) }
    {
        match column {
            None => true,
            Some(name) => self.has_column(object, name),
        }
    }

    /// Whether a need's object counts, and its column where it names one.
    pub fn stands(&self, need: NeedKey<'_>) -> bool
        ensures { IsTrue result ↔ Stands (counting self.now) (need_of need.entry) }
    {
        match object_at(need.on) {
            None => false,
            Some(object) => {
                self.object_stands(need.action, object) && self.column_stands(object, need.column)
            }
        }
    }

    /// Whether the objects of all these needs count.
    pub fn all_stand(&self, needs: &Items<Need>) -> bool
        ensures { IsTrue result ↔ All (Stands (counting self.now)) needs.now }
    {
        for need in needs.as_slice() {
            if !self.stands(need.into()) {
                return false;
            }
        }
        true
    }

    /// Whether each of these columns of a table counts.
    pub fn has_columns(&self, table: &Object, columns: &Items<Name>) -> bool
        ensures { IsTrue result ↔ HasColumns (counting self.now) table.now columns.now }
    {
        for name in columns.as_slice() {
            if !self.has_column(table.into(), name) {
                return false;
            }
        }
        true
    }
}
