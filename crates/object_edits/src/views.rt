//! CREATE VIEW.

ghost use Rattle.std.specs.Prelude.{◌≡◌, ◌≢◌, ◌∷◌, [], IfOk, length};
ghost use Rattle.sql_tree.specs.declared.statement.Statement.TheVariants as statements;
ghost use Rattle.cat_items.specs.declared.edit.Refusal.TheVariants.{TypeMismatch};
ghost use Rattle.cat_items.specs.Good.{IsGood};
ghost use Rattle.statement_forms.specs.Written.{IsWritten};
ghost use Rattle.edit_rules.specs.First.{HasPassed, IsTested};
ghost use Rattle.edit_laws.specs.Sound.{IsSound};
ghost use Rattle.object_edits.specs.CreatedViews as spec;
ghost use Rattle.statement_steps.specs.Steps.{where_it_is};

use crate::made::items_of;
use cat_items::{Catalogue, Edit, EditError, Need, Refusal, View, Who};
use edit_rules::{object_in, test_new_table, test_schema};
use sql_tree::{CreateView, Items, Name, Object, Query, SqlType};
use statement_steps::{Making, by_names, edit_of, test_names_differ};
use std::alloc::{AllocError, Global};
use view_deps::{Resolved, resolve_query};

/// How many columns have a place.
const PLACES: usize = 4_294_967_295;

/// A view that is to be made. The list of names may be empty.
#[derive(Drop)]
struct NewView<'a> {
    view: Object,
    columns: &'a Items<Name>,
    query: &'a Query,
}

/// The names of the list, else those of the query.
fn names_from<'a>(names: &'a Items<Name>, own: &'a Items<Name>) -> &'a Items<Name>
    ensures { result.now ≡ spec.names_from names.now own.now }
{
    if names.is_empty() { own } else { names }
}

/// Refuses another number of columns than there are names.
fn test_count(names: &Items<Name>, sorts: &Items<SqlType>) -> Result<(), EditError>
    ensures { HasPassed (where_it_is (length names.now ≢ length sorts.now) TypeMismatch ∷ []) result }
{
    if names.len() == sorts.len() {
        return Ok(());
    }
    Err(EditError::Refused(Refusal::TypeMismatch))
}

/// Refuses more columns than there are places.
fn test_places(names: &Items<Name>) -> Result<(), EditError>
    ensures { HasPassed (spec.too_many_places names.now ∷ []) result }
{
    if names.len() > PLACES {
        return Err(EditError::Refused(Refusal::CatalogFull {
            count: 4_294_967_295,
        }));
    }
    Ok(())
}

/// Refuses columns that don't fit.
fn test_columns(names: &Items<Name>, sorts: &Items<SqlType>) -> Result<(), EditError>
    ensures { HasPassed (spec.column_refusals names.now sorts.now) result }
{
    test_count(names, sorts)?;
    test_names_differ(names)?;
    test_places(names)
}

impl<'a> Making for NewView<'a> {
    ghost use Rattle.object_edits.specs.CreatedViews.{creating_view, query_of};
    ghost use Rattle.object_edits.specs.ViewSteps.{HasColumns, IsNamed};

    type Named = Option<Resolved>;

    type Made = Resolved;

    ghost steps = { λ s c who. creating_view c s.view s.columns.now (query_of c who s.query.now) };

    ghost naming = { λ s c who named. IsNamed (query_of c who s.query.now) named };

    ghost making = { λ s c who made. HasColumns s.columns.now (query_of c who s.query.now) made };

    fn test_tree(&self, _alloc: Global, _c: &Catalogue, _who: &Who) -> Result<(), EditError> {
        test_names_differ(self.columns)
    }

    fn names(
        &self,
        alloc: Global,
        c: &Catalogue,
        who: &Who,
    ) -> Result<Option<Resolved>, EditError> {
        test_schema(c, &self.view.schema)?;
        by_names(resolve_query(alloc, c, &who.schema, self.query))
    }

    fn schema(&self, _c: &Catalogue, _who: &Who) -> &Name {
        &self.view.schema
    }

    fn test_taken(&self, _alloc: Global, c: &Catalogue, _who: &Who) -> Result<(), EditError> {
        test_new_table(c, &self.view)
    }

    fn rules(
        &self,
        _alloc: Global,
        _c: &Catalogue,
        _who: &Who,
        named: Option<Resolved>,
    ) -> Result<Resolved, EditError> {
        let Some(resolved) = named else {
            return Err(EditError::Refused(Refusal::TypeMismatch));
        };
        test_columns(names_from(self.columns, &resolved.names), &resolved.sorts)?;
        Ok(resolved)
    }

    fn needs<'b>(&self, _c: &Catalogue, _who: &Who, made: &'b Resolved) -> &'b Items<Need> {
        &made.needs
    }

    fn edit(
        &self,
        alloc: Global,
        _c: &Catalogue,
        _who: &Who,
        made: Resolved,
    ) -> Result<Edit, AllocError> {
        let view = self.view.copy()?;
        let Resolved {
            query,
            names,
            sorts,
            needs,
            base,
            base_columns,
        } = made;
        let view = View {
            view,
            query,
            needs,
            base,
            base_columns,
        };
        let added = items_of(alloc, view, names_from(self.columns, &names), &sorts)?;
        Ok(Edit {
            target: Items::new(alloc),
            changed: Items::new(alloc),
            added,
        })
    }
}

/// What CREATE VIEW adds to a catalogue, or why it is refused (SQL:2003 part 2, 11.22): `Repeated` of a name that comes twice in the list;
/// `UnknownName` of the schema, then `UnknownName` and `Ambiguous` of the query; `NotOwner`; `NameExists`; `TypeMismatch` where the query has
/// no type or another number of columns than the list; `Repeated` of a column; `CatalogFull` of more than 4,294,967,295 columns;
/// `NoPrivilege` of what the query needs. `Memory` is want of memory.
pub fn create_view(
    alloc: Global,
    c: &Catalogue,
    who: &Who,
    parts: &CreateView,
) -> Result<Edit, EditError>
    requires good { IsGood c.now.items }
    requires written { IsWritten (statements.CreateView parts.now) }
    ensures tested { IsTested (spec.create_view_refusals c.now.items who.now parts.now) (spec.IsViewCreation c.now.items who.now parts.now) result }
    ensures sound { IfOk result (IsSound c.now.items) }
{
    let view = NewView {
        view: object_in(&who.schema, &parts.view)?,
        columns: &parts.columns,
        query: &parts.query,
    };
    edit_of(alloc, c, who, &view)
}
