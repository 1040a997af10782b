//! A law that stands in the contract of a function that does nothing.

ghost use Rattle.std.specs.Prelude.{◌≡◌, ◌↔◌, List, Some};
ghost use Rattle.cat_items.specs.declared.item.Item.{Item};
ghost use Rattle.sql_tree.specs.declared.statement.InfoQuery.{InfoQuery};
ghost use Rattle.schema_tables.specs.Cells.{Row};
ghost use Rattle.schema_tables.specs.Shown.{Shown};
ghost use Rattle.schema_tables.specs.Sight.{Session, IsShown};
ghost use Rattle.information_schema.specs.Answers.{IsAnswer};

/// Where the same is shown of two catalogues to two sessions, each query has the same answer; its refusals depend on the query alone.
pub fn answers_alike()
    ensures { (c d : List Item) (s t : Session) (q : InfoQuery) (rows others : List Row) → ((x : Shown) → IsShown c (Some s) x ↔ IsShown d (Some t) x) → IsAnswer c s q rows → IsAnswer d t q others → rows ≡ others }
{}
