//! Each law stands in the contract of a function that does nothing.

ghost use Rattle.std.specs.Prelude.{◌≡◌, ◌<◌, List, Ok, length};
ghost use Rattle.std.specs.List.{Contains};
ghost use Rattle.sql_names.specs.NameBytes.{NameBytes};
ghost use Rattle.sql_names.specs.declared.sort.SqlType.{SqlType};
ghost use Rattle.sql_tree.specs.declared.expr.Query.{Query};
ghost use Rattle.name_scopes.specs.Known.{Known};
ghost use Rattle.query_types.specs.declared.whole.TypedQuery.{TypedQuery};
ghost use Rattle.query_types.specs.Whole.{resolved_query};
ghost use Rattle.cat_items.specs.declared.item.Item.{Item};
ghost use Rattle.cat_items.specs.Good.{IsGood};
ghost use Rattle.cat_items.specs.Pieces.{AreResolved, IsType, query_pieces};
ghost use Rattle.view_deps.specs.Described.{known_of};
ghost use Rattle.view_deps.specs.Views.{column_names, query_scope};
ghost use Rattle.typed_trees.specs.Typed.{HaveTypes};

/// Where what the catalogue says of names has types, so have the columns of a query of a view that is resolved: the numbers of each are in
/// their ranges. It has a column.
pub fn columns_of_queries_have_types()
    ensures types { (k : Known) (schema : NameBytes) → HaveTypes k → (query : Query) (typed : TypedQuery) → resolved_query k (query_scope schema) query ≡ Ok typed → AreResolved (query_pieces typed.query)
        → (sort : SqlType) → Contains typed.sorts sort → IsType sort }
    ensures some { (query : Query) → AreResolved (query_pieces query) → 0 < length (column_names query) }
{}

/// The columns and the routines of a good catalogue have types.
pub fn good_catalogues_have_types()
    ensures { (c : List Item) → IsGood c → HaveTypes (known_of c) }
{}
