//! Each law stands in the contract of a function that does nothing.

ghost use Rattle.std.specs.Prelude.{◌≡◌, List, Ok};
ghost use Rattle.sql_tree.specs.declared.expr.Expr.{Expr};
ghost use Rattle.sql_tree.specs.declared.expr.Query.{Query};
ghost use Rattle.name_scopes.specs.declared.scope.Scope.{Scope};
ghost use Rattle.name_scopes.specs.Known.{Known};
ghost use Rattle.query_types.specs.declared.whole.TypedExpr.{TypedExpr};
ghost use Rattle.query_types.specs.declared.whole.TypedQuery.{TypedQuery};
ghost use Rattle.query_types.specs.Whole.{resolved_expr, resolved_query};
ghost use Rattle.cat_items.specs.declared.item.Item.{Item};
ghost use Rattle.cat_items.specs.Good.{IsGood};
ghost use Rattle.cat_items.specs.Pieces.{AreFormed, AreResolved, expr_pieces, query_pieces};
ghost use Rattle.view_deps.specs.Described.{known_of};
ghost use Rattle.resolved_trees.specs.Named.{HaveColumns};

/// Where each table has a column, what comes of a query that the grammar gave is resolved: each reference, object and item has its name in
/// full, no star is left, each GROUP BY refers to its own FROM, and texts, numbers, types and lists are of their form still.
pub fn resolved_queries_are_resolved()
    ensures { (k : Known) (scope : Scope) → HaveColumns k → (query : Query) (typed : TypedQuery) → AreFormed (query_pieces query) → resolved_query k scope query ≡ Ok typed → AreResolved (query_pieces typed.query) }
{}

/// The same of an expression.
pub fn resolved_expressions_are_resolved()
    ensures { (k : Known) (scope : Scope) → HaveColumns k → (expr : Expr) (typed : TypedExpr) → AreFormed (expr_pieces expr) → resolved_expr k scope expr ≡ Ok typed → AreResolved (expr_pieces typed.expr) }
{}

/// Each table and view of a good catalogue has a column.
pub fn good_catalogues_have_columns()
    ensures { (c : List Item) → IsGood c → HaveColumns (known_of c) }
{}
