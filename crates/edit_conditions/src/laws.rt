//! A law over definitions alone: it stands in the contract of a function that does nothing.

ghost use Rattle.std.specs.Prelude.{◌≡◌, List, Ok};
ghost use Rattle.sql_tree.specs.declared.expr.Expr.{Expr};
ghost use Rattle.cat_items.specs.declared.item.Item.{Item};
ghost use Rattle.cat_items.specs.Good.{IsGood};
ghost use Rattle.cat_items.specs.Pieces.{AreFormed, AreResolved, expr_pieces};
ghost use Rattle.name_scopes.specs.declared.scope.Scope.{Scope};
ghost use Rattle.query_types.specs.declared.whole.TypedExpr.{TypedExpr};
ghost use Rattle.edit_conditions.specs.Conditions.{outcome_in};

/// What a condition that the grammar gave comes to over a good catalogue is resolved.
pub fn conditions_are_resolved()
    ensures { (c : List Item) (scope : Scope) (condition : Expr) (typed : TypedExpr) → IsGood c → AreFormed (expr_pieces condition) → outcome_in c scope condition ≡ Ok typed → AreResolved (expr_pieces typed.expr) }
{}
