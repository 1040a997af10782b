//! A law over definitions alone: it stands in the contract of a function that does nothing.

ghost use Rattle.sql_names.specs.NameBytes.{NameBytes};
ghost use Rattle.sql_names.specs.declared.object.Object.{Object};
ghost use Rattle.sql_tree.specs.declared.expr.Expr.{Expr};
ghost use Rattle.cat_items.specs.Pieces.{AreResolved, expr_pieces};
ghost use Rattle.value_columns.specs.Replaced.{with_column};

/// A resolved condition of a domain is resolved as one of a column.
pub fn replaced_conditions_are_resolved()
    ensures { (table : Object) (column : NameBytes) (condition : Expr) → AreResolved (expr_pieces condition) → AreResolved (expr_pieces (with_column table column condition)) }
{}
