//! Trees that are made of their parts.

ghost use Rattle.std.specs.Prelude.{◌≡◌, Some, IfOk};
ghost use Rattle.sql_tree.specs.declared.expr.Chain.{roll-Chain};
ghost use Rattle.sql_tree.specs.declared.expr.Expr.{roll-Expr};
ghost use Rattle.sql_tree.specs.declared.expr.Operand.TheVariants as operands;
ghost use Rattle.sql_tree.specs.declared.expr.Query.{roll-Query};
ghost use Rattle.sql_tree.specs.declared.expr.Select.{out-Select, roll-Select};
ghost use Rattle.sql_tree.specs.declared.expr.SelectItem.TheVariants as items;

use sql_names::{
    Boxed, EqualCopy, Items, Name, ObjectName, Shared, TableReference, copy_optional_name,
};
use sql_tree::{
    Chain, Conjunction, Expr, Further, Join, Operand, Query, Select, SelectItem, SelectList, Tail,
};
use std::alloc::{AllocError, Global};

/// The expression of these conjunctions.
pub fn make_expr(alloc: Global, any: Items<Conjunction>) -> Result<Expr, AllocError>
    ensures { IfOk result (λ made. made ≡ roll-Expr (record { any = any })) }
{
    Ok(Expr {
        any: Shared::new(alloc, any)?,
    })
}

/// The query of these SELECTs.
pub fn make_query(alloc: Global, first: Select, others: Items<Further>) -> Result<Query, AllocError>
    ensures { IfOk result (λ made. made ≡ roll-Query (record { first = first; others = others })) }
{
    Ok(Query {
        first: Shared::new(alloc, first)?,
        others: Shared::new(alloc, others)?,
    })
}

/// A SELECT as another one, of these parts.
pub fn make_select(
    alloc: Global,
    of: &Select,
    list: SelectList,
    from: Items<Chain>,
    filter: Option<Expr>,
) -> Result<Select, AllocError>
    ensures { IfOk result (λ made. made ≡ roll-Select (record { distinct = (out-Select of.now).distinct; list = list; from = from; filter = filter; group_by = (out-Select of.now).group_by })) }
{
    Ok(Select {
        distinct: of.distinct,
        list,
        from,
        filter,
        group_by: of.group_by.equal_copy(alloc)?,
    })
}

/// A call with these arguments.
pub fn make_call(routine: &ObjectName, arguments: Items<Expr>) -> Result<Operand, AllocError>
    ensures { IfOk result (λ made. made ≡ operands.Call routine.now arguments) }
{
    Ok(Operand::Call {
        routine: routine.copy()?,
        arguments,
    })
}

pub fn make_exists(alloc: Global, query: Query) -> Result<Operand, AllocError>
    ensures { IfOk result (λ made. made ≡ operands.Exists query) }
{
    Ok(Operand::Exists(Boxed::new(alloc, query)?))
}

pub fn make_subquery(alloc: Global, query: Query) -> Result<Operand, AllocError>
    ensures { IfOk result (λ made. made ≡ operands.Subquery query) }
{
    Ok(Operand::Subquery(Boxed::new(alloc, query)?))
}

pub fn some_tail(alloc: Global, tail: Tail) -> Result<Option<Boxed<Tail>>, AllocError>
    ensures { IfOk result (λ made. made ≡ Some tail) }
{
    Ok(Some(Boxed::new(alloc, tail)?))
}

/// A select item of this name.
pub fn make_item(expr: Expr, name: &Option<Name>) -> Result<SelectItem, AllocError>
    ensures { IfOk result (λ made. made ≡ items.Expr expr name.now) }
{
    Ok(SelectItem::Expr {
        expr,
        name: copy_optional_name(name)?,
    })
}

/// A table of a FROM with these tables joined to it.
pub fn make_chain(first: &TableReference, joins: Items<Join>) -> Result<Chain, AllocError>
    ensures { IfOk result (λ made. made ≡ roll-Chain (record { first = first.now; joins = joins })) }
{
    Ok(Chain {
        first: first.copy()?,
        joins,
    })
}
