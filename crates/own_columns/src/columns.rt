//! The columns of a table that a condition uses by itself.

ghost use Rattle.std.specs.Prelude.{◌≡◌, ◌↔◌, ◌⊎◌, List, ℕ, Contains, IfOk, OnOk};
ghost use Rattle.sql_names.specs.declared.column.Reference.TheVariants as references;
ghost use Rattle.cat_items.specs.Shape.{AreOwnColumns};
ghost use Rattle.role_graph.specs.Roles.{AreInOrder, AreNames};

use crate::references::put_expr;
use sql_tree::{Expr, Items, Name, Object, Reference};
use std::alloc::{AllocError, Global};

/// Puts in a name at its place in the order, if it isn't there.
fn put_name(names: &mut Vec<Name>, name: &Name) -> Result<(), AllocError>
    requires { AreInOrder names.old.items }
    ensures order { OnOk result (AreInOrder names.new.items) }
    ensures members { OnOk result ((x : List ℕ) → Contains names.new.items x ↔ (Contains names.old.items x ⊎ (x ≡ name.now))) }
{
    if let Err(at) = names.as_slice().binary_search(name) {
        names.insert(at, name.copy()?)?;
    }
    Ok(())
}

/// Puts in the name of a column of this table.
fn put_column(
    names: &mut Vec<Name>,
    table: &Object,
    of: &Object,
    name: &Name,
) -> Result<(), AllocError>
    requires { AreInOrder names.old.items }
    ensures order { OnOk result (AreInOrder names.new.items) }
    ensures members { OnOk result ((x : List ℕ) → Contains names.new.items x ↔ (Contains names.old.items x ⊎ (references.Own of.now name.now ≡ references.Own table.now x))) }
{
    if !of.same(table) {
        return Ok(());
    }
    put_name(names, name)?;
    Ok(())
}

/// Puts in the column that a reference names, where it is an own one of this table.
fn put_own(names: &mut Vec<Name>, table: &Object, reference: &Reference) -> Result<(), AllocError>
    requires { AreInOrder names.old.items }
    ensures order { OnOk result (AreInOrder names.new.items) }
    ensures members { OnOk result ((x : List ℕ) → Contains names.new.items x ↔ (Contains names.old.items x ⊎ (reference.now ≡ references.Own table.now x))) }
{
    match reference {
        Reference::Own { table: of, name } => put_column(names, table, of, name),
        Reference::Unqualified(_) => Ok(()),
        Reference::Qualified { .. } => Ok(()),
        Reference::Cell { .. } => Ok(()),
        Reference::Param { .. } => Ok(()),
    }
}

/// The columns of this table among references, in order.
fn names_of(alloc: Global, table: &Object, all: &[Reference]) -> Result<Items<Name>, AllocError>
    ensures { IfOk result (λ names. AreNames names (λ x. Contains all.now (references.Own table.now x))) }
{
    let mut names = Vec::new(alloc);
    for reference in all {
        put_own(&mut names, table, reference)?;
    }
    Ok(Items::from_vec(names))
}

/// The columns of this table that a condition uses by itself, at any depth: not those that it uses through a FROM of the table. In order, each
/// once. `Err` is want of memory.
pub fn own_columns(
    alloc: Global,
    table: &Object,
    condition: &Expr,
) -> Result<Items<Name>, AllocError>
    ensures { IfOk result (AreOwnColumns table.now condition.now) }
{
    let mut all = Items::new(alloc);
    put_expr(&mut all, condition)?;
    let names = names_of(alloc, table, all.as_slice())?;
    Ok(names)
}
