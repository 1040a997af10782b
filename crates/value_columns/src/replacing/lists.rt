//! VALUE replaced in lists of parts, and in parts that may be absent.

ghost use Rattle.std.specs.Prelude.{◌≡◌, map, option_map, IfOk};
ghost use Rattle.value_columns.specs.Replaced as spec;

use crate::making::some_tail;
use crate::replacing::{
    replace_added, replace_arm, replace_chain, replace_conjunction, replace_expr, replace_further,
    replace_join, replace_multiplied, replace_negation, replace_select_item, replace_tail,
};
use sql_names::{Boxed, Items, Reference};
use sql_tree::{
    Added, Arm, Chain, Conjunction, Expr, Further, Join, Multiplied, Negation, SelectItem, Tail,
};
use std::alloc::{AllocError, Global};

#[cycle(replace)]
pub fn replace_conjunctions(
    alloc: Global,
    by: &Reference,
    all: &[Conjunction],
) -> Result<Items<Conjunction>, AllocError>
    ensures { IfOk result (λ out. out ≡ map (spec.replaced_conjunction by.now) all.now) }
{
    let mut out = Items::new(alloc);
    for one in all {
        out.push(replace_conjunction(alloc, by, one)?)?;
    }
    Ok(out)
}

#[cycle(replace)]
pub fn replace_negations(
    alloc: Global,
    by: &Reference,
    all: &[Negation],
) -> Result<Items<Negation>, AllocError>
    ensures { IfOk result (λ out. out ≡ map (spec.replaced_negation by.now) all.now) }
{
    let mut out = Items::new(alloc);
    for one in all {
        out.push(replace_negation(alloc, by, one)?)?;
    }
    Ok(out)
}

#[cycle(replace)]
pub fn replace_added_terms(
    alloc: Global,
    by: &Reference,
    all: &[Added],
) -> Result<Items<Added>, AllocError>
    ensures { IfOk result (λ out. out ≡ map (spec.replaced_added by.now) all.now) }
{
    let mut out = Items::new(alloc);
    for one in all {
        out.push(replace_added(alloc, by, one)?)?;
    }
    Ok(out)
}

#[cycle(replace)]
pub fn replace_multiplied_factors(
    alloc: Global,
    by: &Reference,
    all: &[Multiplied],
) -> Result<Items<Multiplied>, AllocError>
    ensures { IfOk result (λ out. out ≡ map (spec.replaced_multiplied by.now) all.now) }
{
    let mut out = Items::new(alloc);
    for one in all {
        out.push(replace_multiplied(alloc, by, one)?)?;
    }
    Ok(out)
}

#[cycle(replace)]
pub fn replace_exprs(alloc: Global, by: &Reference, all: &[Expr]) -> Result<Items<Expr>, AllocError>
    ensures { IfOk result (λ out. out ≡ map (spec.replaced_expr by.now) all.now) }
{
    let mut out = Items::new(alloc);
    for one in all {
        out.push(replace_expr(alloc, by, one)?)?;
    }
    Ok(out)
}

#[cycle(replace)]
pub fn replace_arms(alloc: Global, by: &Reference, all: &[Arm]) -> Result<Items<Arm>, AllocError>
    ensures { IfOk result (λ out. out ≡ map (spec.replaced_arm by.now) all.now) }
{
    let mut out = Items::new(alloc);
    for one in all {
        out.push(replace_arm(alloc, by, one)?)?;
    }
    Ok(out)
}

#[cycle(replace)]
pub fn replace_further_selects(
    alloc: Global,
    by: &Reference,
    all: &[Further],
) -> Result<Items<Further>, AllocError>
    ensures { IfOk result (λ out. out ≡ map (spec.replaced_further by.now) all.now) }
{
    let mut out = Items::new(alloc);
    for one in all {
        out.push(replace_further(alloc, by, one)?)?;
    }
    Ok(out)
}

#[cycle(replace)]
pub fn replace_select_items(
    alloc: Global,
    by: &Reference,
    all: &[SelectItem],
) -> Result<Items<SelectItem>, AllocError>
    ensures { IfOk result (λ out. out ≡ map (spec.replaced_select_item by.now) all.now) }
{
    let mut out = Items::new(alloc);
    for one in all {
        out.push(replace_select_item(alloc, by, one)?)?;
    }
    Ok(out)
}

#[cycle(replace)]
pub fn replace_chains(
    alloc: Global,
    by: &Reference,
    all: &[Chain],
) -> Result<Items<Chain>, AllocError>
    ensures { IfOk result (λ out. out ≡ map (spec.replaced_chain by.now) all.now) }
{
    let mut out = Items::new(alloc);
    for one in all {
        out.push(replace_chain(alloc, by, one)?)?;
    }
    Ok(out)
}

#[cycle(replace)]
pub fn replace_joins(alloc: Global, by: &Reference, all: &[Join]) -> Result<Items<Join>, AllocError>
    ensures { IfOk result (λ out. out ≡ map (spec.replaced_join by.now) all.now) }
{
    let mut out = Items::new(alloc);
    for one in all {
        out.push(replace_join(alloc, by, one)?)?;
    }
    Ok(out)
}

#[cycle(replace)]
pub fn replace_optional(
    alloc: Global,
    by: &Reference,
    expr: &Option<Expr>,
) -> Result<Option<Expr>, AllocError>
    ensures { IfOk result (λ out. out ≡ option_map (spec.replaced_expr by.now) expr.now) }
{
    match expr {
        None => Ok(None),
        Some(expr) => Ok(Some(replace_expr(alloc, by, expr)?)),
    }
}

#[cycle(replace)]
pub fn replace_optional_tail(
    alloc: Global,
    by: &Reference,
    tail: &Option<Boxed<Tail>>,
) -> Result<Option<Boxed<Tail>>, AllocError>
    ensures { IfOk result (λ out. out ≡ option_map (spec.replaced_tail by.now) tail.now) }
{
    match tail {
        None => Ok(None),
        Some(tail) => {
            let tail = replace_tail(alloc, by, tail.get())?;
            some_tail(alloc, tail)
        }
    }
}
