//! Types of lists of parts, and conditions that hold.
#![tactic(auto, using(crate::proofs::TypesEquations::typing, std::proofs::lemmas::Grind::common_steps))]

ghost use Rattle.std.specs.Prelude.{◌≡◌, [], map, option_map, IfOk, OnOk};
ghost use Rattle.type_rules.specs.TypeParts as part;
ghost use Rattle.query_types.specs.Types as spec;

use crate::typing::{
    chain_holds, join_holds, type_arm, type_conjunction, type_expr, type_factor, type_negation,
    type_select, type_select_item, type_term,
};
use name_scopes::{Dictionary, Frames, Scope};
use sql_tree::{
    Added, Arm, Chain, Conjunction, Expr, Further, Items, Join, Multiplied, Negation, SelectItem,
    SqlType,
};
use std::alloc::{AllocError, Global};
use type_rules::{added_to, boolean, joined_columns, multiplied_by};

#[cycle(types)]
pub fn type_conjunctions<D: Dictionary>(
    alloc: Global,
    dictionary: &D,
    scope: &Scope,
    frames: &mut Frames,
    all: &[Conjunction],
) -> Result<Option<Items<SqlType>>, AllocError>
    ensures answer { IfOk result (λ r. r ≡ part.each frames.old [] (map (spec.conjunction (D.known dictionary.now) scope.now) all.now)) }
    ensures kept { OnOk result (frames.new ≡ frames.old) }
{
    let mut out = Items::new(alloc);
    for one in all {
        match type_conjunction(alloc, dictionary, scope, frames, one)? {
            None => return Ok(None),
            Some(sort) => out.push(sort)?,
        }
    }
    Ok(Some(out))
}

#[cycle(types)]
pub fn type_negations<D: Dictionary>(
    alloc: Global,
    dictionary: &D,
    scope: &Scope,
    frames: &mut Frames,
    all: &[Negation],
) -> Result<Option<Items<SqlType>>, AllocError>
    ensures answer { IfOk result (λ r. r ≡ part.each frames.old [] (map (spec.negation (D.known dictionary.now) scope.now) all.now)) }
    ensures kept { OnOk result (frames.new ≡ frames.old) }
{
    let mut out = Items::new(alloc);
    for one in all {
        match type_negation(alloc, dictionary, scope, frames, one)? {
            None => return Ok(None),
            Some(sort) => out.push(sort)?,
        }
    }
    Ok(Some(out))
}

#[cycle(types)]
pub fn type_exprs<D: Dictionary>(
    alloc: Global,
    dictionary: &D,
    scope: &Scope,
    frames: &mut Frames,
    all: &[Expr],
) -> Result<Option<Items<SqlType>>, AllocError>
    ensures answer { IfOk result (λ r. r ≡ part.each frames.old [] (map (spec.expr (D.known dictionary.now) scope.now) all.now)) }
    ensures kept { OnOk result (frames.new ≡ frames.old) }
{
    let mut out = Items::new(alloc);
    for one in all {
        match type_expr(alloc, dictionary, scope, frames, one)? {
            None => return Ok(None),
            Some(sort) => out.push(sort)?,
        }
    }
    Ok(Some(out))
}

#[cycle(types)]
pub fn type_arms<D: Dictionary>(
    alloc: Global,
    dictionary: &D,
    scope: &Scope,
    frames: &mut Frames,
    all: &[Arm],
) -> Result<Option<Items<SqlType>>, AllocError>
    ensures answer { IfOk result (λ r. r ≡ part.each frames.old [] (map (spec.arm (D.known dictionary.now) scope.now) all.now)) }
    ensures kept { OnOk result (frames.new ≡ frames.old) }
{
    let mut out = Items::new(alloc);
    for one in all {
        match type_arm(alloc, dictionary, scope, frames, one)? {
            None => return Ok(None),
            Some(sort) => out.push(sort)?,
        }
    }
    Ok(Some(out))
}

#[cycle(types)]
pub fn type_select_items<D: Dictionary>(
    alloc: Global,
    dictionary: &D,
    scope: &Scope,
    frames: &mut Frames,
    all: &[SelectItem],
) -> Result<Option<Items<SqlType>>, AllocError>
    ensures answer { IfOk result (λ r. r ≡ part.each frames.old [] (map (spec.select_item (D.known dictionary.now) scope.now) all.now)) }
    ensures kept { OnOk result (frames.new ≡ frames.old) }
{
    let mut out = Items::new(alloc);
    for one in all {
        match type_select_item(alloc, dictionary, scope, frames, one)? {
            None => return Ok(None),
            Some(sort) => out.push(sort)?,
        }
    }
    Ok(Some(out))
}

#[cycle(types)]
pub fn type_added_terms<D: Dictionary>(
    alloc: Global,
    dictionary: &D,
    scope: &Scope,
    frames: &mut Frames,
    first: Option<SqlType>,
    all: &[Added],
) -> Result<Option<SqlType>, AllocError>
    ensures answer { IfOk result (λ r. r ≡ part.sum_of frames.old first (map (spec.added (D.known dictionary.now) scope.now) all.now)) }
    ensures kept { OnOk result (frames.new ≡ frames.old) }
{
    let mut sort = first;
    for one in all {
        sort = added_to(
            one.by,
            sort,
            type_term(alloc, dictionary, scope, frames, &one.term)?,
        );
    }
    Ok(sort)
}

#[cycle(types)]
pub fn type_multiplied_factors<D: Dictionary>(
    alloc: Global,
    dictionary: &D,
    scope: &Scope,
    frames: &mut Frames,
    first: Option<SqlType>,
    all: &[Multiplied],
) -> Result<Option<SqlType>, AllocError>
    ensures answer { IfOk result (λ r. r ≡ part.product_of frames.old first (map (spec.multiplied (D.known dictionary.now) scope.now) all.now)) }
    ensures kept { OnOk result (frames.new ≡ frames.old) }
{
    let mut sort = first;
    for one in all {
        sort = multiplied_by(
            sort,
            type_factor(alloc, dictionary, scope, frames, &one.factor)?,
        );
    }
    Ok(sort)
}

#[cycle(types)]
pub fn type_further_selects<D: Dictionary>(
    alloc: Global,
    dictionary: &D,
    scope: &Scope,
    frames: &mut Frames,
    first: Items<SqlType>,
    all: &[Further],
) -> Result<Option<Items<SqlType>>, AllocError>
    ensures answer { IfOk result (λ r. r ≡ part.united frames.old (map (spec.further (D.known dictionary.now) scope.now) all.now) first) }
    ensures kept { OnOk result (frames.new ≡ frames.old) }
{
    let mut sorts = first;
    for one in all {
        match type_select(alloc, dictionary, scope, frames, &one.select)? {
            None => return Ok(None),
            Some(more) => match joined_columns(alloc, sorts.as_slice(), more.as_slice())? {
                None => return Ok(None),
                Some(joined) => sorts = joined,
            },
        }
    }
    Ok(Some(sorts))
}

#[cycle(types)]
pub fn holds<D: Dictionary>(
    alloc: Global,
    dictionary: &D,
    scope: &Scope,
    frames: &mut Frames,
    filter: &Option<Expr>,
) -> Result<bool, AllocError>
    ensures answer { IfOk result (λ r. r ≡ part.holds (option_map (spec.expr (D.known dictionary.now) scope.now) filter.now) frames.old) }
    ensures kept { OnOk result (frames.new ≡ frames.old) }
{
    match filter {
        None => Ok(true),
        Some(filter) => Ok(boolean(type_expr(alloc, dictionary, scope, frames, filter)?)),
    }
}

#[cycle(types)]
pub fn joins_hold<D: Dictionary>(
    alloc: Global,
    dictionary: &D,
    scope: &Scope,
    frames: &mut Frames,
    all: &[Join],
) -> Result<bool, AllocError>
    ensures answer { IfOk result (λ r. r ≡ part.all_hold (map (spec.join (D.known dictionary.now) scope.now) all.now) frames.old) }
    ensures kept { OnOk result (frames.new ≡ frames.old) }
{
    for one in all {
        if !join_holds(alloc, dictionary, scope, frames, one)? {
            return Ok(false);
        }
    }
    Ok(true)
}

#[cycle(types)]
pub fn chains_hold<D: Dictionary>(
    alloc: Global,
    dictionary: &D,
    scope: &Scope,
    frames: &mut Frames,
    all: &[Chain],
) -> Result<bool, AllocError>
    ensures answer { IfOk result (λ r. r ≡ part.all_hold (map (spec.chain (D.known dictionary.now) scope.now) all.now) frames.old) }
    ensures kept { OnOk result (frames.new ≡ frames.old) }
{
    for one in all {
        if !chain_holds(alloc, dictionary, scope, frames, one)? {
            return Ok(false);
        }
    }
    Ok(true)
}
