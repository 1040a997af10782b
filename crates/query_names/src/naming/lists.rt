//! Names of lists of parts, and of parts that may be absent.
#![tactic(auto, using(crate::proofs::Equations::names, name_scopes::proofs::Tails::tails, std::proofs::lemmas::Grind::common_steps))]

ghost use Rattle.std.specs.Prelude.{◌≡◌, [], drop, map, option_map, OnOk};
ghost use Rattle.query_names.specs.Names as spec;
ghost use Rattle.name_scopes.specs.Outcomes.{Answers, Extends, each, listed, perhaps, thread};

use crate::making::some_tail;
use crate::naming::{
    resolve_added, resolve_arm, resolve_chain, resolve_conjunction, resolve_expr, resolve_further,
    resolve_join, resolve_multiplied, resolve_negation, resolve_select_item, resolve_tail,
};
use name_scopes::{Dictionary, Frames, ResolveError, Scope, next_position};
use sql_tree::{
    Added, Arm, Boxed, Chain, Conjunction, Expr, Further, Items, Join, Multiplied, Negation,
    SelectItem, Tail,
};
use std::alloc::Global;

#[cycle(names)]
pub fn resolve_conjunctions<D: Dictionary>(
    alloc: Global,
    dictionary: &D,
    scope: &Scope,
    frames: &mut Frames,
    all: &[Conjunction],
) -> Result<Items<Conjunction>, ResolveError>
    ensures answer { Answers (each frames.old [] (map (spec.conjunction (D.known dictionary.now) scope.now) all.now)) result }
    ensures kept { OnOk result (frames.new ≡ frames.old) }
{
    let mut out = Items::new(alloc);
    for one in all {
        out.push(resolve_conjunction(alloc, dictionary, scope, frames, one)?)?;
    }
    Ok(out)
}

#[cycle(names)]
pub fn resolve_negations<D: Dictionary>(
    alloc: Global,
    dictionary: &D,
    scope: &Scope,
    frames: &mut Frames,
    all: &[Negation],
) -> Result<Items<Negation>, ResolveError>
    ensures answer { Answers (each frames.old [] (map (spec.negation (D.known dictionary.now) scope.now) all.now)) result }
    ensures kept { OnOk result (frames.new ≡ frames.old) }
{
    let mut out = Items::new(alloc);
    for one in all {
        out.push(resolve_negation(alloc, dictionary, scope, frames, one)?)?;
    }
    Ok(out)
}

#[cycle(names)]
pub fn resolve_added_terms<D: Dictionary>(
    alloc: Global,
    dictionary: &D,
    scope: &Scope,
    frames: &mut Frames,
    all: &[Added],
) -> Result<Items<Added>, ResolveError>
    ensures answer { Answers (each frames.old [] (map (spec.added (D.known dictionary.now) scope.now) all.now)) result }
    ensures kept { OnOk result (frames.new ≡ frames.old) }
{
    let mut out = Items::new(alloc);
    for one in all {
        out.push(resolve_added(alloc, dictionary, scope, frames, one)?)?;
    }
    Ok(out)
}

#[cycle(names)]
pub fn resolve_multiplied_factors<D: Dictionary>(
    alloc: Global,
    dictionary: &D,
    scope: &Scope,
    frames: &mut Frames,
    all: &[Multiplied],
) -> Result<Items<Multiplied>, ResolveError>
    ensures answer { Answers (each frames.old [] (map (spec.multiplied (D.known dictionary.now) scope.now) all.now)) result }
    ensures kept { OnOk result (frames.new ≡ frames.old) }
{
    let mut out = Items::new(alloc);
    for one in all {
        out.push(resolve_multiplied(alloc, dictionary, scope, frames, one)?)?;
    }
    Ok(out)
}

#[cycle(names)]
pub fn resolve_exprs<D: Dictionary>(
    alloc: Global,
    dictionary: &D,
    scope: &Scope,
    frames: &mut Frames,
    all: &[Expr],
) -> Result<Items<Expr>, ResolveError>
    ensures answer { Answers (each frames.old [] (map (spec.expr (D.known dictionary.now) scope.now) all.now)) result }
    ensures kept { OnOk result (frames.new ≡ frames.old) }
{
    let mut out = Items::new(alloc);
    for one in all {
        out.push(resolve_expr(alloc, dictionary, scope, frames, one)?)?;
    }
    Ok(out)
}

#[cycle(names)]
pub fn resolve_arms<D: Dictionary>(
    alloc: Global,
    dictionary: &D,
    scope: &Scope,
    frames: &mut Frames,
    all: &[Arm],
) -> Result<Items<Arm>, ResolveError>
    ensures answer { Answers (each frames.old [] (map (spec.arm (D.known dictionary.now) scope.now) all.now)) result }
    ensures kept { OnOk result (frames.new ≡ frames.old) }
{
    let mut out = Items::new(alloc);
    for one in all {
        out.push(resolve_arm(alloc, dictionary, scope, frames, one)?)?;
    }
    Ok(out)
}

#[cycle(names)]
pub fn resolve_further_selects<D: Dictionary>(
    alloc: Global,
    dictionary: &D,
    scope: &Scope,
    frames: &mut Frames,
    all: &[Further],
) -> Result<Items<Further>, ResolveError>
    ensures answer { Answers (each frames.old [] (map (spec.further (D.known dictionary.now) scope.now) all.now)) result }
    ensures kept { OnOk result (frames.new ≡ frames.old) }
{
    let mut out = Items::new(alloc);
    for one in all {
        out.push(resolve_further(alloc, dictionary, scope, frames, one)?)?;
    }
    Ok(out)
}

#[cycle(names)]
pub fn resolve_chains<D: Dictionary>(
    alloc: Global,
    dictionary: &D,
    scope: &Scope,
    frames: &mut Frames,
    all: &[Chain],
) -> Result<Items<Chain>, ResolveError>
    ensures answer { Extends (thread [] (map (spec.chain (D.known dictionary.now) scope.now) all.now) frames.old) result frames.new }
    ensures kept { OnOk result (drop 1 frames.new ≡ drop 1 frames.old) }
{
    let mut out = Items::new(alloc);
    for one in all {
        out.push(resolve_chain(alloc, dictionary, scope, frames, one)?)?;
    }
    Ok(out)
}

#[cycle(names)]
pub fn resolve_joins<D: Dictionary>(
    alloc: Global,
    dictionary: &D,
    scope: &Scope,
    frames: &mut Frames,
    all: &[Join],
) -> Result<Items<Join>, ResolveError>
    ensures answer { Extends (thread [] (map (spec.join (D.known dictionary.now) scope.now) all.now) frames.old) result frames.new }
    ensures kept { OnOk result (drop 1 frames.new ≡ drop 1 frames.old) }
{
    let mut out = Items::new(alloc);
    for one in all {
        out.push(resolve_join(alloc, dictionary, scope, frames, one)?)?;
    }
    Ok(out)
}

#[cycle(names)]
pub fn resolve_select_items<D: Dictionary>(
    alloc: Global,
    dictionary: &D,
    scope: &Scope,
    frames: &mut Frames,
    all: &[SelectItem],
) -> Result<Items<SelectItem>, ResolveError>
    ensures answer { Answers (listed frames.old [] (map (spec.select_item (D.known dictionary.now) scope.now) all.now)) result }
    ensures kept { OnOk result (frames.new ≡ frames.old) }
{
    let mut out = Items::new(alloc);
    for one in all {
        let position = next_position(out.as_slice());
        out.append(resolve_select_item(alloc, dictionary, scope, frames, position, one)?)?;
    }
    Ok(out)
}

#[cycle(names)]
pub fn resolve_optional<D: Dictionary>(
    alloc: Global,
    dictionary: &D,
    scope: &Scope,
    frames: &mut Frames,
    expr: &Option<Expr>,
) -> Result<Option<Expr>, ResolveError>
    ensures answer { Answers (perhaps (option_map (spec.expr (D.known dictionary.now) scope.now) expr.now) frames.old) result }
    ensures kept { OnOk result (frames.new ≡ frames.old) }
{
    match expr {
        None => Ok(None),
        Some(expr) => Ok(Some(resolve_expr(alloc, dictionary, scope, frames, expr)?)),
    }
}

#[cycle(names)]
pub fn resolve_optional_tail<D: Dictionary>(
    alloc: Global,
    dictionary: &D,
    scope: &Scope,
    frames: &mut Frames,
    tail: &Option<Boxed<Tail>>,
) -> Result<Option<Boxed<Tail>>, ResolveError>
    ensures answer { Answers (perhaps (option_map (spec.tail (D.known dictionary.now) scope.now) tail.now) frames.old) result }
    ensures kept { OnOk result (frames.new ≡ frames.old) }
{
    match tail {
        None => Ok(None),
        Some(tail) => some_tail(
            alloc,
            resolve_tail(alloc, dictionary, scope, frames, tail.get())?,
        ),
    }
}
