//! The tables of a resolved FROM.
#![tactic(auto, using(crate::proofs::TypesEquations::typing, std::proofs::lemmas::Grind::common_steps))]

ghost use Rattle.std.specs.Prelude.{◌≡◌, ◌++◌, map, IfOk, OnOk};
ghost use Rattle.type_rules.specs.TypeParts as part;
ghost use Rattle.query_types.specs.Types as spec;

use name_scopes::{Dictionary, Scope, Tab, tab_in};
use sql_tree::{Chain, Items, Join};
use std::alloc::{AllocError, Global};

fn put_join<D: Dictionary>(
    dictionary: &D,
    scope: &Scope,
    out: &mut Items<Tab>,
    join: &Join,
) -> Result<(), AllocError>
    ensures { OnOk result (out.new ≡ out.old ++ (spec.join (D.known dictionary.now) scope.now join.now).0) }
{
    let _dictionary = dictionary;
    match join {
        Join::Inner { table, .. } => out.push(tab_in(scope, table)?),
        Join::Cross(table) => out.push(tab_in(scope, table)?),
    }
}

fn put_joins<D: Dictionary>(
    dictionary: &D,
    scope: &Scope,
    out: &mut Items<Tab>,
    all: &[Join],
) -> Result<(), AllocError>
    ensures { OnOk result (out.new ≡ out.old ++ part.tables (map (spec.join (D.known dictionary.now) scope.now) all.now)) }
{
    for one in all {
        put_join(dictionary, scope, out, one)?;
    }
    Ok(())
}

fn put_chain<D: Dictionary>(
    dictionary: &D,
    scope: &Scope,
    out: &mut Items<Tab>,
    chain: &Chain,
) -> Result<(), AllocError>
    ensures { OnOk result (out.new ≡ out.old ++ (spec.chain (D.known dictionary.now) scope.now chain.now).0) }
{
    out.push(tab_in(scope, &chain.first)?)?;
    put_joins(dictionary, scope, out, chain.joins.as_slice())
}

/// The tables of a FROM, in order.
pub fn tables_of<D: Dictionary>(
    alloc: Global,
    dictionary: &D,
    scope: &Scope,
    all: &[Chain],
) -> Result<Items<Tab>, AllocError>
    ensures { IfOk result (λ ts. ts ≡ part.tables (map (spec.chain (D.known dictionary.now) scope.now) all.now)) }
{
    let mut out = Items::new(alloc);
    for one in all {
        put_chain(dictionary, scope, &mut out, one)?;
    }
    Ok(out)
}
