//! The roles that a name reaches.

ghost use Rattle.std.specs.Prelude.{◌≡◌, ◌↔◌, ◌<◌, ℕ, Contains, IfOk, OnOk, length};
ghost use Rattle.sql_names.specs.NameBytes.{NameBytes};
ghost use Rattle.role_graph.specs.Roles.{IsApplicable};
ghost use Rattle.reached_roles.specs.Edges.{AreByGrantee};
ghost use Rattle.reached_roles.specs.Reached.{AreFoundFrom, GainsGrantedTo, HasOfRole};

use crate::edges::{Edge, granted_to, listed, role_at};
use cat_items::Catalogue;
use indexmap::IndexSet;
use sql_tree::Name;
use std::alloc::{AllocError, Global};
use std::marker::Model;

/// Puts in the places of the role authorizations to a name.
fn put_granted(
    edges: &[Edge<'_>],
    name: &Name,
    found: &mut IndexSet<usize>,
) -> Result<(), AllocError>
    requires { AreByGrantee edges.now }
    ensures { OnOk result (GainsGrantedTo edges.now name.now found.old.keys found.new.keys) }
{
    let granted = granted_to(edges, name);
    for at in granted.start..granted.end {
        found.insert(at)?;
    }
    Ok(())
}

/// The places of the role authorizations that lead on from a name, role by role.
fn found_from(alloc: Global, edges: &[Edge<'_>], from: &Name) -> Result<IndexSet<usize>, AllocError>
    requires { AreByGrantee edges.now }
    ensures { IfOk result (λ found. AreFoundFrom edges.now from.now found.keys) }
{
    let mut found = IndexSet::new(alloc);
    put_granted(edges, from, &mut found)?;
    let mut next = 0;
    while next < found.len() {
        let role = role_at(edges, found[next]);
        put_granted(edges, role, &mut found)?;
        next += 1;
    }
    Ok(found)
}

/// The roles of the role authorizations at these places.
fn roles_at(
    alloc: Global,
    edges: &[Edge<'_>],
    found: &IndexSet<usize>,
) -> Result<Vec<Name>, AllocError>
    requires { (k : ℕ) → Contains found.now.keys k → k < length edges.now }
    ensures { IfOk result (λ names. (role : NameBytes) → Contains names.items role ↔ HasOfRole edges.now found.now.keys role) }
{
    let mut names = Vec::new(alloc);
    for nth in 0..found.len() {
        let role = role_at(edges, found[nth]);
        names.push(role.copy()?)?;
    }
    Ok(names)
}

/// The role authorizations of a catalogue, by those whom the roles are granted to. Contracts see it as the items of the catalogue.
#[derive(Drop)]
pub struct RoleGrants<'a> {
    c: &'a Catalogue,
    edges: Vec<Edge<'a>>,
}

impl<'a> Model for RoleGrants<'a> {
    ghost use Rattle.std.specs.Prelude.{List};
    ghost use Rattle.std.specs.Coded.{codes};
    ghost use Rattle.sql_tree.specs.contracts.expr.Expr as expr;
    ghost use Rattle.sql_tree.specs.contracts.expr.Query as query;
    ghost use Rattle.cat_items.specs.declared.item.Item.{Item};
    ghost use Rattle.reached_roles.specs.Edges.{AreListed};

    ghost Value = { List Item };

    ghost coded = { Prim.hlevel (codes, expr.the_row.coded, query.the_row.coded) };

    ghost view = { λ roles. roles.c.now.items };

    ghost invariant = { λ roles. AreListed roles.c.now.items roles.edges.items };
}

impl<'a> RoleGrants<'a> {
    /// Those of this catalogue. It looks at each of them once, and puts them in order. `Err` is want of memory.
    pub fn of(alloc: Global, c: &'a Catalogue) -> Result<RoleGrants<'a>, AllocError>
        ensures { IfOk result (λ roles. roles ≡ c.now.items) }
    {
        let edges = listed(alloc, c)?;
        Ok(RoleGrants { c, edges })
    }

    /// The roles that role authorizations lead to from a name (applicable roles, SQL:2003 part 2, 4.34), in any order; one that is granted by
    /// several comes as often. `Err` is want of memory.
    ///
    /// It goes over the role authorizations that lead on from the name, two searches for each, and over no others.
    pub fn reached(&self, alloc: Global, from: &Name) -> Result<Vec<Name>, AllocError>
        ensures { IfOk result (λ names. (role : NameBytes) → Contains names.items role ↔ IsApplicable self.now from.now role) }
    {
        let edges = self.edges.as_slice();
        let found = found_from(alloc, edges, from)?;
        roles_at(alloc, edges, &found)
    }
}
