//! Role authorizations in the order of their grantees.

ghost use Rattle.std.specs.Prelude.{◌≡◌, ◌<◌, HoldsAt, IfOk, length};
ghost use Rattle.reached_roles.specs.Edges.{AreByGrantee, AreEdges, AreGrantedAt, AreListed};

use cat_items::{Catalogue, Item, role_authorizations};
use sql_tree::Name;
use std::alloc::{AllocError, Global};
use std::ops::Range;

/// A role authorization: a role, and whom it is granted to.
#[derive(Clone, Copy)]
pub struct Edge<'a> {
    pub grantee: &'a Name,
    pub role: &'a Name,
}

/// The role authorizations of a catalogue.
fn edges_of<'a>(alloc: Global, c: &'a Catalogue) -> Result<Vec<Edge<'a>>, AllocError>
    ensures { IfOk result (λ edges. AreEdges c.now.items edges.items) }
{
    let items = c.items();
    let all = role_authorizations(c);
    let mut edges = Vec::new(alloc);
    for at in all.start..all.end {
        if let Item::RoleAuth(grant) = &items[at] {
            let grant = grant.get();
            edges.push(Edge {
                grantee: &grant.grantee,
                role: &grant.role,
            })?;
        }
    }
    Ok(edges)
}

/// The role authorizations of a catalogue, by grantee. `Err` is want of memory.
pub fn listed<'a>(alloc: Global, c: &'a Catalogue) -> Result<Vec<Edge<'a>>, AllocError>
    ensures { IfOk result (λ edges. AreListed c.now.items edges.items) }
{
    let mut edges = edges_of(alloc, c)?;
    edges.sort_unstable_by(|a, b| a.grantee.cmp(b.grantee));
    Ok(edges)
}

/// The places of those to a name: two searches.
pub fn granted_to(edges: &[Edge<'_>], name: &Name) -> Range<usize>
    requires { AreByGrantee edges.now }
    ensures { AreGrantedAt edges.now name.now result.start result.end }
{
    let start = edges.partition_point(|edge| edge.grantee.cmp(name).is_lt());
    let end = edges.partition_point(|edge| edge.grantee.cmp(name).is_le());
    start..end
}

/// The role of the role authorization at a place.
pub fn role_at<'a>(edges: &[Edge<'a>], at: usize) -> &'a Name
    requires { at < length edges.now }
    ensures { HoldsAt (λ e. e.role.now ≡ result.now) edges.now at }
{
    edges[at].role
}
