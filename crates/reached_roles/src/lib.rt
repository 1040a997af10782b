//! Which roles a name reaches, where this is asked of many names: the role authorizations are put in the order of their grantees once.
#![tactic(auto)]

mod edges;
mod reaching;

pub use reaching::RoleGrants;
