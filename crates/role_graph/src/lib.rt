//! Reach, and needs that are met: whom an authorization reaches by roles, which roles are enabled and applicable,
//! cycles of roles, and whether a need is met for an authorization.
#![tactic(auto)]

mod actor;
mod cycle;
mod grants;
mod judge;
mod meeting;
mod roles;
mod standing;
mod trail;
mod walk;

pub use actor::Actor;
pub use cycle::makes_cycle;
pub use judge::{Condition, Judge, Matches};
pub use meeting::{Needs, met, met_by};
pub use roles::{applicable, enabled};
pub use standing::object_at;
pub use walk::{Walk, reaches};
