//! Which descriptors stand: whether a descriptor is supported by others, and which descriptors of a catalogue
//! survive by finite chains of support. Whether a need is met is handed on.
#![tactic(auto)]

mod rounds;
mod support;
mod system;

pub use role_graph::{Needs, met, met_by};
pub use rounds::survivors;
pub use support::supported;
pub use support_laws::new_catalogues_are_good;
pub use system_rights::system_items;
