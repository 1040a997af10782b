//! What surrounds a query, an expression or a body, and what a single name in it stands for.
#![tactic(auto)]

mod dictionary;
mod error;
mod frames;
mod items;
mod look;
mod scope;
mod single;

pub use dictionary::Dictionary;
pub use error::ResolveError;
pub use frames::{Frame, Frames, Tab};
pub use items::{column_of, make_item, next_position, resolve_star, resolve_table_star};
pub use look::{By, Fitting, Found, fit_in, is_name, seek};
pub use scope::{OwnTable, Scope, Signature};
pub use single::{
    full_name, resolve_function, resolve_joined, resolve_procedure, resolve_reference,
    resolve_table, same_object, tab_in,
};
