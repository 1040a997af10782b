//! DROP DOMAIN and DROP SCHEMA: domains go, and the columns that are based on them are freed.
#![tactic(auto)]

mod copies;
mod drops;
mod freeing;
mod gone;
mod names;

pub use drops::{drop_domain, drop_schema};
