//! ALTER TABLE of what stands: the default of a column, DROP COLUMN and DROP CONSTRAINT, as the edits that they make of a catalogue.
#![tactic(auto)]

mod changes;
mod columns;
mod constraints;
mod defaults;
mod lists;

pub use changes::alter_standing;
pub use columns::drop_column;
pub use constraints::drop_constraint;
pub use defaults::{drop_default, set_default};
