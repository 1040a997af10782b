//! What statements that edit a catalogue have in common: names that must stand, owners, grantors and privileges,
//! refusals in their order, and the lists of descriptors that edits are made of.
#![tactic(auto)]

mod choosing;
mod names;
mod owners;
mod privileges;
mod putting;

pub use choosing::{Chooses, chosen};
pub use names::{
    has_column, is_authorization, is_base_table, is_constraint, is_role, is_schema, is_table,
    is_user, object_in, path_of, test_authorization, test_base_table, test_column,
    test_new_constraint, test_new_table, test_role, test_schema,
};
pub use owners::{current_role, grantor_of, test_owner};
pub use privileges::{admin_need, is_behind, test_privileges};
pub use putting::put;
