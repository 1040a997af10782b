//! Laws of support, over the definitions of rights and edits alone.
#![tactic(auto)]

mod laws;

pub use laws::{
    an_edit_has_one_new_catalogue, new_catalogues_are_good, support_is_local, support_is_monotone,
    survivors_are_good,
};
