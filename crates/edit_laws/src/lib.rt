//! Laws of edits: the edited catalogue stands, fits and keeps its shape, and what a good catalogue gives.
#![tactic(auto)]

mod laws;

pub use laws::{
    an_edit_has_an_edited_catalogue, columns_put_back_are_proper,
    good_catalogues_support_their_items, proper_additions_keep_shape, proper_edits_are_sound,
    users_stay, usual_edits_are_sound,
};
