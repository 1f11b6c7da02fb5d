//! The laws of the layer of differences (Miné 2001), from a part of an edge of the control graph to a whole program, beside
//! what is known of cells: values that stood in the old matrices stand in the new ones, with what the part gives to a cell;
//! what is known behind an edge rises with what is known before it; faults that both layers clear aren't met.
#![tactic(auto)]

mod laws;
mod layers;
mod pack_edges;

pub use laws::{
    demanded_values_stay, forgotten_values_are_free, known_cells_stand, lesser_words_keep_values,
    ordered_values_stay, signs_are_sure, stored_values_stand, stores_rise,
};
pub use layers::{lower_facts_give_lower_rows, packs_flow, packs_mean};
pub use pack_edges::{
    amounts_are_shown, amounts_rise, cleared_faults_are_not_met, differences_rise, posts_rise,
    posts_stand,
};
