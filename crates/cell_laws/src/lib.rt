//! The laws of the layer of cells (Cousot and Cousot 1977), from a part of an edge of the control graph to a whole program:
//! what is known behind it rises with what is known before it, lies in the cells' own ranges, and is true of what a run
//! leaves; what is cleared stays cleared where less is known, and isn't met.
//!
//! With them stand their premises: what a source's cells and edges are, that the numbers of its edges are small, and what
//! stands before each part of an edge.
#![tactic(auto)]

mod cell_facts;
mod edge_places;
mod edge_premises;
mod edge_sizes;
mod laws;
mod layers;

pub use cell_facts::{cells_are_of_homes, filled_bytes_stand, items_are_sound};
pub use edge_places::parts_are_in_place;
pub use edge_premises::edges_are_sound_of_sources;
pub use edge_sizes::edges_are_small_of_sources;
pub use laws::{
    cleared_faults_are_not_met, edges_are_sound, flags_rise, posts_stand, stores_stand,
};
pub use layers::{cells_flow, cells_mean};
