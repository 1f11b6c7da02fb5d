//! Difference-bound matrices (Miné 2001), one for each pack of cells: bounds on the differences of two
//! cells' values, and of a cell's value and zero.
//!
//! A matrix for a pack of `size` cells, at most 8, has `(size + 1)^2` words, row by row. Place 0 is for the
//! number zero, and the pack's cells have the places from 1. The word at row i and column j bounds the
//! value at i minus the value at j: it is a number of at most 10^37 in absolute value, or 10^38 for no bound.
//! The words of the diagonal are 0 and say nothing. No call takes memory.
//!
//! A matrix of which no more than one row and its column have changed since it was closed is closed again in time
//! quadratic in the places, where a whole closing takes time cubic in them.
//!
//! The matrices of several packs, one behind the other, are rows of a lattice with a widening by thresholds. The
//! first row that comes to a node is taken as it is.
//!
//! A linear form is the sum of whole coefficients times cells of a pack, plus a constant that lies in an interval, since
//! rounding and what no cell holds are known by their bounds alone. Its numbers are below 10^37 in absolute value. The
//! error that a store makes where it cuts or rounds a value to the receiver's scale is such an interval: exact where
//! nothing is cut off or the value is 0, one-sided where a cut value's sign is known, and else two-sided.
//!
//! A matrix shows a least bound of a form: every value is bounded by its bound against 0, or two values with opposite
//! coefficients by the bound of their difference and the others against 0, whichever of these is the least. A
//! coefficient's term is cut as a word of a closure is, and so is the whole sum, once. By such bounds an assignment of a
//! form to a cell, the demand that a form is at most 0, and the forgetting of a cell change the matrix.
#![tactic(auto)]

mod form;
mod matrix;
mod rows;

pub use form::altered::negated;
pub use form::arithmetic::{lin_add, lin_scale};
pub use form::assignment::assign;
pub use form::bound_laws::{lower_matrices_show_lower_bounds, no_value_is_above_its_bound};
pub use form::bounds::upper;
pub use form::demands::demand;
pub use form::error_laws::{
    errors_are_sound, stores_lie_between, sums_span_at_greater_scales, surer_errors_are_narrower,
};
pub use form::errors::error_of;
pub use form::forgetting::forget;
pub use form::form_laws::{
    narrower_forms_have_narrower_multiples, narrower_forms_have_narrower_sums,
};
pub use form::image_laws::{
    assigned_matrices_are_monotone, demanded_matrices_are_monotone, forgotten_matrices_are_monotone,
};
pub use form::known::Known;
pub use form::lin::Lin;
pub use matrix::closing::close;
pub use matrix::closure_laws::{
    closed_words_are_tight, closing_is_the_closure, closures_are_closings, closures_are_one,
    matrices_stay_tight_beside_a_row,
};
pub use matrix::lattice::{add_bound, join, leq, widen};
pub use matrix::laws::{
    close_is_monotone, closed_words_are_least_sums, growth_is_bounded, matrices_are_a_lattice,
    stands_above,
};
pub use matrix::one_row::close_row;
pub use matrix::settling::settled;
pub use matrix::words::{LARGEST, NONE};
pub use rows::joining::join_rows;
pub use rows::least::{is_least, set_least, set_least_matrix};
pub use rows::order::leq_rows;
pub use rows::row_laws::rows_are_a_lattice;
pub use rows::sizes::{height_of, width_of, words_of};
pub use rows::widening::widen_rows;

/// Cells whose differences are tracked together, by their places from 1, in rising order.
#[derive(PartialEq, Eq, Drop)]
pub struct Pack {
    pub cells: Vec<u32>,
}
