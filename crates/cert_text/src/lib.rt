//! Certificates: their text, and what they claim.
//!
//! The text is a list of whole lines, read and printed; where it is none, the first line is told with which no text of
//! a set of such texts goes on.
//!
//! Of the rows that are claimed, of cells and of difference-bound matrices (Miné 2001), the places are told at which what
//! is reached doesn't lie in them; and the bounds by which a certificate tells a row of matrices. A claim of a cell is met
//! with its cell's own range before it is a row's; what is reached is compared with the claim as it is written. Bounds are
//! taken as they are written, in the units of their packs; what isn't claimed has no bound.
#![tactic(auto)]

mod bound_laws;
mod bounds;
mod cert;
mod claim_laws;
mod claims;
mod draft;
mod gap;
mod gaps;
mod laws;
mod line_laws;
mod matrix_claims;
mod matrix_gaps;
mod matrix_laws;
mod number;
mod printing;
mod reading;
mod split;
mod word;

pub use bound_laws::{bounds_fit, bounds_mean_their_row};
pub use bounds::bounds_of;
pub use cert::{Bound, Cert, CertEnd, Claim, Element};
pub use claim_laws::gaps_tell_the_order;
pub use claims::set_claimed_row;
pub use gap::Gap;
pub use gaps::first_gap;
pub use laws::{no_bad_line, one_place, one_spelling, texts_of_certificates_are_short};
pub use line_laws::{cut_again, never_stops, one_line, one_stop, refused_nowhere};
pub use matrix_claims::set_claimed;
pub use matrix_gaps::first_matrix_gap;
pub use matrix_laws::{
    allowed_claims_fit, claimed_rows_are_elements, gaps_are_of_bounds, matrix_gaps_tell_the_order,
    unreached_rows_are_least,
};
pub use printing::print;
pub use reading::read;
pub use split::split_line;
