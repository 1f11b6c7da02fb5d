//! What claimed rows are, and what gaps tell.
ghost use Rattle.cert_text.specs.MatrixGaps.{AllowedClaimsFit, ClaimedRowsAreElements, UnreachedRowsAreLeast, GapsTellTheOrder, GapsAreOfBounds};

/// What `set_claimed` and `first_matrix_gap` ask of packs and bounds holds in each certificate that its format allows.
pub fn allowed_claims_fit()
    ensures { AllowedClaimsFit }
{}

/// The row that the claims of a node mean is one of matrices, where its bounds are as the format of certificates allows.
pub fn claimed_rows_are_elements()
    ensures { ClaimedRowsAreElements }
{}

/// The row of a node that is claimed not to be reached lies below every other one.
pub fn unreached_rows_are_least()
    ensures { UnreachedRowsAreLeast }
{}

/// What is reached has no gap exactly where it lies in what is claimed.
pub fn matrix_gaps_tell_the_order()
    ensures { GapsTellTheOrder }
{}

/// Each gap is of a bound that is claimed, and its two values differ.
pub fn gaps_are_of_bounds()
    ensures { GapsAreOfBounds }
{}
