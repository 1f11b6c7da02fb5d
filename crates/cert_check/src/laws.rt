//! What an accepted certificate says of runs.
ghost use Rattle.cert_check.specs.Checking.{AcceptedClaimsCoverRuns};

/// The open pairs of an inductive certificate that its format allows cover the runs of the program: the soundness of the
/// analysis (Cousot and Cousot 1977).
pub fn accepted_claims_cover_runs()
    ensures { AcceptedClaimsCoverRuns }
{}
