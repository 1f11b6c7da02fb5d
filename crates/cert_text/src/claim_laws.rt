//! What gaps tell.
ghost use Rattle.cert_text.specs.Gaps.{GapsTellTheOrder};

/// What is reached lies in the claims as they are written exactly where it lies in the row that they mean.
pub fn gaps_tell_the_order()
    ensures { GapsTellTheOrder }
{}
