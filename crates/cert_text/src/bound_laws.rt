//! What the bounds of a row tell.
ghost use Rattle.cert_text.specs.BoundLaws.{BoundsFit, BoundsMeanTheirRow};

/// The row that a node's bounds mean is the one that they were taken from.
pub fn bounds_mean_their_row()
    ensures { BoundsMeanTheirRow }
{}

/// The bounds of a row are such as the format of certificates allows, in its order.
pub fn bounds_fit()
    ensures { BoundsFit }
{}
