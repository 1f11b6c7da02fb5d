//! What holds of all bytes.
ghost use Rattle.commands.specs.Profile.{BytesAreOfProfileOrNot};

/// A law: all bytes are a source of the profile, or there is a cause why they aren't.
pub fn bytes_are_of_the_profile_or_not()
    ensures { BytesAreOfProfileOrNot }
{}
