//! What a search for a name finds.
ghost use Rattle.std.specs.Prelude.{◌≡◌, ◌↔◌, IsTrue};
ghost use Rattle.cob_typed_exprs.specs.declared.found.Found.TheVariants.{Several};
ghost use Rattle.cob_typed_exprs.specs.Search.{found_and};

/// What has a name.
#[derive(Clone, Copy, PartialEq, Eq)]
pub enum Found {
    Nothing,
    /// One alone, by its place.
    One(u32),
    Several,
}

impl Found {
    /// With one more place.
    pub fn and(self, place: u32) -> Found
        ensures { result ≡ found_and self place }
    {
        match self {
            Found::Nothing => Found::One(place),
            _ => Found::Several,
        }
    }

    /// Whether two have the name.
    pub fn is_several(self) -> bool
        ensures { IsTrue result ↔ (self ≡ Several) }
    {
        matches!(self, Found::Several)
    }
}
