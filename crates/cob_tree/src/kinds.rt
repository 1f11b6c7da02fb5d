//! All kinds of faults, and sets of them.
ghost use Rattle.std.specs.Prelude.{◌≡◌};
ghost use Rattle.cob_tree.specs.Kinds.{all_kinds, every_kind, both, has, kind_text, put};

use crate::fault::Kind;

/// All kinds, in the order in which a report tells them.
pub fn all_kinds() -> [Kind; 5]
    ensures { result ≡ all_kinds }
{
    [
        Kind::Size,
        Kind::Truncation,
        Kind::Zero,
        Kind::Class,
        Kind::Subscript,
    ]
}

impl Kind {
    /// The word by which reports and refusals name it.
    pub fn text(self) -> &'static str
        ensures { result.now ≡ kind_text self }
    {
        match self {
            Kind::Size => "SIZE",
            Kind::Truncation => "TRUNCATION",
            Kind::Zero => "ZERO",
            Kind::Class => "CLASS",
            Kind::Subscript => "SUBSCRIPT",
        }
    }
}

/// A set of kinds of faults.
#[derive(Clone, Copy, PartialEq, Eq)]
pub struct Kinds {
    pub size: bool,
    pub truncation: bool,
    pub zero: bool,
    pub class: bool,
    pub subscript: bool,
}

impl Kinds {
    /// The set of all kinds.
    pub fn all() -> Kinds
        ensures { result ≡ every_kind }
    {
        Kinds {
            size: true,
            truncation: true,
            zero: true,
            class: true,
            subscript: true,
        }
    }

    pub fn has(self, kind: Kind) -> bool
        ensures { result ≡ has self kind }
    {
        match kind {
            Kind::Size => self.size,
            Kind::Truncation => self.truncation,
            Kind::Zero => self.zero,
            Kind::Class => self.class,
            Kind::Subscript => self.subscript,
        }
    }

    /// The kinds that both have.
    pub fn both(self, other: Kinds) -> Kinds
        ensures { result ≡ both self other }
    {
        Kinds {
            size: self.size && other.size,
            truncation: self.truncation && other.truncation,
            zero: self.zero && other.zero,
            class: self.class && other.class,
            subscript: self.subscript && other.subscript,
        }
    }

    /// The set with a kind in it or not.
    pub fn put(mut self, kind: Kind, held: bool) -> Kinds
        ensures { result ≡ put self kind held }
    {
        match kind {
            Kind::Size => self.size = held,
            Kind::Truncation => self.truncation = held,
            Kind::Zero => self.zero = held,
            Kind::Class => self.class = held,
            Kind::Subscript => self.subscript = held,
        }
        self
    }
}
