//! Classes of cells: whether a cell's item is known to hold a number.
ghost use Rattle.std.specs.Prelude.{◌≡◌, ◌↔◌};
ghost use Rattle.interval_domain.specs.Classes.{IsBelow};
ghost use Rattle.interval_domain.specs.declared.class.Class.{Class};

/// What is known of the bytes of an item.
#[derive(Clone, Copy, Debug, PartialEq, Eq)]
pub enum Class {
    /// Any bytes.
    Unknown,
    /// Bytes that read as a number.
    Numeric,
}

/// The class of what has one of the two classes: the least class above both.
pub fn class_join(a: Class, b: Class) -> Class
    ensures numeric { (result ≡ Class.Numeric) ↔ ((a ≡ Class.Numeric) × (b ≡ Class.Numeric)) }
    ensures left { IsBelow a result }
    ensures right { IsBelow b result }
    ensures least { (c : Class) → IsBelow a c → IsBelow b c → IsBelow result c }
{
    match (a, b) {
        (Class::Numeric, Class::Numeric) => Class::Numeric,
        _ => Class::Unknown,
    }
}
