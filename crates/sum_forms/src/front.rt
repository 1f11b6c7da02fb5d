//! What stands before a factor of a product.

/// What a product is as far as it has been gone through.
#[derive(Clone, Copy, PartialEq, Eq)]
pub enum Front {
    /// No factor yet.
    Empty,
    /// One factor, a literal that is a whole number.
    Literal(i128),
    /// One factor of another kind, or several factors.
    Product,
}
