//! The sign of a number.

ghost use Rattle.std.specs.Prelude.{◌≡◌};
ghost use Rattle.h41_decimal.specs.Signs.{opposite_of, product_of};

/// The sign of a number that is not zero.
#[derive(Clone, Copy, Debug, PartialEq, Eq)]
pub enum Sign {
    /// The number is greater than zero.
    Plus,
    /// The number is less than zero.
    Minus,
}

impl Sign {
    /// Returns the other sign: minus for plus, and plus for minus.
    pub fn opposite(self) -> Self
        ensures { result ≡ opposite_of self }
    {
        match self {
            Sign::Plus => Sign::Minus,
            Sign::Minus => Sign::Plus,
        }
    }

    /// Returns the sign of a product or a quotient of numbers with these two signs: plus if they are equal, otherwise
    /// minus.
    pub fn times(self, other: Self) -> Self
        ensures { result ≡ product_of self other }
    {
        match self {
            Sign::Plus => other,
            Sign::Minus => other.opposite(),
        }
    }
}
