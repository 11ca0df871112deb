//! The parts of a decimal that is not zero, apart from its sign: its ten digits and its exponent.

ghost use Rattle.std.specs.Prelude.{◌≡◌, ◌^◌, ◌<◌, ◌≤◌, ◌↔◌, ℤ, pos, ◌+ℤ◌, ◌-ℤ◌, ◌≤ℤ◌, IsSome};
ghost use Rattle.std.specs.Prelude.{IfSome};

/// Ten decimal digits of which the first is not zero, 1,000,000,000 to 9,999,999,999. The radix mark follows the first digit.
#[derive(Clone, Copy, Debug, PartialEq, Eq)]
pub struct Mantissa {
    /// The digits as a whole number.
    pub digits: u64,
    pub ghost at_least: { 10 ^ 9 ≤ digits },
    pub ghost below: { digits < 10 ^ 10 },
}

/// The exponent of a decimal, -99 to 99: the power of ten of its first digit.
#[derive(Clone, Copy, Debug, PartialEq, Eq)]
pub struct Exponent {
    /// The exponent plus 99, 0 to 198.
    pub biased: u32,
    pub ghost in_range: { biased ≤ 198 },
}

impl Exponent {
    /// Returns the exponent as a signed number, -99 to 99.
    pub fn power(self) -> i16
        ensures { result ≡ pos self.biased -ℤ pos 99 }
    {
        self.biased as i16 - 99
    }
}

/// The size of a decimal that is not zero, without its sign: `mantissa` * 10^(`exponent` - 9).
#[derive(Clone, Copy, Debug, PartialEq, Eq)]
pub struct Magnitude {
    /// The ten digits, of which the first is not zero.
    pub mantissa: Mantissa,
    /// The power of ten of the first digit, -99 to 99.
    pub exponent: Exponent,
}

impl Magnitude {
    /// Returns the exponent plus 99, 0 to 198, so that magnitudes are compared without negative numbers.
    pub fn steps(self) -> u32
        ensures { result ≡ self.exponent.biased }
    {
        self.exponent.biased
    }
}
