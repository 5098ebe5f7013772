//! Sums of products of numbers in fixed point.
//!
//! A product is kept whole, and only the sum is rounded. With 128 bits a sum of 2^33 products of the largest numbers still fits.

use super::fixed::Fixed;
use super::numbers::Number;

/// A sum of products, in units of `2^-64`, that is rounded once at its end: up to `2^63` in size.
#[derive(Clone, Copy, Debug, Default)]
pub struct Sum {
    units: i128,
}

impl Number for Sum {
    fn plus_product(self, left: Fixed, right: Fixed) -> Self {
        self.plus(product(left, right))
    }
}

/// A product, whole.
fn product(left: Fixed, right: Fixed) -> Sum {
    Sum {
        units: i128::from(left.units()).wrapping_mul(i128::from(right.units())),
    }
}

impl Sum {
    /// The sum of nothing.
    pub const ZERO: Sum = Sum { units: 0 };

    /// The sum that is one number alone.
    pub fn of(value: Fixed) -> Sum {
        Sum {
            units: i128::from(value.units()).wrapping_mul(1 << 32),
        }
    }

    /// What it is above a product.
    pub fn minus_product(self, left: Fixed, right: Fixed) -> Sum {
        self.minus(product(left, right))
    }

    /// Both sums together.
    pub fn plus(self, other: Sum) -> Sum {
        Sum {
            units: self.units.wrapping_add(other.units),
        }
    }

    /// What it is above another sum.
    pub fn minus(self, other: Sum) -> Sum {
        Sum {
            units: self.units.wrapping_sub(other.units),
        }
    }

    /// Whether it is below 0.
    pub fn is_negative(self) -> bool {
        self.units < 0
    }

    /// The nearest number in fixed point: the largest of its sign where it is too large for one.
    pub fn rounded(self) -> Fixed {
        Fixed::nearest(self.units.wrapping_add(1 << 31) >> 32)
    }

    /// The sum in units of `2^-32`, rounded down and not clamped: up to `2^95` in size.
    pub fn units(self) -> i128 {
        self.units >> 32
    }
}
