//! Numbers in fixed point: a whole number of units of `2^-32`, of at most `2^15` in size.
//!
//! A linear program runs the same on every machine and takes no floating point. What is stored is clamped to `2^47` units: a product of
//! two such numbers is `2^94` at most, so that sums of many products fit in 128 bits, and no operation overflows or divides by zero. 32
//! bits behind the point serve as well as floating point did on the problems that were tried, 28 and fewer or 36 and more did worse.

use super::numbers::Number;

/// How many bits stand behind the point.
const FRACTION_BITS: u32 = 32;

/// One, in units.
const UNITS_OF_ONE: i64 = 1 << 32;

/// The largest size, in units.
const LARGEST_UNITS: i64 = 1 << 47;

/// A number of at most `2^15` in size, in units of `2^-32`. What is larger is put to the largest of its sign.
#[derive(Clone, Copy, Debug, Default, PartialEq, Eq)]
pub struct Fixed {
    units: i64,
}

/// The lower 64 bits of a number: the number itself where it fits.
fn lower_half(number: i128) -> i64 {
    let lower = (number.cast_unsigned() & u128::from(u64::MAX)) as u64;
    lower.cast_signed()
}

impl Number for Fixed {
    #[inline(always)]
    fn plus_product(self, left: Fixed, right: Fixed) -> Self {
        // Neither factor is above 2^47 units, so that the product, rounded to units, is at most 2^62.
        let product = i128::from(left.units).wrapping_mul(i128::from(right.units));
        let rounded = lower_half(product.wrapping_add(1 << 31) >> 32);
        Fixed::of_units(rounded.wrapping_add(self.units))
    }
}

impl Fixed {
    /// 0.
    pub const ZERO: Fixed = Fixed { units: 0 };

    /// 1.
    pub const ONE: Fixed = Fixed {
        units: UNITS_OF_ONE,
    };

    /// A half.
    pub const HALF: Fixed = Fixed { units: 1 << 31 };

    /// `2^15`, the largest number.
    pub const LARGEST: Fixed = Fixed {
        units: LARGEST_UNITS,
    };

    /// The number of so many units of `2^-32`, or the nearest that is not too large.
    #[inline(always)]
    pub fn of_units(units: i64) -> Fixed {
        // Nearly all are small, which takes one comparison to see.
        if units.wrapping_add(LARGEST_UNITS).cast_unsigned() >> 48 == 0 {
            return Fixed { units };
        }
        Fixed::clamped(units)
    }

    /// The number of so many units, or the largest of its sign.
    #[inline(never)]
    fn clamped(units: i64) -> Fixed {
        Fixed {
            units: units.clamp(-LARGEST_UNITS, LARGEST_UNITS),
        }
    }

    /// The number in units of `2^-32`, from `-2^47` to `2^47`.
    pub fn units(self) -> i64 {
        self.units
    }

    /// The number of so many units, which may be more than 64 bits hold, or the nearest that is not too large.
    pub(crate) fn nearest(units: i128) -> Fixed {
        match i64::try_from(units) {
            Ok(few) => Fixed::of_units(few),
            Err(_) if units < 0 => Fixed::LARGEST.negated(),
            Err(_) => Fixed::LARGEST,
        }
    }

    /// `number * 2^-exponent`, rounded, or the nearest number that is not too large.
    pub fn scaled(number: i128, exponent: u32) -> Fixed {
        if exponent <= FRACTION_BITS {
            let limit: i128 = 1 << 80;
            let clamped = number.clamp(-limit, limit);
            Fixed::nearest(clamped.wrapping_shl(FRACTION_BITS - exponent))
        } else {
            let twice = number.unbounded_shr(exponent - FRACTION_BITS - 1);
            Fixed::nearest(twice.saturating_add(1) >> 1)
        }
    }

    /// The sum, or the largest number of its sign.
    pub fn plus(self, other: Fixed) -> Fixed {
        Fixed::of_units(self.units.wrapping_add(other.units))
    }

    /// The difference, or the largest number of its sign.
    pub fn minus(self, other: Fixed) -> Fixed {
        Fixed::of_units(self.units.wrapping_sub(other.units))
    }

    /// The number with its sign changed.
    pub fn negated(self) -> Fixed {
        Fixed {
            units: self.units.wrapping_neg(),
        }
    }

    /// The number without its sign.
    pub fn size(self) -> Fixed {
        Fixed {
            units: self.units.wrapping_abs(),
        }
    }

    /// Whether it is above another one.
    pub fn is_above(self, other: Fixed) -> bool {
        self.units > other.units
    }

    /// Whether it is below 0.
    pub fn is_negative(self) -> bool {
        self.units < 0
    }

    /// Whether it is 0.
    pub fn is_zero(self) -> bool {
        self.units == 0
    }

    /// The greater of both.
    pub fn greater(self, other: Fixed) -> Fixed {
        if self.units < other.units {
            other
        } else {
            self
        }
    }

    /// The product, rounded, or the largest number of its sign.
    pub fn times(self, other: Fixed) -> Fixed {
        Fixed::ZERO.plus_product(self, other)
    }

    /// The quotient, rounded towards 0, or the largest number of its sign, as where another number than 0 is divided by 0; 0 over anything is 0.
    pub fn over(self, divisor: Fixed) -> Fixed {
        if self.units == 0 {
            return Fixed::ZERO;
        }
        if divisor.units == 0 {
            return if self.units < 0 {
                Fixed::LARGEST.negated()
            } else {
                Fixed::LARGEST
            };
        }
        let size = divisor.units.unsigned_abs();
        if size <= UNITS_OF_ONE.unsigned_abs() && size.is_power_of_two() {
            let quotient = self.over_power_of_two(size);
            return if divisor.units < 0 {
                quotient.negated()
            } else {
                quotient
            };
        }
        let dividend = i128::from(self.units).wrapping_mul(i128::from(UNITS_OF_ONE));
        Fixed::nearest(dividend / i128::from(divisor.units))
    }

    /// The quotient where the divisor is a power of two up to 1, in units. Most coefficients of a scaled row are such ones; nothing is rounded then, and
    /// a shift is much cheaper than to divide 128 bits.
    fn over_power_of_two(self, divisor: u64) -> Fixed {
        let places = FRACTION_BITS.saturating_sub(divisor.trailing_zeros());
        Fixed::nearest(i128::from(self.units).wrapping_shl(places))
    }
}
