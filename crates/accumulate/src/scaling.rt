//! Multiplying and dividing the cells of an array of net coefficients.
//!
//! Each cell has its turn once. So the marks stand in order, and one that stands twice is passed over; a variable between two marks has no
//! coefficient, and gets none.

ghost use Rattle.std.specs.Prelude.{◌≡◌, ◌≤◌, ◌<◌, ℕ, unsigned_abs, length};
ghost use Rattle.std.specs.List.Sorted.{IsNonDecreasingBy};
ghost use Rattle.normal_form.specs.Normal.{largest_sum};
ghost use Rattle.accumulate.specs.Nets.{AreResized, IsMarked, ScalesWithin, resized, scaled, sizes};

use cut_rules::divided_up;
use normal_form::LARGEST_SUM;

/// What becomes of each number of a constraint.
#[derive(Clone, Copy, Debug)]
pub(crate) enum Scaling {
    /// It is multiplied by a factor.
    Times(u128),
    /// It is divided by a divisor above 0, and rounded up.
    DividedBy(u128),
}

/// What becomes of a number.
pub(crate) fn scaled(number: u128, scaling: Scaling) -> u128
    requires { ScalesWithin scaling number }
    ensures { result ≡ scaled scaling number }
{
    match scaling {
        Scaling::Times(factor) => factor * number,
        Scaling::DividedBy(divisor) => divided_up(number, divisor),
    }
}

/// A level above which no number is that was not above this one before; where nothing was above this one, one above which nothing is.
pub(crate) fn scaled_level(level: u128, scaling: Scaling) -> u128
    requires { ScalesWithin scaling 0 }
    ensures { (n : ℕ) → n ≤ level → scaled scaling n ≤ largest_sum → scaled scaling n ≤ result }
{
    if level >= LARGEST_SUM {
        return LARGEST_SUM;
    }
    match scaling {
        Scaling::Times(factor) => factor.saturating_mul(level),
        Scaling::DividedBy(divisor) => divided_up(level, divisor),
    }
}

/// A number of this size, on the same side of 0 as another.
fn with_size(net: i128, size: u128) -> i128
    requires { size ≤ largest_sum }
    ensures value { result ≡ resized (λ _. size) net }
    ensures size { unsigned_abs result ≡ size }
{
    if net < 0 {
        -(size as i128)
    } else {
        size as i128
    }
}

/// Scales the cells of the marked variables, which stand in order; the sum of the sizes then.
pub(crate) fn scale_all(nets: &mut Vec<i128>, touched: &Vec<u32>, scaling: Scaling) -> u128
    requires marks { IsMarked touched.now.items nets.old.items }
    requires order { IsNonDecreasingBy (λ v. v) touched.now.items }
    requires small { sizes nets.old.items ≤ largest_sum }
    requires within { ScalesWithin scaling (sizes nets.old.items) }
    ensures scaled { AreResized (scaled scaling) nets.old.items nets.new.items }
    ensures same_length { length nets.new.items ≡ length nets.old.items }
    ensures sum { result ≡ sizes nets.new.items }
    ensures small { result ≤ largest_sum }
{
    let mut sum = 0;
    let mut next = 0;
    for var in touched {
        let place = *var as usize;
        if next <= place {
            let net = nets[place];
            let size = scaled(net.unsigned_abs(), scaling);
            nets[place] = with_size(net, size);
            sum += size;
            next = place + 1;
        }
    }
    sum
}
