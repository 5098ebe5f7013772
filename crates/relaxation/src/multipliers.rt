//! What is handed out: multipliers of constraints, and their rounding to whole numbers.
//!
//! Where a relaxation is infeasible, some rows times multipliers above 0 sum up to a row that no point satisfies (Farkas). Where its
//! bound is above the best value, the rows times the duals, with the constraint that asks for a better solution, sum up to one that
//! is false ("Learn to relax", Devriendt, Gleixner and Nordström 2021). Both are found in fixed point, of scaled rows, so nothing is
//! known of the sum: whoever takes the multipliers rounds them to whole numbers, sums the constraints up exactly, and looks whether the sum is
//! false. Few bits are tried first, since small numbers make short constraints; where those do not serve, more.

ghost use Rattle.std.specs.Prelude.{◌≤◌, ◌^◌, All, IfOk};
ghost use Rattle.relaxation.specs.Whole.{IsWhole};

use basis::bit_length;
use fixed_point::Fixed;
use std::alloc::{AllocError, Global};

/// A row, by the number that `add_row` gave it.
#[derive(Clone, Copy, Debug, PartialEq, Eq)]
pub struct Row(pub usize);

/// The constraint that a multiplier belongs to.
#[derive(Clone, Copy, Debug, PartialEq, Eq)]
pub enum Source {
    /// The constraint of a row.
    Row(Row),
    /// The constraint that a solution is better than the best one: that the objective is at most the upper bound of the call.
    Improving,
}

/// A constraint, and by what it is to be multiplied: `value * 2^-exponent`.
#[derive(Clone, Copy, Debug)]
pub struct Multiplier {
    source: Source,
    value: Fixed,
    exponent: u32,
}

impl Multiplier {
    pub(crate) fn new(source: Source, value: Fixed, exponent: u32) -> Self {
        Multiplier {
            source,
            value,
            exponent,
        }
    }

    /// The multiplier of the scaled row.
    pub(crate) fn value(self) -> Fixed {
        self.value
    }

    /// The constraint that is multiplied.
    pub fn source(self) -> Source {
        self.source
    }
}

/// A constraint, and a whole number above 0 by which it is to be multiplied.
#[derive(Clone, Copy, Debug, PartialEq, Eq)]
pub struct WholeMultiplier {
    /// The constraint that is multiplied.
    pub source: Source,
    /// From 1 to `2^52`.
    pub factor: u64,
}

/// The greatest exponent.
fn greatest_exponent(multipliers: &[Multiplier]) -> u32 {
    let mut greatest: u32 = 0;
    for multiplier in multipliers {
        greatest = greatest.max(multiplier.exponent);
    }
    greatest
}

/// A multiplier times `2^exponent`, up to `2^126`.
fn lifted(multiplier: Multiplier, exponent: u32) -> u128 {
    let units = multiplier.value.units().max(0).unsigned_abs();
    let lift = exponent.saturating_sub(multiplier.exponent).min(79);
    u128::from(units).wrapping_shl(lift)
}

/// The greatest multiplier times `2^exponent`.
fn greatest(multipliers: &[Multiplier], exponent: u32) -> u128 {
    let mut greatest: u128 = 0;
    for multiplier in multipliers {
        greatest = greatest.max(lifted(*multiplier, exponent));
    }
    greatest
}

/// `2^bits * part / whole`, rounded, at most `2^bits`.
fn share(part: u128, whole: u128, bits: u32) -> u64
    requires { bits ≤ 52 }
    ensures { result ≤ 2 ^ 52 }
{
    let largest: u128 = 1 << 52;
    if whole == 0 {
        return 0;
    }
    let quotient = part.wrapping_shl(bits).saturating_add(whole / 2) / whole;
    quotient.min(largest) as u64
}

/// The multipliers as whole numbers, in the same proportions, the greatest of them `2^bits`. Those that are nearer to 0 than to 1 then are left
/// out.
///
/// `AllocError` comes where a growth was refused.
pub fn whole_multipliers(
    alloc: Global,
    multipliers: &[Multiplier],
    bits_of_greatest: u32,
) -> Result<Vec<WholeMultiplier>, AllocError>
    requires { bits_of_greatest ≤ 52 }
    ensures { IfOk result (λ whole. All IsWhole whole.items) }
{
    let exponent = greatest_exponent(multipliers);
    let greatest = greatest(multipliers, exponent);
    let cut = bit_length(greatest).saturating_sub(62);
    let whole = greatest.unbounded_shr(cut);
    let mut factors = Vec::new(alloc);
    for multiplier in multipliers {
        let part = lifted(*multiplier, exponent).unbounded_shr(cut);
        let factor = share(part, whole, bits_of_greatest);
        if factor > 0 {
            factors.push(WholeMultiplier {
                source: multiplier.source,
                factor,
            })?;
        }
    }
    Ok(factors)
}
