//! Chvátal-Gomory cuts from rows of the tableau.
//!
//! Where a basic variable is not whole, the tight rows times the fractional parts of its numbers sum up to a constraint whose coefficients are
//! about multiples of a common denominator, but whose degree is not: divided by it and rounded up, the degree cuts the point off. The
//! numbers are known in fixed point alone, so the denominator is tried out. What a coefficient is above a multiple is either rounded up by the
//! division, or weakened away before it by the axiom of the opposite literal, whichever loses less at the point.

ghost use Rattle.std.specs.Prelude.{IfOk, OnOk};
ghost use Rattle.proof_rules.specs.Expression.{Given, IsPostfixOf};
ghost use Rattle.row_sums.specs.Derived.{Derives};
ghost use Rattle.row_sums.specs.Lines.{LeavesItsStack};

use super::violation::literal_value;
use kernel::Kernel;
use linear::Seq;
use normal_form::{Normal, NormalTerm};
use proof_rules::StepFault;
use proof_steps::Item;
use propagate::Propagator;
use relaxation::{Fixed, FractionalMultiplier, Relaxation, Row, Source, WholeMultiplier};
use row_sums::{Line, Sources, divided_line};
use std::alloc::{AllocError, Global};

/// Up to this denominators are tried out.
const GREATEST_DENOMINATOR: u64 = 40;

/// The divisor where none of them is one.
const ROUGH_DENOMINATOR: u64 = 1_000;

/// A multiple that is this near to a whole number is taken for it: about `10^-5`, in units of `2^-32`.
const NEAR: u64 = 42_950;

/// One, in units of `2^-32`.
const UNITS_OF_ONE: u64 = 1 << 32;

/// How many rows are summed up at most.
const MOST_ROWS: usize = 400;

/// How many basic variables are looked at.
const MOST_VARIABLES: usize = 60;

/// Basic variables are looked at where they are so near to a half: 0.48, in units of `2^-32`.
const FRACTIONAL: i64 = 2_061_584_302;

/// Rows times whole numbers, and the number by which their sum is divided.
#[derive(Debug, Drop)]
pub(crate) struct Rounding {
    multipliers: Vec<WholeMultiplier>,
    divisor: u64,
}

impl Rounding {
    /// A row that is divided by a number.
    pub(crate) fn of_row(alloc: Global, row: Row, divisor: u64) -> Result<Self, AllocError> {
        let multiplier = WholeMultiplier {
            source: Source::Row(row),
            factor: 1,
        };
        Ok(Rounding {
            multipliers: vec![in alloc; multiplier; 1]?,
            divisor,
        })
    }

    /// The row, where there is one alone.
    pub(crate) fn only_row(&self) -> Option<Row> {
        match self.multipliers.as_slice() {
            [
                WholeMultiplier {
                    source: Source::Row(row),
                    factor: _,
                },
            ] => Some(*row),
            _ => None,
        }
    }
}

/// A basic variable that is not whole.
#[derive(Clone, Copy, Debug)]
struct Basic {
    place: usize,
    /// How far its value is from a half, in units of `2^-32`.
    from_half: i64,
}

/// Whether a fraction times a denominator is about a whole number.
fn is_near(fraction: u32, denominator: u64) -> bool {
    let rest = u64::from(fraction).wrapping_mul(denominator) % UNITS_OF_ONE;
    rest.min(UNITS_OF_ONE.saturating_sub(rest)) <= NEAR
}

/// Whether all fractions times a denominator are about whole numbers.
fn are_near(parts: &[FractionalMultiplier], denominator: u64) -> bool {
    for part in parts {
        if !is_near(part.fraction, denominator) {
            return false;
        }
    }
    true
}

/// The least common denominator of some fractions, about; a rough one where that is large.
fn common_denominator(parts: &[FractionalMultiplier]) -> u64 {
    for denominator in 2..GREATEST_DENOMINATOR + 1 {
        if are_near(parts, denominator) {
            return denominator;
        }
    }
    ROUGH_DENOMINATOR
}

/// The numerators of some fractions, rounded; those that are 0 are left out.
fn numerators(
    alloc: Global,
    parts: &[FractionalMultiplier],
    denominator: u64,
) -> Result<Vec<WholeMultiplier>, AllocError> {
    let mut multipliers = Vec::with_capacity(alloc, parts.len())?;
    for part in parts {
        let product = u64::from(part.fraction).saturating_mul(denominator);
        let factor = product.saturating_add(UNITS_OF_ONE / 2) / UNITS_OF_ONE;
        if factor > 0 {
            multipliers.push(WholeMultiplier {
                source: Source::Row(part.row),
                factor,
            })?;
        }
    }
    Ok(multipliers)
}

/// Adds the rounding of the sum of rows by their fractional parts, where there are some and not too many.
fn add_rounding(
    alloc: Global,
    parts: &[FractionalMultiplier],
    found: &mut Vec<Rounding>,
) -> Result<(), AllocError> {
    if parts.is_empty() || parts.len() > MOST_ROWS {
        return Ok(());
    }
    let divisor = common_denominator(parts);
    let multipliers = numerators(alloc, parts, divisor)?;
    found.push(Rounding {
        multipliers,
        divisor,
    })?;
    Ok(())
}

/// The fractional parts of the opposite numbers.
fn opposites(
    alloc: Global,
    parts: &[FractionalMultiplier],
) -> Result<Vec<FractionalMultiplier>, AllocError> {
    let mut found = Vec::with_capacity(alloc, parts.len())?;
    for part in parts {
        found.push(part.opposite())?;
    }
    Ok(found)
}

/// The basic variables that are not whole, the one that is nearest to a half first.
fn fractional_variables(alloc: Global, relaxation: &Relaxation) -> Result<Vec<Basic>, AllocError> {
    let mut found = Vec::new(alloc);
    for place in 0..relaxation.basic_count() {
        if let Some(variable) = relaxation.basic_variable(place) {
            let value = relaxation.value(variable).units();
            let from_half = value.saturating_sub(Fixed::HALF.units()).saturating_abs();
            if from_half <= FRACTIONAL {
                found.push(Basic { place, from_half })?;
            }
        }
    }
    found.sort_by_key(|basic| basic.from_half)?;
    found.truncate(MOST_VARIABLES);
    Ok(found)
}

/// The roundings that the point of the last call suggests.
pub(crate) fn roundings(
    alloc: Global,
    relaxation: &Relaxation,
) -> Result<Vec<Rounding>, AllocError> {
    let mut found = Vec::new(alloc);
    for basic in &fractional_variables(alloc, relaxation)? {
        let parts = relaxation.fractional_multipliers(alloc, basic.place)?;
        add_rounding(alloc, parts.as_slice(), &mut found)?;
        let opposites = opposites(alloc, parts.as_slice())?;
        add_rounding(alloc, opposites.as_slice(), &mut found)?;
    }
    Ok(found)
}

/// What a coefficient is above a multiple of the divisor, at the opposite literal, where it is better weakened away than rounded up.
fn weakening(term: NormalTerm, relaxation: &Relaxation, divisor: u128) -> Option<NormalTerm> {
    let above = term.coef.checked_rem(divisor)?;
    let value = u128::from(literal_value(relaxation, term.literal()).unsigned_abs());
    let rest = u128::from(UNITS_OF_ONE).saturating_sub(value);
    let lost_by_weakening = above.saturating_mul(rest);
    let lost_by_rounding = divisor.saturating_sub(above).saturating_mul(value);
    if above == 0 || lost_by_weakening >= lost_by_rounding {
        return None;
    }
    Some(NormalTerm {
        coef: above,
        var: term.var,
        negated: !term.negated,
    })
}

/// All that is to be weakened away.
fn weakenings(
    alloc: Global,
    sum: &Normal,
    relaxation: &Relaxation,
    divisor: u128,
) -> Result<Vec<NormalTerm>, AllocError> {
    let mut found = Vec::new(alloc);
    for place in 0..sum.len() {
        if let Some(term) = weakening(sum.term(place), relaxation, divisor) {
            found.push(term)?;
        }
    }
    Ok(found)
}

/// Adds the axiom of a literal so many times.
fn add_axiom(alloc: Global, line: &mut Line<'_>, term: NormalTerm) -> Result<(), StepFault>
    ensures { (given : Given) → LeavesItsStack given line.old
        → OnOk result (LeavesItsStack given line.new) }
{
    line.axiom(alloc, term.literal())?;
    line.multiply(alloc, term.coef)?;
    line.add(alloc)
}

/// Adds axioms to the constraint of a line.
fn add_axioms(alloc: Global, line: &mut Line<'_>, axioms: &[NormalTerm]) -> Result<(), StepFault>
    ensures { (given : Given) → LeavesItsStack given line.old
        → OnOk result (LeavesItsStack given line.new) }
{
    for axiom in axioms {
        add_axiom(alloc, line, *axiom)?;
    }
    Ok(())
}

/// How many terms the rows of a rounding have together.
pub(crate) fn term_count<'a, P: Propagator>(
    kernel: &Kernel<'a, P>,
    sources: &Sources,
    rounding: &Rounding,
) -> usize {
    let mut count: usize = 0;
    for multiplier in &rounding.multipliers {
        if let Some(cited) = sources.cited(multiplier.source) {
            if let Some(constraint) = kernel.constraint(cited.id) {
                count = count.saturating_add(constraint.len());
            }
        }
    }
    count
}

/// What a sum comes to with its items, once what is above multiples of a divisor is weakened away, or rounded up by the division.
fn round(
    alloc: Global,
    items: Seq<Item>,
    sum: Normal,
    relaxation: &Relaxation,
    divisor: u128,
) -> Result<(Seq<Item>, Normal), StepFault>
    ensures { (given : Given) → IsPostfixOf given items sum → IfOk result (λ p. IsPostfixOf given p.0 p.1) }
{
    let axioms = weakenings(alloc, &sum, relaxation, divisor)?;
    let mut line = Line::resume(alloc, items, sum)?;
    add_axioms(alloc, &mut line, axioms.as_slice())?;
    line.divide(alloc, divisor)?;
    line.saturate(alloc)?;
    line.finish(alloc)
}

/// Writes and runs the line of a rounding: the rows summed up, what is weakened away, the division.
pub(crate) fn derive<'a, P: Propagator>(
    alloc: Global,
    kernel: &Kernel<'a, P>,
    sources: &Sources,
    relaxation: &Relaxation,
    rounding: &Rounding,
) -> Result<(Seq<Item>, Normal), StepFault>
    ensures { IfOk result (λ p. Derives kernel.now.state p.0 p.1) }
{
    let line = divided_line(alloc, kernel, sources, rounding.multipliers.as_slice(), 1)?;
    let (items, sum) = line.finish(alloc)?;
    round(alloc, items, sum, relaxation, u128::from(rounding.divisor))
}
