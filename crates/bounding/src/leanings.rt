//! To which literals the best point of the relaxation leads a search.
//!
//! A variable leans to the value that is nearest to its own. Until there is a solution each of them does; then values near the middle say
//! little, unless the point is whole, and so is a solution itself. What a dive prefers are the variables that the point has between their bounds.

use super::effort::Aim;
use super::standing::Standing;
use linear::{Lit, Var};
use relaxation::{Fixed, Relaxation};
use std::alloc::{AllocError, Global};

/// Values that are this near to 0 or 1 are taken for whole ones, in units of `2^-32`.
const WHOLE: i64 = 1 << 12;

/// Where there is a solution, a value leads a search only if it is so far from the middle: 5/16, in units of `2^-32`.
const CLEAR: i64 = 5 << 28;

/// The literals to which the last point leads.
#[derive(Debug, Drop)]
pub(crate) struct Leanings {
    /// How many variables there are.
    variables: u32,
    literals: Vec<Lit>,
    /// What a dive may decide next, the first one first.
    preferred: Vec<Lit>,
}

/// How far a value is from the middle, in units of `2^-32`.
fn distance_from_middle(value: Fixed) -> i64 {
    value
        .units()
        .saturating_sub(Fixed::HALF.units())
        .saturating_abs()
}

/// What a value lacks to 1, in units of `2^-32`.
fn lack(value: Fixed) -> i64 {
    Fixed::ONE.units().saturating_sub(value.units())
}

/// Whether a value is about 0 or 1.
fn is_whole(value: Fixed) -> bool {
    let from_end = Fixed::HALF
        .units()
        .saturating_sub(distance_from_middle(value));
    from_end.saturating_abs() <= WHOLE
}

/// Whether a variable is free, and the point has it between its bounds.
fn is_open(relaxation: &Relaxation, standing: &Standing<'_>, variable: Var) -> bool {
    standing.leaves_free(variable) && !is_whole(relaxation.value(variable))
}

impl Leanings {
    /// No point yet, of so many variables.
    pub(crate) fn new(alloc: Global, variables: u32) -> Self {
        Leanings {
            variables,
            literals: Vec::new(alloc),
            preferred: Vec::new(alloc),
        }
    }

    /// Notes to which literals the point of the last call leads.
    pub(crate) fn lean(
        &mut self,
        relaxation: &Relaxation,
        standing: &Standing<'_>,
        aim: Aim,
    ) -> Result<(), AllocError> {
        self.literals.clear();
        let follows_all = aim == Aim::Any || self.is_whole_point(relaxation, standing);
        for number in 0..self.variables {
            let variable = Var(number);
            let value = relaxation.value(variable);
            let is_clear = follows_all || distance_from_middle(value) >= CLEAR;
            if is_clear && standing.leaves_free(variable) {
                self.literals.push(Lit {
                    var: variable,
                    negated: value.units() <= Fixed::HALF.units(),
                })?;
            }
        }
        Ok(())
    }

    /// Whether the point has no free variable between its bounds.
    fn is_whole_point(&self, relaxation: &Relaxation, standing: &Standing<'_>) -> bool {
        for number in 0..self.variables {
            if is_open(relaxation, standing, Var(number)) {
                return false;
            }
        }
        true
    }

    /// Notes the free variables that the point of the last call has between their bounds, as literals that are true at 1, those that are nearest
    /// to 1 first.
    pub(crate) fn prefer(
        &mut self,
        relaxation: &Relaxation,
        standing: &Standing<'_>,
    ) -> Result<(), AllocError> {
        self.preferred.clear();
        for number in 0..self.variables {
            let variable = Var(number);
            if is_open(relaxation, standing, variable) {
                self.preferred.push(Lit {
                    var: variable,
                    negated: false,
                })?;
            }
        }
        self.preferred
            .sort_by_key(|literal| lack(relaxation.value(literal.var)))
    }

    /// Prefers nothing any more.
    pub(crate) fn prefer_none(&mut self) {
        self.preferred.clear();
    }

    /// The literals to which the last point leads.
    pub(crate) fn literals(&self) -> &[Lit] {
        self.literals.as_slice()
    }

    /// What a dive may decide next, the first one first.
    pub(crate) fn preferred(&self) -> &[Lit] {
        self.preferred.as_slice()
    }
}
