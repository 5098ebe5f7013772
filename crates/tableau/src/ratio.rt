//! The ratio test: what enters.
//!
//! What leaves has to grow, so what enters is at a bound, or a slack at 0, and makes it grow by moving off. Which ones may: a dual
//! simplex keeps every reduced cost and multiplier on its side, so one whose ratio to its entry is least comes first. By the entry is
//! divided, so it is to be large: each dual may be wrong by a little, and of all that come no later then the one of the largest entry enters
//! (Harris). Where all that may move, moved to its other
//! bound, does not repair the violation, nothing can: the row itself shows that the relaxation is infeasible.

use super::domain::{Bound, Domain, domain_of};
use super::duals::Duals;
use super::point::Point;
use super::pricing::Violation;
use super::tableau::TableauRow;
use factorisation::Entering;
use fixed_point::{Entry, Fixed};
use std::alloc::{AllocError, Global};

/// Entries up to this are not divided by, in units of `2^-32`.
const LEAST_ENTRY: i64 = 32;

/// By how much a dual may be wrong after a step, in units of `2^-32`.
const ALLOWED: i64 = 1 << 10;

/// What may enter: its entry in the tableau row, and how much of the row its dual bears.
#[derive(Clone, Copy, Debug)]
pub struct Candidate {
    /// What may enter.
    pub entering: Entering,
    /// Its entry in the tableau row, by which is divided.
    pub entry: Fixed,
    /// What its dual can bear, over the size of its entry; not below 0.
    pub ratio: Fixed,
    /// What its dual can bear: its multiplier, or its reduced cost off its bound.
    borne: Fixed,
}

/// All that may enter in a step.
#[derive(Debug, Drop)]
pub struct Candidates {
    list: Vec<Candidate>,
    /// How much all of them together can repair, in units of `2^-32`.
    room: i128,
    /// Whether a slack is among them, which has no other bound.
    has_slack: bool,
}

impl Candidates {
    /// None yet.
    pub fn new(alloc: Global) -> Self {
        Candidates {
            list: Vec::new(alloc),
            room: 0,
            has_slack: false,
        }
    }

    /// How many there are.
    pub fn len(&self) -> usize {
        self.list.len()
    }

    /// What enters, if all that may enter can repair the violation.
    ///
    /// `AllocError` comes where a growth was refused: the list is not whole then.
    pub fn choose(
        &mut self,
        violation: Violation,
        row: &TableauRow,
        duals: &Duals,
        point: &Point,
        domains: &[Domain],
    ) -> Result<Option<Candidate>, AllocError> {
        self.list.clear();
        self.room = 0;
        self.has_slack = false;
        self.gather_slacks(row.weights(), duals)?;
        self.gather_variables(row.entries(), duals, point, domains)?;
        if !self.has_slack && self.room < i128::from(violation.size.units()) {
            return Ok(None);
        }
        Ok(self.largest_entry())
    }

    /// Adds the slacks that make what leaves grow.
    fn gather_slacks(&mut self, weights: &[Entry], duals: &Duals) -> Result<(), AllocError> {
        for weight in weights {
            if weight.value.units() > LEAST_ENTRY {
                let multiplier = duals.multiplier(weight.place).greater(Fixed::ZERO);
                self.has_slack = true;
                self.list.push(Candidate {
                    entering: Entering::Slack(weight.place),
                    entry: weight.value,
                    ratio: multiplier.over(weight.value),
                    borne: multiplier,
                })?;
            }
        }
        Ok(())
    }

    /// Adds the free variables that make what leaves grow by moving off their bounds.
    fn gather_variables(
        &mut self,
        entries: &[Entry],
        duals: &Duals,
        point: &Point,
        domains: &[Domain],
    ) -> Result<(), AllocError> {
        for entry in entries {
            let size = entry.value.size();
            if size.units() > LEAST_ENTRY && domain_of(domains, entry.place).is_free() {
                let bound = bound_at(point.value(entry.place));
                if bound.lets_grow(entry.value) {
                    let cost = bound.cost_of_moving(duals.reduced_cost(entry.place));
                    self.add_variable(*entry, size, cost)?;
                }
            }
        }
        Ok(())
    }

    /// Adds a variable.
    fn add_variable(&mut self, entry: Entry, size: Fixed, cost: Fixed) -> Result<(), AllocError> {
        let borne = cost.greater(Fixed::ZERO);
        self.room = self.room.saturating_add(i128::from(size.units()));
        self.list.push(Candidate {
            entering: Entering::Variable(entry.place),
            entry: entry.value,
            ratio: borne.over(size),
            borne,
        })?;
        Ok(())
    }

    /// The largest ratio at which no dual is wrong by more than is allowed.
    fn largest_ratio(&self) -> Fixed {
        let mut largest = Fixed::LARGEST;
        for candidate in &self.list {
            let ratio = candidate
                .borne
                .plus(Fixed::of_units(ALLOWED))
                .over(candidate.entry.size());
            if largest.is_above(ratio) {
                largest = ratio;
            }
        }
        largest
    }

    /// Of those whose ratio is not above that, the one of the largest entry.
    fn largest_entry(&self) -> Option<Candidate> {
        let limit = self.largest_ratio();
        let mut size = Fixed::ZERO;
        let mut found = None;
        for candidate in &self.list {
            if !candidate.ratio.is_above(limit) && candidate.entry.size().is_above(size) {
                size = candidate.entry.size();
                found = Some(*candidate);
            }
        }
        found
    }
}

/// The bound at which a free variable stands that is not basic.
fn bound_at(value: Fixed) -> Bound {
    if value.is_zero() {
        Bound::Lower
    } else {
        Bound::Upper
    }
}
