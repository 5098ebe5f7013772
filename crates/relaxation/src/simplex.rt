//! The dual simplex: step after step, what is violated most is repaired, at the least loss of the bound.
//!
//! Every variable lies between two bounds, so any basis whose multipliers are not negative is dual feasible once each other variable
//! stands at its better bound: the basis of an earlier call is a good begin of the next one, whatever was decided or taken back between
//! them. A call ends as soon as the bound is above the cutoff, as a violated row cannot be repaired, as nothing is violated, or as the
//! limits are reached.
//!
//! Fixed point goes wrong where pivots are small. Then the triangles of the inverse are made anew from the rows, and with them duals and point,
//! once in a call, and the step is looked for again; a pivot that is smaller still ends the call. Multipliers that are negative at the begin
//! of a call are errors too, and the empty basis takes the place of theirs.

use super::relaxation::{End, Limits, Relaxation};
use fixed_point::Fixed;
use linear::Integer;
use std::alloc::AllocError;
use tableau::{Candidate, Violation, worst_violation};

/// A pivot below this is looked for again with triangles that are made anew; like all limits here in units of `2^-32`.
const SMALL_PIVOT: i64 = 1 << 19;

/// A pivot below this is not taken.
const TINY_PIVOT: i64 = 1 << 16;

/// A tight row whose activity is above this in size tells that the triangles are to be made anew.
const RESIDUAL: i64 = 1 << 16;

/// Multipliers below minus this are errors.
const NEGATIVE: i64 = -(1 << 16);

/// After so many steps a call begins with triangles that are made anew.
const STALE: u32 = 200;

/// After so many steps the triangles are made anew at once, and a call begins with the empty basis where that is too much work.
const OVERDUE: u32 = 1_000;

/// After so many steps a call begins with duals and a point that are made anew, since their errors add up.
const REMADE: u32 = 50;

/// After each so many steps the tight rows are measured.
const MEASURED: u32 = 100;

/// What rounding may take from what a step gains, in units of `2^-32`.
const ROUNDED: i128 = 1 << 12;

/// The largest kernel.
const LARGEST_KERNEL: usize = 20_000;

/// What a call has to keep to.
#[derive(Clone, Copy)]
pub(crate) struct Call {
    /// A bound above this ends it, in units of `2^-32` of the scaled costs.
    cutoff: Option<i128>,
    /// How much may have been done at its end, about.
    work: u64,
    /// What the bound is at most, about, by what the steps have gained, in the same units.
    estimate: i128,
    /// Whether steps were made.
    has_moved: bool,
    /// Whether the triangles were made anew since something went wrong.
    is_refreshed: bool,
}

/// What the bound gains by a step, and a little more for what rounding may have lost, in units of `2^-32`.
fn gain(violation: Violation, chosen: Candidate) -> i128 {
    let gained = violation.size.times(chosen.ratio);
    i128::from(gained.size().units()).saturating_add(ROUNDED)
}

impl Relaxation {
    /// Solves the relaxation where solutions worth more than the upper bound are not looked for.
    ///
    /// `AllocError` comes where a growth was refused; the next call then begins with the empty basis.
    pub fn solve(&mut self, upper: Option<Integer>, limits: Limits) -> Result<End, AllocError> {
        let call = Call {
            cutoff: self.cutoff(upper),
            work: self.work.done().saturating_add(limits.work),
            estimate: i128::MAX,
            has_moved: false,
            is_refreshed: false,
        };
        let end = self.run(call, limits.steps);
        if end.is_err() {
            self.forget_basis();
        }
        end
    }

    /// The upper bound as a scaled cost; none where there is no objective.
    fn cutoff(&self, upper: Option<Integer>) -> Option<i128> {
        match upper {
            Some(value) if self.costs.are_given() => Some(self.costs.cutoff(value)),
            _ => None,
        }
    }

    /// Step after step, up to so many.
    fn run(&mut self, mut call: Call, steps: u32) -> Result<End, AllocError> {
        self.multipliers.clear();
        self.cutoff = call.cutoff;
        self.begin(call)?;
        for _ in 0..steps {
            if let Some(end) = self.step(&mut call)? {
                return Ok(end);
            }
        }
        if self.is_cut_off(&mut call) {
            return self.cut_off();
        }
        Ok(End::Limit)
    }

    /// Makes all anew that may have changed since the call before.
    fn begin(&mut self, call: Call) -> Result<(), AllocError> {
        if self.pivots > STALE && self.can_refactor(call) {
            self.refactor()?;
        } else if self.pivots >= OVERDUE {
            self.forget_basis();
        }
        if self.follows_domains() {
            return self.follow_domains();
        }
        let before = self.work.done();
        self.make_duals()?;
        if self.duals.least_multiplier().units() < NEGATIVE {
            self.forget_basis();
            self.make_duals()?;
        }
        self.make_point()?;
        self.work_of_making = self.work.done().saturating_sub(before);
        Ok(())
    }

    /// Whether domains are all that changed since duals and point were made, and not many steps ago.
    fn follows_domains(&self) -> bool {
        match self.steps_since_made {
            Some(steps) => steps < REMADE && self.duals.least_multiplier().units() >= NEGATIVE,
            None => false,
        }
    }

    /// One step, or how the call ends.
    fn step(&mut self, call: &mut Call) -> Result<Option<End>, AllocError> {
        if self.is_cut_off(call) {
            return Ok(Some(self.cut_off()?));
        }
        if self.work.done() > call.work || self.basis.len() >= LARGEST_KERNEL {
            return Ok(Some(End::Limit));
        }
        let Some(violation) = self.violation() else {
            return self.end_with_values(call);
        };
        let Some(chosen) = self.entering(violation)? else {
            return self.end_as_infeasible(call, violation);
        };
        self.take_step(call, violation, chosen)
    }

    /// Ends a call that is cut off.
    fn cut_off(&mut self) -> Result<End, AllocError> {
        self.note_bound_multipliers()?;
        Ok(End::CutOff)
    }

    /// Ends a call where nothing is violated, if that is so once all is measured.
    fn end_with_values(&mut self, call: &mut Call) -> Result<Option<End>, AllocError> {
        if call.has_moved && !call.is_refreshed && !self.is_accurate() {
            return self.refresh_once(call);
        }
        self.bound = self.current_bound();
        self.note_bound_multipliers()?;
        Ok(Some(End::Values))
    }

    /// Ends a call where a violation cannot be repaired, if the sum of the rows tells so. Where it does not even with triangles that
    /// are made anew, the basis is forgotten.
    fn end_as_infeasible(
        &mut self,
        call: &mut Call,
        violation: Violation,
    ) -> Result<Option<End>, AllocError> {
        self.note_farkas_multipliers(violation)?;
        if self.is_false_sum()? {
            return Ok(Some(End::Infeasible));
        }
        self.multipliers.clear();
        if call.is_refreshed {
            self.forget_basis();
            return Ok(Some(End::Limit));
        }
        self.refresh_once(call)
    }

    /// The bound that the duals tell.
    fn current_bound(&mut self) -> i128 {
        self.work.count(self.domains.len());
        self.duals.bound(
            &self.rows,
            &self.costs,
            self.domains.as_slice(),
            &self.basis,
        )
    }

    /// Whether the bound is above the cutoff, where there is one. To compute it takes a look at every variable, so it is not computed where
    /// that cannot be, by what was gained since it was computed last. It is counted as if it were, as in `following`.
    fn is_cut_off(&mut self, call: &mut Call) -> bool {
        let Some(cutoff) = call.cutoff else {
            return false;
        };
        if call.estimate <= cutoff {
            self.work.count(self.domains.len());
            return false;
        }
        self.bound = self.current_bound();
        call.estimate = self.bound.saturating_add(self.costs.all_added());
        self.bound > cutoff
    }

    /// What is violated most.
    fn violation(&mut self) -> Option<Violation> {
        self.work.count(self.basis.len());
        self.work.count(self.rows.count());
        worst_violation(
            &self.point,
            &self.basis,
            &self.norms,
            self.domains.as_slice(),
        )
    }

    /// What enters where that leaves.
    fn entering(&mut self, violation: Violation) -> Result<Option<Candidate>, AllocError> {
        self.tableau.form(
            violation.leaving,
            &self.rows,
            &self.basis,
            &self.inverse,
            &mut self.scratch,
            &mut self.work,
        )?;
        let chosen = self.candidates.choose(
            violation,
            &self.tableau,
            &self.duals,
            &self.point,
            self.domains.as_slice(),
        )?;
        self.work.count_product(4, self.candidates.len());
        Ok(chosen)
    }

    /// Makes the step, unless its pivot is too small.
    fn take_step(
        &mut self,
        call: &mut Call,
        violation: Violation,
        chosen: Candidate,
    ) -> Result<Option<End>, AllocError> {
        let pivot = chosen.entry.size();
        if pivot.units() < SMALL_PIVOT {
            if self.pivots > 0 && !call.is_refreshed {
                return self.refresh_once(call);
            }
            if pivot.units() < TINY_PIVOT {
                self.pivots = OVERDUE;
                return Ok(Some(End::Limit));
            }
        }
        self.pivot(violation, chosen)?;
        call.has_moved = true;
        call.estimate = call.estimate.saturating_add(gain(violation, chosen));
        self.count_step();
        if self.is_inaccurate() {
            return self.refresh(call);
        }
        if self.inverse.is_long() {
            return self.shorten(call);
        }
        Ok(None)
    }

    /// Makes the triangles of the inverse anew since products have become dear, and all else where the kernel has no inverse.
    fn shorten(&mut self, call: &mut Call) -> Result<Option<End>, AllocError> {
        let is_regular = self
            .inverse
            .refactor(&self.rows, &self.basis, &mut self.work)?;
        if is_regular {
            return Ok(None);
        }
        self.forget_basis();
        self.make_duals()?;
        self.make_point()?;
        call.estimate = i128::MAX;
        Ok(None)
    }

    /// Counts a step.
    fn count_step(&mut self) {
        self.steps_since_made = match self.steps_since_made {
            Some(steps) => steps.checked_add(1),
            None => None,
        };
    }

    /// Whether all is to be made anew, asked after each so many steps.
    fn is_inaccurate(&mut self) -> bool {
        if self.pivots % MEASURED != 0 {
            return false;
        }
        self.pivots >= OVERDUE || self.largest_residual().units() > RESIDUAL
    }

    /// The largest size of the activity of a tight row, which is to be 0.
    fn largest_residual(&mut self) -> Fixed {
        let mut largest = Fixed::ZERO;
        for row in self.basis.tight() {
            largest = largest.greater(self.point.measure(&self.rows, *row).size());
            self.work.count(self.rows.row(*row).len());
        }
        largest
    }

    /// Makes all anew since something went wrong.
    fn refresh_once(&mut self, call: &mut Call) -> Result<Option<End>, AllocError> {
        call.is_refreshed = true;
        self.refresh(call)
    }

    /// Makes all anew; the end of the call where that is too much work.
    fn refresh(&mut self, call: &mut Call) -> Result<Option<End>, AllocError> {
        if !self.can_refactor(*call) {
            self.pivots = OVERDUE;
            return Ok(Some(End::Limit));
        }
        self.refactor()?;
        self.make_duals()?;
        self.make_point()?;
        call.estimate = i128::MAX;
        Ok(None)
    }

    /// Whether a refactorisation is within what a call may do, about: it is taken to do as much as the last one.
    fn can_refactor(&self, call: Call) -> bool {
        self.work.done().saturating_add(self.inverse.cost()) <= call.work
    }

    /// Makes the triangles of the inverse anew; where the kernel has none, it becomes the empty basis.
    fn refactor(&mut self) -> Result<(), AllocError> {
        self.pivots = 0;
        self.steps_since_made = None;
        let is_regular = self
            .inverse
            .refactor(&self.rows, &self.basis, &mut self.work)?;
        if !is_regular {
            self.forget_basis();
        }
        Ok(())
    }

    /// Makes it the empty basis.
    pub(crate) fn forget_basis(&mut self) {
        self.pivots = 0;
        self.steps_since_made = None;
        self.basis.clear();
        self.inverse.clear();
        self.duals.clear();
        self.norms.clear();
    }

    /// Makes the duals of the basis.
    fn make_duals(&mut self) -> Result<(), AllocError> {
        self.duals.make(
            &self.rows,
            &self.costs,
            &self.basis,
            &self.inverse,
            &mut self.scratch,
            &mut self.work,
        )
    }

    /// Makes the point of the basis.
    fn make_point(&mut self) -> Result<(), AllocError> {
        self.point.make(
            &self.rows,
            self.domains.as_slice(),
            &self.basis,
            &self.inverse,
            &self.duals,
            &mut self.scratch,
            &mut self.work,
        )?;
        self.steps_since_made = Some(0);
        Ok(())
    }
}
