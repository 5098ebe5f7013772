//! The adviser of one search: its calls of the relaxation, and what comes of them.
//!
//! A call is made where a round of cuts goes on (`root_cuts`), or where the `schedule` says so. What it ends with is looked at here: multipliers are
//! summed up (`sums`), a point leads the search (`leanings`) and may violate cuts.

ghost use Rattle.std.specs.Prelude.{◌≡◌, IfOk};
ghost use Rattle.bounding.specs.Advice.{IsBorneOut};

use super::advice::{Advice, Figures, Node};
use super::leanings::Leanings;
use super::relaxed_problem::RelaxedProblem;
use super::root_cuts::RootCuts;
use super::schedule::Schedule;
use super::size::largest_size;
use super::standing::Standing;
use super::sums::sum_up;
use kernel::Kernel;
use linear::{Integer, Lit, Problem};
use propagate::{Id, Propagator};
use relaxation::{End, Limits};
use std::alloc::{AllocError, Global};

/// An adviser, for one search of one problem.
#[derive(Drop)]
pub struct Adviser {
    alloc: Global,
    relaxed: RelaxedProblem,
    root_cuts: RootCuts,
    schedule: Schedule,
    leanings: Leanings,
    bound: Option<Integer>,
    figures: Figures,
}

impl Adviser {
    ghost use Rattle.std.specs.Prelude.{IfOk, IfSome};
    ghost use Rattle.bounding.specs.Advice.{IsBorneOut};

    /// The adviser of a problem whose file's constraints a kernel has. None where the problem is too large for one: with an objective, above
    /// 500,000 variables or 1,000,000 terms; without one, above 20,000 variables or 60,000 terms.
    pub fn new<'a, P: Propagator>(
        alloc: Global,
        problem: &Problem,
        kernel: &Kernel<'a, P>,
    ) -> Result<Option<Self>, AllocError> {
        let variables = problem.names().len();
        let size = largest_size(problem);
        if variables > size.variables {
            return Ok(None);
        }
        let mut relaxed = RelaxedProblem::new(alloc, problem)?;
        let Some(terms) = relaxed.add_file(alloc, kernel, size.terms)? else {
            return Ok(None);
        };
        let schedule = Schedule::new(problem, relaxed.sources.file_rows(), terms);
        Ok(Some(Adviser {
            alloc,
            relaxed,
            root_cuts: RootCuts::new(alloc, kernel, variables)?,
            schedule,
            leanings: Leanings::new(alloc, variables as u32),
            bound: None,
            figures: Figures::new(),
        }))
    }

    /// Takes note of an improving solution, which is the last step that the kernel applied: from now on better ones are looked for.
    pub fn improve<'a, P: Propagator>(&mut self, kernel: &Kernel<'a, P>) {
        let Ok(id) = Id::try_from(kernel.last_id()) else {
            return;
        };
        if let (Some(value), Some(constraint)) = (kernel.least_value(), kernel.constraint(id)) {
            self.relaxed.sources.improve(id, value, constraint);
            self.schedule.note_solution();
        }
    }

    /// Takes note of a cut, whose line is the last step that the kernel applied: from now on its constraint is a row.
    ///
    /// `AllocError` comes where a growth was refused. The cut is no row then.
    pub fn take_cut<'a, P: Propagator>(
        &mut self,
        kernel: &Kernel<'a, P>,
    ) -> Result<(), AllocError> {
        let Ok(id) = Id::try_from(kernel.last_id()) else {
            return Ok(());
        };
        match kernel.constraint(id) {
            Some(constraint) => self.root_cuts.add_row(&mut self.relaxed, id, constraint),
            None => Ok(()),
        }
    }

    /// Takes the ids of the cuts that are no rows any more since they had slack for long: no line will cite them from now on, and they may be
    /// deleted.
    pub fn take_slack_cuts(&mut self) -> Vec<Id> {
        self.root_cuts.take_slack()
    }

    /// Solves the relaxation at a node, where that is due. The line of a conflict derives a constraint that has negative slack under
    /// what stands, and that of a forcing one a constraint that forces a literal there. At the root, once there was a conflict, cuts may
    /// come, one a call: each is to be logged and given to `take_cut`, and the call to be made again.
    ///
    /// `AllocError` comes where a growth was refused. The adviser may be asked again then.
    pub fn ask<'a, P: Propagator>(
        &mut self,
        kernel: &Kernel<'a, P>,
        node: Node<'_>,
    ) -> Result<Advice, AllocError>
        ensures { IfOk result (IsBorneOut kernel.now.state node.entry.standing.now) }
    {
        if let Some(items) = self.root_cuts.waiting(kernel, &self.relaxed, node)? {
            self.figures.count_cut();
            return Ok(Advice::Cut(items));
        }
        let before = self.relaxed.relaxation.work_done();
        let Some(limits) = self.limits(before, node) else {
            return Ok(Advice::Nothing);
        };
        let advice = self.call(kernel, node, limits)?;
        self.root_cuts.go_on(&advice);
        self.count(&advice, node, before);
        Ok(advice)
    }

    /// What a call may do at a node, where so much was done so far: it is the next round at the root, or it is due by the schedule.
    fn limits(&mut self, before: u64, node: Node<'_>) -> Option<Limits> {
        if let Some(limits) = self.root_cuts.next_round(before) {
            return Some(limits);
        }
        let limits = self.schedule.limits(before, node, self.relaxed.aim())?;
        if self.schedule.wants_cuts(node) {
            self.root_cuts
                .begin(before, self.schedule.at_root(), limits);
        }
        Some(limits)
    }

    /// A call at a node, which may do so much.
    fn call<'a, P: Propagator>(
        &mut self,
        kernel: &Kernel<'a, P>,
        node: Node<'_>,
        limits: Limits,
    ) -> Result<Advice, AllocError>
        ensures { IfOk result (IsBorneOut kernel.now.state node.entry.standing.now) }
    {
        let standing = Standing::of(self.alloc, node.standing)?;
        let end = self.relaxed.solve(node.standing, limits)?;
        self.leanings.prefer_none();
        let advice = self.answer(kernel, &standing, end)?;
        if let Advice::Values = advice
            && self.schedule.is_dive(node)
        {
            self.leanings.prefer(&self.relaxed.relaxation, &standing)?;
        }
        Ok(advice)
    }

    /// What the end of a call comes to.
    fn answer<'a, P: Propagator>(
        &mut self,
        kernel: &Kernel<'a, P>,
        standing: &Standing<'_>,
        end: End,
    ) -> Result<Advice, AllocError>
        ensures { IfOk result (IsBorneOut kernel.now.state standing.now) }
    {
        match end {
            End::Infeasible | End::CutOff => {
                let found = self.sum_up(kernel, standing)?;
                Ok(found.unwrap_or(Advice::Nothing))
            }
            End::Values => {
                self.lean(standing)?;
                if !self.relaxed.relaxation.forces_a_literal() {
                    return self.cut(kernel, standing);
                }
                let found = self.sum_up(kernel, standing)?;
                Ok(found.unwrap_or(Advice::Values))
            }
            End::Limit => Ok(Advice::Nothing),
        }
    }

    /// The line of the multipliers of the last call, if it says something under the literals that stand.
    fn sum_up<'a, P: Propagator>(
        &mut self,
        kernel: &Kernel<'a, P>,
        standing: &Standing<'_>,
    ) -> Result<Option<Advice>, AllocError>
        ensures { IfOk result (λ found. IfSome found (IsBorneOut kernel.now.state standing.now)) }
    {
        let found = sum_up(self.alloc, kernel, self.relaxed.point(), standing)?;
        if found.is_none() {
            self.figures.count_failure();
        }
        Ok(found)
    }

    /// Notes to which literals the point of the last call leads.
    fn lean(&mut self, standing: &Standing<'_>) -> Result<(), AllocError> {
        let aim = self.relaxed.aim();
        self.leanings.lean(&self.relaxed.relaxation, standing, aim)
    }

    /// The best cut that the point of the last call violates, if it was that of a round at the root.
    fn cut<'a, P: Propagator>(
        &mut self,
        kernel: &Kernel<'a, P>,
        standing: &Standing<'_>,
    ) -> Result<Advice, AllocError>
        ensures { IfOk result (IsBorneOut kernel.now.state standing.now) }
    {
        match self.root_cuts.best(kernel, &mut self.relaxed)? {
            Some(items) => Ok(Advice::Cut(items)),
            None => Ok(Advice::Values),
        }
    }

    /// Counts a call before which so much was done, and what came of it.
    fn count(&mut self, advice: &Advice, node: Node<'_>, before: u64) {
        self.figures.count_call(advice);
        let cost = self.relaxed.relaxation.work_done().saturating_sub(before);
        self.schedule.note(node, cost, advice);
        if node.decisions == 0 {
            self.note_bound(advice);
        }
    }

    /// Notes the bound of a call at the root.
    fn note_bound(&mut self, advice: &Advice) {
        if let Advice::Values | Advice::Forcing(_) | Advice::Cut(_) = advice {
            self.bound = Some(self.relaxed.relaxation.bound());
        }
    }

    /// The literals to which the values of the last point lead: one of each variable that was free, or of some where there is a
    /// solution and the values say little of the others.
    pub fn leanings(&self) -> &[Lit] {
        self.leanings.literals()
    }

    /// The literals that a dive may decide next, the first of them that is free first: those of the variables that the last point has between
    /// their bounds. None where no dive goes on.
    pub fn preferred(&self) -> &[Lit] {
        self.leanings.preferred()
    }

    /// The bound of the last relaxation at the root, rounded down, if there was one. It may be wrong: for progress lines, and to begin anew where a
    /// solution is about as good.
    pub fn bound(&self) -> Option<Integer> {
        self.bound
    }

    /// What came of the calls so far.
    pub fn figures(&self) -> Figures {
        self.figures
    }
}
