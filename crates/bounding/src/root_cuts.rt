//! Cuts at the root: found in rounds, handed out one after another, and rows of the relaxation from then on.
//!
//! Each is to be logged before it becomes a row, so the search asks once for each of them. What is left of a round when the search goes below the
//! root is forgotten.

ghost use Rattle.std.specs.Prelude.{IfOk, IfSome};
ghost use Rattle.row_sums.specs.Derived.{IsDerivable};

use super::advice::{Advice, Node};
use super::relaxed_problem::RelaxedProblem;
use super::rounds::Rounds;
use cuts::{CutRows, Cuts};
use kernel::Kernel;
use linear::Seq;
use normal_form::Normal;
use proof_steps::Item;
use propagate::{Id, Propagator};
use relaxation::Limits;
use std::alloc::{AllocError, Global};

/// The rounds, the cuts that wait, and those that are rows.
#[derive(Drop)]
pub(crate) struct RootCuts {
    rounds: Rounds,
    cuts: Cuts,
    rows: CutRows,
}

impl RootCuts {
    ghost use Rattle.std.specs.Prelude.{IfOk, IfSome};
    ghost use Rattle.row_sums.specs.Derived.{IsDerivable};

    /// No round yet, of a problem of so many variables whose constraints a kernel has.
    pub(crate) fn new<'a, P: Propagator>(
        alloc: Global,
        kernel: &Kernel<'a, P>,
        variables: usize,
    ) -> Result<Self, AllocError> {
        Ok(RootCuts {
            rounds: Rounds::new(),
            cuts: Cuts::new(alloc, kernel, variables)?,
            rows: CutRows::new(alloc),
        })
    }

    /// Begins the rounds of a call that may do so much, where so much was done so far, and so much of that at the root.
    pub(crate) fn begin(&mut self, done: u64, at_root: u64, limits: Limits) {
        self.rounds.begin(done, at_root, limits);
    }

    /// What the next round may do, where so much was done so far; none where no round is left.
    pub(crate) fn next_round(&mut self, done: u64) -> Option<Limits> {
        self.rounds.next(done)
    }

    /// Ends the rounds, unless the answer to a call is one after which the relaxation says more.
    pub(crate) fn go_on(&mut self, advice: &Advice) {
        match advice {
            Advice::Cut(_) | Advice::Forcing(_) => {}
            Advice::Conflict(_) | Advice::Values | Advice::Nothing => self.rounds.end(),
        }
    }

    /// The next cut of the last round, as long as the search is at the root.
    pub(crate) fn waiting<'a, P: Propagator>(
        &mut self,
        kernel: &Kernel<'a, P>,
        relaxed: &RelaxedProblem,
        node: Node<'_>,
    ) -> Result<Option<Seq<Item>>, AllocError>
        ensures { IfOk result (λ found. IfSome found (IsDerivable kernel.now.state)) }
    {
        if node.decisions > 0 {
            self.cuts.clear();
            self.rounds.end();
            return Ok(None);
        }
        self.cuts.next(kernel, relaxed.point())
    }

    /// The best cut that the point of the last call violates, where that was a round.
    pub(crate) fn best<'a, P: Propagator>(
        &mut self,
        kernel: &Kernel<'a, P>,
        relaxed: &mut RelaxedProblem,
    ) -> Result<Option<Seq<Item>>, AllocError>
        ensures { IfOk result (λ found. IfSome found (IsDerivable kernel.now.state)) }
    {
        if self.rounds.are_open() {
            self.find(kernel, relaxed)?;
        }
        self.cuts.next(kernel, relaxed.point())
    }

    /// Looks for the cuts of a round, unless the rounds end with it.
    fn find<'a, P: Propagator>(
        &mut self,
        kernel: &Kernel<'a, P>,
        relaxed: &mut RelaxedProblem,
    ) -> Result<(), AllocError> {
        self.rows.age(&mut relaxed.relaxation)?;
        self.rounds.note_bound(relaxed.relaxation.scaled_bound());
        if !self.rounds.are_open() {
            return Ok(());
        }
        let done = self.cuts.find(kernel, relaxed.point())?;
        relaxed.relaxation.count_work(done);
        Ok(())
    }

    /// Adds the row of a cut, whose constraint a kernel has under an id.
    ///
    /// `AllocError` comes where a growth was refused. The cut is no row then.
    pub(crate) fn add_row(
        &mut self,
        relaxed: &mut RelaxedProblem,
        id: Id,
        constraint: &Normal,
    ) -> Result<(), AllocError> {
        let sources = &mut relaxed.sources;
        self.rows
            .add(&mut relaxed.relaxation, sources, id, constraint)
    }

    /// Takes the ids of the cuts that are rows no more.
    pub(crate) fn take_slack(&mut self) -> Vec<Id> {
        self.rows.take_left()
    }
}
