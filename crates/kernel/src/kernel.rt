//! The state of a proof. A step is applied whole or not at all, and what is refused leaves everything as it was. That the
//! state has an answer for the problem is a fact of the type: each rule's file shows that what it does keeps it, by the laws
//! of `proof_rules`, and nobody has to believe in the order of the code.

use super::open_block::OpenBlock;
use database::{Database, constraints_of_file, is_shown};
use linear::Problem;
use normal_form::Normal;
use pol_stack::Accumulator;
use proof_rules::StepFault;
use proof_steps::Step;
use propagate::{Id, Propagator};
use solutions::SolutionLog;
use std::alloc::{AllocError, Global};
use std::marker::Model;
use substitution::NetObjective;

/// What a step has added: the id of the new constraint, if any.
#[derive(Clone, Copy, Debug, PartialEq, Eq)]
pub struct Applied {
    pub id: Option<Id>,
}

/// A problem and the state of a proof of it. The live constraints of the file have the ids 1, 2, .. in order, an equality
/// two of them, the `>=` direction first; each added one takes the next id. They stand in the propagator, and nowhere else.
#[derive(Drop)]
pub struct Kernel<'a, P: Propagator> {
    pub(crate) allocator: Global,
    pub(crate) source: &'a Problem,
    /// The objective by variable, so that a `red` step need not go through it.
    pub(crate) objective: NetObjective<'a>,
    pub(crate) database: Database<P>,
    pub(crate) log: SolutionLog,
    pub(crate) problem_ids: u64,
    /// The block of a `red` step, while one is open.
    pub(crate) block: Option<OpenBlock>,
    /// What `pol` steps add up in. What it holds between them is of no account: it is kept for its memory, a cell for
    /// each variable, which would else be taken and cleared for each step.
    pub(crate) sum: Accumulator,
}

impl<'a, P: Propagator> Model for Kernel<'a, P> {
    ghost use Rattle.std.specs.Coded.{codes};
    ghost use Rattle.proof_rules.specs.Codes.{state_code};
    ghost use Rattle.kernel.specs.Held.{Held, Keeps, state_with};

    ghost Value = { Held };

    ghost coded = { Prim.hlevel (codes, state_code) };

    ghost view = { λ k. record { problem = k.source.now; state = state_with k.database k.log k.block } };

    ghost invariant = { λ k. Keeps (record { problem = k.source.now; state = state_with k.database k.log k.block }) k.problem_ids k.objective };
}

impl<'a, P: Propagator> Kernel<'a, P> {
    ghost use Rattle.std.specs.Prelude.{◌≡◌, ◌≢◌, ◌↔◌, ◌+◌, Some, None, IfOk, IfErr, OnOk, OnErr, IsErrOf, IsTrue};
    ghost use Rattle.proof_rules.specs.Fault.{OrMemory, IsStepFault};
    ghost use Rattle.proof_rules.specs.Legal.{Legal};
    ghost use Rattle.proof_rules.specs.Shown.{IsShown};
    ghost use Rattle.proof_rules.specs.State.{IsStart, HasRoom, IsOutside, constraints, with_constraint};
    ghost use Rattle.kernel.specs.Held.{IsKept, HasAtLeast, given_id};

    /// The kernel of a problem's file.
    pub fn new(alloc: Global, problem: &'a Problem) -> Result<Self, AllocError>
        ensures problem { IfOk result (λ k. k.problem ≡ problem.now) }
        ensures start { IfOk result (λ k. IsStart problem.now k.state) }
    {
        let database = constraints_of_file(alloc, problem)?;
        let problem_ids = database.next_id() - 1;
        let objective = NetObjective::of(alloc, problem)?;
        Ok(Kernel {
            allocator: alloc,
            source: problem,
            objective,
            database,
            log: SolutionLog::empty(alloc),
            problem_ids,
            block: None,
            sum: Accumulator::new(alloc),
        })
    }

    /// What holds of every kernel, for a proof that needs it where nothing else of the kernel is asked.
    pub(crate) fn reveal(&self)
        ensures { IsKept self.now }
    {
        let _ = &self.source;
    }

    /// The id that was given last; 0 where none was.
    pub fn last_id(&self) -> u64
        ensures last { result + 1 ≡ self.now.state.next }
        ensures kept { IsKept self.now }
    {
        self.database.next_id() - 1
    }

    /// Applies a step, whole or not at all: `pol`, which adds the value of an expression; `rup`, which adds a constraint that
    /// is shown from the live ones; `red`, which adds one that is redundant by a witness; `sol`, which logs a solution of the
    /// file; `soli`, which also adds a constraint that asks for better ones; `del`, which takes out live constraints; and the
    /// steps of a block, in which goals of a `red` are shown by other steps: only these, `pol` and `rup` may stand in one. A
    /// refusal names the first fault in the order of judging, and leaves the kernel as before; a legal step is
    /// refused where memory runs out, and there alone.
    pub fn apply(&mut self, step: &Step) -> Result<Applied, StepFault>
        requires relation { HasAtLeast step.now }
        ensures problem { self.new.problem ≡ self.old.problem }
        ensures ok { OnOk result (Legal self.old.problem self.old.state step.now self.new.state) }
        ensures id { IfOk result (λ applied. applied.id ≡ given_id step.now self.old.state) }
        ensures fault { IfErr result (λ f. OrMemory f (IsStepFault self.old.problem self.old.state step.now f)) }
        ensures err { OnErr result (self.new ≡ self.old) }
    {
        match step {
            Step::Pol(items) => self.pol(items.as_slice()),
            Step::Rup(constraint) => self.rup(constraint),
            Step::Sol(assigned) => {
                self.stand_outside()?;
                self.sol(assigned.as_slice())
            }
            Step::Soli(assigned) => {
                self.stand_outside()?;
                self.soli(assigned.as_slice())
            }
            Step::Del(ids) => {
                self.stand_outside()?;
                self.del(ids.as_slice())
            }
            Step::Red(constraint, witness) => {
                self.stand_outside()?;
                self.red(constraint, witness)
            }
            Step::RedBegin(constraint, witness) => {
                self.stand_outside()?;
                self.settle()?;
                self.begin(constraint, witness)
            }
            Step::Goal(name) => {
                self.settle()?;
                self.open_goal(*name)
            }
            Step::End => self.end(),
        }
    }

    /// Refuses what may stand outside blocks alone, while one is open.
    pub(crate) fn stand_outside(&self) -> Result<(), StepFault>
        ensures outside { OnOk result (IsOutside self.now.state) }
        ensures fault { IfErr result (λ f. (f ≡ StepFault.BlockOpen) × (self.now.state.block ≢ None)) }
    {
        match &self.block {
            None => Ok(()),
            Some(_) => Err(StepFault::BlockOpen),
        }
    }

    /// Has what the live constraints force by themselves found, where no question did so. A propagator keeps that from question to question;
    /// what it finds first in a block, or in a goal of one, it would give up at the end of that, and find anew in the next one.
    fn settle(&mut self) -> Result<(), AllocError>
        ensures { self.new ≡ self.old }
    {
        let _is_refuted = self.database.refute(&[])?;
        Ok(())
    }

    /// Adds a constraint that keeps an answer to the problem, under the next id.
    pub(crate) fn add(&mut self, constraint: Normal) -> Result<Applied, StepFault>
        requires room { HasRoom self.old.state }
        requires kept { IsKept (record { problem = self.old.problem; state = with_constraint constraint self.old.state }) }
        ensures problem { self.new.problem ≡ self.old.problem }
        ensures ok { OnOk result (self.new.state ≡ with_constraint constraint self.old.state) }
        ensures id { IfOk result (λ applied. applied.id ≡ Some self.old.state.next) }
        ensures memory { OnErr result (IsErrOf result StepFault.OutOfMemory) }
        ensures err { OnErr result (self.new ≡ self.old) }
    {
        let id = self.database.push(constraint)?;
        Ok(Applied { id: Some(id) })
    }

    /// Whether a constraint is shown from the live ones.
    pub(crate) fn shows(&mut self, constraint: &Normal) -> Result<bool, AllocError>
        ensures same { self.new ≡ self.old }
        ensures shown { IfOk result (λ found. IsTrue found ↔ IsShown (constraints self.old.state) constraint.now) }
    {
        let mut beside = Vec::new(self.allocator);
        is_shown(self.allocator, &mut self.database, &mut beside, constraint)
    }
}
