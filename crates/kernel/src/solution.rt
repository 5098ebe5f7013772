//! `sol` and `soli`: solutions that a proof lists. An assignment need not name all variables of the file: what is left out must
//! follow by propagation over the live constraints. Whether the completed assignment is a solution is judged by the file, and
//! never by the live constraints, which may ask for more, or for less.

ghost use Rattle.std.specs.Prelude.{◌≡◌, None, Some, IfOk, IfErr, IsErrOf, OnOk, OnErr, length};
ghost use Rattle.proof_rules.specs.Fault.{OrMemory, IsSolFault, IsSoliFault};
ghost use Rattle.proof_rules.specs.Legal.{LegalSol, LegalSoli, Logs, with_improvement, worth_of};
ghost use Rattle.proof_rules.specs.Solution.{Completes};
ghost use Rattle.proof_rules.specs.State.{HasRoom, IsOutside, constraints};
ghost use Rattle.kernel.specs.Held.{IsKept};

use super::kernel::{Applied, Kernel};
use super::objective::below;
use linear::{Assignment, Integer, Lit};
use normal_form::Normal;
use proof_rules::StepFault;
use propagate::{Extending, Propagator, Reach};
use solutions::{all_values, is_consistent, table_of, values};

impl<'a, P: Propagator> Kernel<'a, P> {
    /// Logs a solution.
    pub(crate) fn sol(&mut self, assigned: &[Lit]) -> Result<Applied, StepFault>
        requires outside { IsOutside self.old.state }
        ensures problem { self.new.problem ≡ self.old.problem }
        ensures ok { OnOk result (LegalSol self.old.problem self.old.state assigned.now self.new.state) }
        ensures id { IfOk result (λ applied. applied.id ≡ None) }
        ensures fault { IfErr result (λ f. OrMemory f (IsSolFault self.old.problem self.old.state assigned.now f)) }
        ensures err { OnErr result (self.new ≡ self.old) }
    {
        let solution = self.solution(assigned)?;
        self.log.push(self.allocator, &solution)?;
        Ok(Applied { id: None })
    }

    /// Logs a solution that is worth less than the improving ones before, and adds a constraint that asks for still less.
    /// That there is an objective is judged first, then the solution, then its value, then the ids.
    pub(crate) fn soli(&mut self, assigned: &[Lit]) -> Result<Applied, StepFault>
        requires outside { IsOutside self.old.state }
        ensures problem { self.new.problem ≡ self.old.problem }
        ensures ok { OnOk result (LegalSoli self.old.problem self.old.state assigned.now self.new.state) }
        ensures id { IfOk result (λ applied. applied.id ≡ Some self.old.state.next) }
        ensures fault { IfErr result (λ f. OrMemory f (IsSoliFault self.old.problem self.old.state assigned.now f)) }
        ensures err { OnErr result (self.new ≡ self.old) }
    {
        let problem = self.source;
        let Some(objective) = problem.objective() else {
            return Err(StepFault::NoObjective);
        };
        let solution = self.solution(assigned)?;
        let value = problem.value(&solution);
        if !self.log.improves(value) {
            return Err(StepFault::NotImproving);
        }
        if !self.database.has_room() {
            return Err(StepFault::TooManyIds);
        }
        let better = below(self.allocator, objective.as_slice(), value)?;
        self.improve(&solution, value, better)
    }

    /// Logs an improving solution, and adds the constraint that asks for better ones, under the next id.
    fn improve(
        &mut self,
        solution: &Assignment,
        value: Integer,
        better: Normal,
    ) -> Result<Applied, StepFault>
        requires value { value ≡ worth_of self.old.problem solution.now }
        requires room { HasRoom self.old.state }
        requires kept { IsKept (record { problem = self.old.problem; state = with_improvement self.old.problem solution.now better self.old.state }) }
        ensures problem { self.new.problem ≡ self.old.problem }
        ensures ok { OnOk result (self.new.state ≡ with_improvement self.old.problem solution.now better self.old.state) }
        ensures id { IfOk result (λ applied. applied.id ≡ Some self.old.state.next) }
        ensures memory { OnErr result (IsErrOf result StepFault.OutOfMemory) }
        ensures err { OnErr result (self.new ≡ self.old) }
    {
        let id = self.database.push(better)?;
        if self.log.improve(self.allocator, solution, value).is_err() {
            self.database.take_back();
            return Err(StepFault::OutOfMemory);
        }
        Ok(Applied { id: Some(id) })
    }

    /// The solution that an assignment gives: first the assignment is judged, then its completion, then what it satisfies.
    pub(crate) fn solution(&mut self, assigned: &[Lit]) -> Result<Assignment, StepFault>
        ensures logs { IfOk result (Logs self.old.problem self.old.state assigned.now) }
        ensures fault { IfErr result (λ f. OrMemory f (IsSolFault self.old.problem self.old.state assigned.now f)) }
        ensures same { self.new ≡ self.old }
    {
        let solution = self.completion(assigned)?;
        if !self.source.satisfied(&solution) {
            return Err(StepFault::SolutionFalse);
        }
        Ok(solution)
    }

    /// The values that an assignment gives the variables of the file, where it names all of them, and else those that it
    /// and what follows from it over the live constraints give them.
    fn completion(&mut self, assigned: &[Lit]) -> Result<Assignment, StepFault>
        ensures completes { IfOk result (Completes (constraints self.old.state) (length self.old.problem.names) assigned.now) }
        ensures fault { IfErr result (λ f. OrMemory f (IsSolFault self.old.problem self.old.state assigned.now f)) }
        ensures same { self.new ≡ self.old }
    {
        let count = self.source.names().len();
        let table = table_of(self.allocator, count, assigned)?;
        if !is_consistent(self.allocator, table.as_slice(), assigned)? {
            return Err(StepFault::SolutionConflict);
        }
        if let Some(solution) = all_values(self.allocator, table.as_slice())? {
            return Ok(solution);
        }
        let Reach::Closed(reached) = self.database.ask(Extending { given: assigned })? else {
            return Err(StepFault::SolutionConflict);
        };
        match values(self.allocator, count, reached.as_slice())? {
            Some(solution) => Ok(solution),
            None => Err(StepFault::SolutionPartial),
        }
    }
}
