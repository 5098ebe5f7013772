//! What a state entitles to conclude. Nothing is changed by it, so a proof that is refused here is refused for good.

ghost use Rattle.std.specs.Prelude.{◌≡◌, ◌↔◌, ◌≤◌, IfOk, IfErr, IfSome, IsTrue, OnOk};
ghost use Rattle.normal_form.specs.NormalOf.{size_sum};
ghost use Rattle.linear.specs.Largest.{largest_objective};
ghost use Rattle.proof_rules.specs.Claim.{Claim, ClaimsUpper, IsSolution};
ghost use Rattle.proof_rules.specs.Fault.{OrMemory, IsConclusionFault, IsUnjustified, IsHintFault, IsLowerFault, IsBoundFault, IsUnsatFault};
ghost use Rattle.proof_rules.specs.Justified.{IsJustified, IsEarned, IsBest, IsExhausted, EntitlesLower, TakesHint};
ghost use Rattle.proof_rules.specs.Shown.{absurdity};
ghost use Rattle.kernel.specs.Held.{with_extra};

use super::accepted::Accepted;
use super::kernel::Kernel;
use super::objective::above;
use linear::{Assignment, Integer, Lit, Problem, Seq, Term};
use normal_form::{Normal, NormalBuilder};
use proof_rules::StepFault;
use proof_steps::{Conclusion, Lower, Upper};
use propagate::Propagator;
use solutions::is_better;
use std::alloc::{AllocError, Global};

/// `0 >= 1`.
pub(crate) fn absurd(alloc: Global) -> Normal
    ensures { result ≡ absurdity }
{
    match NormalBuilder::new(alloc).finish(1) {
        Ok(constraint) => constraint,
        Err(_) => unreachable!(),
    }
}

impl<'a, P: Propagator> Kernel<'a, P> {
    /// Judges a conclusion, and leaves the kernel as it was. What is accepted is true of the problem's own signed terms.
    /// `NONE` is always accepted; `SAT` where a solution is logged; `UNSAT` where none is, and `0 >= 1` is shown from the live
    /// constraints; `BOUNDS` where there is an objective, the lower bound is at most the least improving value and is shown,
    /// and some logged solution is worth no more than the upper one. A hint is judged before the rest, as one more solution
    /// that is logged for the conclusion alone; that there is an objective is judged before it, and before all that no block is
    /// open. A refusal names the first fault in the order of judging.
    pub fn conclude(&mut self, conclusion: &Conclusion) -> Result<Accepted, StepFault>
        ensures justified { IfOk result (λ accepted. IsJustified self.old.problem self.old.state conclusion.now accepted.best) }
        ensures conclusion { IfOk result (λ accepted. accepted.conclusion ≡ conclusion.now) }
        ensures claim { IfOk result (λ accepted. Claim self.old.problem accepted.conclusion accepted.best) }
        ensures fault { IfErr result (λ f. OrMemory f (IsConclusionFault self.old.problem self.old.state conclusion.now f)) }
        ensures same { self.new ≡ self.old }
    {
        self.reveal();
        self.stand_outside()?;
        let best = self.judge(conclusion)?;
        Ok(Accepted::new(copied_conclusion(conclusion)?, best))
    }

    /// Judges a conclusion, and gives the best solution.
    fn judge(&mut self, conclusion: &Conclusion) -> Result<Option<Assignment>, StepFault>
        ensures justified { IfOk result (IsEarned self.old.problem self.old.state conclusion.now) }
        ensures fault { IfErr result (λ f. OrMemory f (IsUnjustified self.old.problem self.old.state conclusion.now f)) }
        ensures same { self.new ≡ self.old }
    {
        match conclusion {
            Conclusion::Nothing => Ok(self.best(None)?),
            Conclusion::Sat(hint) => self.judge_sat(hint),
            Conclusion::Unsat => {
                self.judge_exhausted(&None)?;
                Ok(None)
            }
            Conclusion::Bounds(lower, upper, hint) => self.judge_bounds(*lower, *upper, hint),
        }
    }

    /// `SAT`: some solution is logged.
    fn judge_sat(&mut self, hint: &Option<Seq<Lit>>) -> Result<Option<Assignment>, StepFault>
        ensures justified { IfOk result (IsEarned self.old.problem self.old.state (Conclusion.Sat hint.now)) }
        ensures fault { IfErr result (λ f. OrMemory f (IsUnjustified self.old.problem self.old.state (Conclusion.Sat hint.now) f)) }
        ensures same { self.new ≡ self.old }
    {
        let extra = self.judge_hint(hint)?;
        let Some(best) = self.best(extra)? else {
            return Err(StepFault::UpperNotLogged);
        };
        Ok(Some(best))
    }

    /// `BOUNDS`: that there is an objective, then the hint, then the lower bound, then the upper one.
    fn judge_bounds(
        &mut self,
        lower: Lower,
        upper: Upper,
        hint: &Option<Seq<Lit>>,
    ) -> Result<Option<Assignment>, StepFault>
        ensures justified { IfOk result (IsEarned self.old.problem self.old.state (Conclusion.Bounds lower upper hint.now)) }
        ensures fault { IfErr result (λ f. OrMemory f (IsUnjustified self.old.problem self.old.state (Conclusion.Bounds lower upper hint.now) f)) }
        ensures same { self.new ≡ self.old }
    {
        let problem = self.source;
        let Some(objective) = problem.objective() else {
            return Err(StepFault::NoObjective);
        };
        let extra = self.judge_hint(hint)?;
        self.judge_lower(&extra, objective, lower)?;
        let best = self.best(extra)?;
        if !is_reached(problem, &best, upper) {
            return Err(StepFault::UpperNotLogged);
        }
        Ok(best)
    }

    /// The solution that a hint gives, if there is a hint.
    fn judge_hint(&mut self, hint: &Option<Seq<Lit>>) -> Result<Option<Assignment>, StepFault>
        ensures takes { IfOk result (λ extra. TakesHint self.old.problem self.old.state hint.now (with_extra extra self.old.state)) }
        ensures solution { IfOk result (λ extra. IfSome extra (IsSolution self.old.problem)) }
        ensures fault { IfErr result (λ f. OrMemory f (IsHintFault self.old.problem self.old.state hint.now f)) }
        ensures same { self.new ≡ self.old }
    {
        match hint {
            None => Ok(None),
            Some(assigned) => {
                let solution = self.solution(assigned.as_slice())?;
                Ok(Some(solution))
            }
        }
    }

    /// Judges a lower bound: an integer as `judge_bound` does, `INF` as `UNSAT`.
    fn judge_lower(
        &mut self,
        extra: &Option<Assignment>,
        objective: &Seq<Term>,
        lower: Lower,
    ) -> Result<(), StepFault>
        requires { size_sum objective.now ≤ largest_objective }
        ensures ok { OnOk result (EntitlesLower (with_extra extra.now self.old.state) objective.now lower) }
        ensures fault { IfErr result (λ f. OrMemory f (IsLowerFault (with_extra extra.now self.old.state) objective.now lower f)) }
        ensures same { self.new ≡ self.old }
    {
        match lower {
            Lower::MinusInf => Ok(()),
            Lower::At(bound) => self.judge_bound(objective, bound),
            Lower::Inf => self.judge_exhausted(extra),
        }
    }

    /// Judges whether a bound is at most the least improving value, then whether `objective >= bound` is within the limits,
    /// then whether it is shown from the live constraints.
    fn judge_bound(&mut self, objective: &Seq<Term>, bound: Integer) -> Result<(), StepFault>
        requires { size_sum objective.now ≤ largest_objective }
        ensures ok { OnOk result (EntitlesLower self.old.state objective.now (Lower.At bound)) }
        ensures fault { IfErr result (λ f. OrMemory f (IsBoundFault self.old.state objective.now bound f)) }
        ensures same { self.new ≡ self.old }
    {
        if !self.log.admits(bound) {
            return Err(StepFault::LowerAboveBest);
        }
        let constraint = above(self.allocator, objective, bound)?;
        if !self.shows(&constraint)? {
            return Err(StepFault::LowerNotShown);
        }
        Ok(())
    }

    /// Judges whether nothing is logged, one more solution included, and then whether `0 >= 1` is shown.
    fn judge_exhausted(&mut self, extra: &Option<Assignment>) -> Result<(), StepFault>
        ensures ok { OnOk result (IsExhausted (with_extra extra.now self.old.state)) }
        ensures fault { IfErr result (λ f. OrMemory f (IsUnsatFault (with_extra extra.now self.old.state) f)) }
        ensures same { self.new ≡ self.old }
    {
        if extra.is_some() || !self.log.is_empty() {
            return Err(StepFault::SolutionLogged);
        }
        let absurd = absurd(self.allocator);
        if !self.shows(&absurd)? {
            return Err(StepFault::LowerNotShown);
        }
        Ok(())
    }

    /// The best logged solution, one more included.
    fn best(&self, extra: Option<Assignment>) -> Result<Option<Assignment>, AllocError>
        requires { IfSome extra (IsSolution self.now.problem) }
        ensures best { IfOk result (IsBest self.now.problem (with_extra extra self.now.state).logged) }
        ensures solution { IfOk result (λ best. IfSome best (IsSolution self.now.problem)) }
    {
        let logged = self.log.best(self.allocator, self.source)?;
        let Some(last) = extra else {
            return Ok(logged);
        };
        if is_better(self.source, &last, &logged) {
            return Ok(Some(last));
        }
        Ok(logged)
    }
}

/// Whether the best of logged solutions is worth no more than an upper bound; `INF` asks for nothing.
fn is_reached(problem: &Problem, best: &Option<Assignment>, upper: Upper) -> bool
    requires { IfSome best.now (IsSolution problem.now) }
    ensures { IsTrue result ↔ ClaimsUpper problem.now upper best.now }
{
    match (upper, best) {
        (Upper::Inf, _) => true,
        (Upper::At(_), None) => false,
        (Upper::At(bound), Some(best)) => problem.value(best) <= bound,
    }
}

fn copied_hint(hint: &Option<Seq<Lit>>) -> Result<Option<Seq<Lit>>, AllocError>
    ensures { IfOk result (λ copy. copy ≡ hint.now) }
{
    match hint {
        None => Ok(None),
        Some(literals) => Ok(Some(literals.clone()?)),
    }
}

fn copied_conclusion(conclusion: &Conclusion) -> Result<Conclusion, AllocError>
    ensures { IfOk result (λ copy. copy ≡ conclusion.now) }
{
    match conclusion {
        Conclusion::Nothing => Ok(Conclusion::Nothing),
        Conclusion::Sat(hint) => Ok(Conclusion::Sat(copied_hint(hint)?)),
        Conclusion::Unsat => Ok(Conclusion::Unsat),
        Conclusion::Bounds(lower, upper, hint) => {
            Ok(Conclusion::Bounds(*lower, *upper, copied_hint(hint)?))
        }
    }
}
