//! What a proof has logged: its solutions, and the least value of an improving one. All solutions are kept, at a bit a
//! variable, and the best is looked up where it is asked for, at the end.

ghost use Rattle.std.specs.Prelude.{◌≡◌, [], ◌↔◌, ◌<ℤ◌, ◌≤ℤ◌, All, IfOk, IfSome, IsTrue, OnErr, OnOk};
ghost use Rattle.proof_rules.specs.Claim.{IsSolution};
ghost use Rattle.proof_rules.specs.Justified.{IsBest};
ghost use Rattle.proof_rules.specs.Legal.{worth_of};
ghost use Rattle.solutions.specs.Logged.{unlogged, with_logged, with_improved};

use super::packed::PackedAssignment;
use linear::{Assignment, Integer, Problem};
use std::alloc::{AllocError, Global};
use std::marker::Model;

/// What a proof has logged.
#[derive(Drop)]
pub struct SolutionLog {
    solutions: Vec<PackedAssignment>,
    least: Option<Integer>,
}

impl Model for SolutionLog {
    ghost use Rattle.solutions.specs.Logged.{Logged, logged_code};

    ghost Value = { Logged };

    ghost coded = { logged_code };

    ghost view = { λ l. record { logged = l.solutions.items; least = l.least } };
}

impl SolutionLog {
    /// Nothing is logged.
    pub fn empty(alloc: Global) -> Self
        ensures { result ≡ unlogged }
    {
        SolutionLog {
            solutions: Vec::new(alloc),
            least: None,
        }
    }

    /// Logs a solution.
    ///
    /// `AllocError` comes where a growth was refused: nothing is logged then.
    pub fn push(&mut self, alloc: Global, solution: &Assignment) -> Result<(), AllocError>
        ensures ok { OnOk result (self.new ≡ with_logged solution.now self.old) }
        ensures err { OnErr result (self.new ≡ self.old) }
    {
        let packed = PackedAssignment::pack(alloc, solution)?;
        self.solutions.push(packed)?;
        Ok(())
    }

    /// Logs an improving solution, and its value.
    ///
    /// `AllocError` comes where a growth was refused: nothing is logged then.
    pub fn improve(
        &mut self,
        alloc: Global,
        solution: &Assignment,
        value: Integer,
    ) -> Result<(), AllocError>
        ensures ok { OnOk result (self.new ≡ with_improved solution.now value self.old) }
        ensures err { OnErr result (self.new ≡ self.old) }
    {
        let packed = PackedAssignment::pack(alloc, solution)?;
        self.solutions.push(packed)?;
        self.least = Some(value);
        Ok(())
    }

    /// The least value of the improving solutions, if there is one.
    pub fn least(&self) -> Option<Integer>
        ensures { result ≡ self.now.least }
    {
        self.least
    }

    /// Whether a value is below the least one of the improving solutions, if there is one.
    pub fn improves(&self, value: Integer) -> bool
        ensures { IsTrue result ↔ IfSome self.now.least (λ least. value <ℤ least) }
    {
        match self.least {
            None => true,
            Some(least) => value < least,
        }
    }

    /// Whether a bound is at most the least value of the improving solutions, if there is one.
    pub fn admits(&self, bound: Integer) -> bool
        ensures { IsTrue result ↔ IfSome self.now.least (λ least. bound ≤ℤ least) }
    {
        match self.least {
            None => true,
            Some(least) => bound <= least,
        }
    }

    /// Whether no solution is logged.
    pub fn is_empty(&self) -> bool
        ensures { IsTrue result ↔ (self.now.logged ≡ []) }
    {
        self.solutions.is_empty()
    }

    /// The logged solution of the least value, the earliest among equals; none where nothing is logged.
    ///
    /// `AllocError` comes where memory was refused.
    pub fn best(&self, alloc: Global, problem: &Problem) -> Result<Option<Assignment>, AllocError>
        requires { All (IsSolution problem.now) self.now.logged }
        ensures best { IfOk result (IsBest problem.now self.now.logged) }
        ensures solution { IfOk result (λ best. IfSome best (IsSolution problem.now)) }
    {
        let mut best = None;
        for packed in self.solutions.as_slice() {
            let solution = packed.unpack(alloc)?;
            if is_better(problem, &solution, &best) {
                best = Some(solution);
            }
        }
        Ok(best)
    }
}

/// Whether a solution is worth less than the best one of some others, if there is one.
pub fn is_better(problem: &Problem, solution: &Assignment, best: &Option<Assignment>) -> bool
    requires solution { IsSolution problem.now solution.now }
    requires best { IfSome best.now (IsSolution problem.now) }
    ensures { IsTrue result ↔ IfSome best.now (λ b. worth_of problem.now solution.now <ℤ worth_of problem.now b) }
{
    match best {
        None => true,
        Some(best) => problem.value(solution) < problem.value(best),
    }
}
