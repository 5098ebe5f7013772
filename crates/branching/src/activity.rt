//! A rule of choice that follows the conflicts: the variable that their analyses met most, of late, comes next.
//!
//! This is the rule of exponentially rising increments (VSIDS: Moskewicz, Madigan, Zhao, Zhang and Malik, 2001, in the form
//! of MiniSat): each time that an analysis meets a variable its score rises by an increment, which grows by a twentieth with each
//! conflict, so that what was met lately counts most. Scores are whole numbers: when one comes near the greatest, all of
//! them and the increment fall by the same power of two.
//!
//! A variable takes the sign that it had last, since that is where the search was before it went back (Pipatsrisawat and
//! Darwiche, 2007); at first the one that the objective likes, or, where it has no price, the one that serves more constraints;
//! and all of them those of a solution when it is found, so that the search goes on near it. They are not put back to it at each restart: a
//! search that was led there again and again found few others. Where the linear relaxation has a best point, its variables take the
//! signs that are nearest to that.

use super::brancher::Brancher;
use super::heap::Heap;
use super::progress::Progress;
use linear::{Constraints, Integer, LentConstraint, Lit, Problem, Relation, Term, Var};
use propagate::Value;
use std::alloc::{AllocError, Global};

/// The increment at first: small steps of it are told apart.
const FIRST_INCREMENT: u64 = 1 << 16;

/// Past this number all scores fall.
const LARGEST_SCORE: u64 = 1 << 62;

/// By so many bits: few, so that scores of long ago still tell which is the higher one.
const FALL: u32 = 8;

/// Picks a free variable of the highest score, the first among equals, with the sign that it had last.
#[derive(Drop)]
pub struct Activity {
    alloc: Global,
    heap: Heap,
    scores: Vec<u64>,
    increment: u64,
    /// The value that each variable had last.
    phases: Vec<bool>,
    /// What is to be decided next, the first one last.
    preferred: Vec<Lit>,
}

impl Activity {
    /// Of no conflict yet.
    pub fn new(alloc: Global) -> Self {
        Activity {
            alloc,
            heap: Heap::new(alloc),
            scores: Vec::new(alloc),
            increment: FIRST_INCREMENT,
            phases: Vec::new(alloc),
            preferred: Vec::new(alloc),
        }
    }

    /// Has so many variables known, at least.
    fn grow(&mut self, count: usize) -> Result<(), AllocError> {
        for _ in self.scores.len()..count {
            self.scores.push(0)?;
            self.phases.push(false)?;
            self.heap.grow()?;
        }
        Ok(())
    }

    /// Has each variable take the value at first that serves more of some constraints than it harms.
    fn serve(&mut self, alloc: Global, constraints: &Constraints) -> Result<(), AllocError> {
        let mut votes: Vec<i64> = vec![in alloc; 0; self.phases.len()]?;
        for place in 0..constraints.len() {
            let constraint = constraints.get(place);
            if constraint.relation() == Relation::AtLeast {
                vote(&mut votes, &constraint);
            }
        }
        for (phase, balance) in self.phases.iter_mut().zip(&votes) {
            *phase = *balance > 0;
        }
        Ok(())
    }

    /// Has each variable of an objective take the value at first by which it costs less.
    fn like(&mut self, objective: &[Term]) {
        for term in objective {
            let place = term.var.0 as usize;
            if place < self.phases.len() {
                self.phases[place] = costs_less_as_true(*term);
            }
        }
    }

    /// All scores fall, by the same power of two.
    fn lower(&mut self) {
        for score in self.scores.iter_mut() {
            *score >>= FALL;
        }
        self.increment = (self.increment >> FALL).max(1);
    }

    /// The first preferred literal of a free variable; those before it are passed over for good.
    fn take_preferred(&mut self, values: &[Value]) -> Option<Lit> {
        for _ in 0..self.preferred.len() {
            let literal = self.preferred.pop()?;
            if is_free(values, literal.var.0) {
                return Some(literal);
            }
        }
        None
    }

    /// The score of a variable rises.
    fn raise(&mut self, variable: Var) {
        let place = variable.0 as usize;
        if place >= self.scores.len() {
            return;
        }
        self.scores[place] = self.scores[place].saturating_add(self.increment);
        if self.scores[place] > LARGEST_SCORE {
            self.lower();
        }
        self.heap.raised(variable.0, &self.scores);
    }
}

/// Counts for each variable of a sum that is asked to be large whether it helps as true or as false.
fn vote(votes: &mut [i64], constraint: &LentConstraint<'_>) {
    let zero: Integer = 0;
    for index in 0..constraint.len() {
        let term = constraint.term(index);
        let place = term.var.0 as usize;
        if place < votes.len() && term.coef != zero {
            let step = if costs_less_as_true(term) { -1 } else { 1 };
            votes[place] = votes[place].saturating_add(step);
        }
    }
}

/// Whether a term costs less where its variable is true.
fn costs_less_as_true(term: Term) -> bool {
    let zero: Integer = 0;
    if term.negated {
        term.coef > zero
    } else {
        term.coef < zero
    }
}

/// Whether a variable is free.
fn is_free(values: &[Value], number: u32) -> bool {
    matches!(values.get(number as usize), Some(Value::Free))
}

impl Brancher for Activity {
    fn begin(&mut self, problem: &Problem) {
        if self.grow(problem.names().len()).is_err() {
            return;
        }
        // Where there is no memory for the count, all variables begin as false.
        let _ = self.serve(self.alloc, problem.constraints());
        if let Some(objective) = problem.objective() {
            self.like(objective.as_slice());
        }
    }

    /// Variables that are not free leave the heap; they come back as soon as they are free again.
    fn pick(&mut self, values: &[Value]) -> Option<Lit> {
        let preferred = self.take_preferred(values);
        if preferred.is_some() {
            return preferred;
        }
        for _ in 0..self.heap.len() {
            let number = self.heap.take(&self.scores)?;
            if is_free(values, number) {
                let phase = self.phases.get(number as usize)?;
                return Some(Lit {
                    var: Var(number),
                    negated: !*phase,
                });
            }
        }
        None
    }

    fn met(&mut self, variables: &[Var]) {
        for variable in variables {
            self.raise(*variable);
        }
    }

    fn conflict(&mut self, _variables: &[Var]) {
        self.preferred.clear();
        self.increment = self.increment.saturating_add(self.increment / 20);
        if self.increment > LARGEST_SCORE {
            self.lower();
        }
    }

    /// Where there is no memory for a place in the heap, the variable is left to the search.
    fn unassigned(&mut self, literal: Lit) {
        let place = literal.var.0 as usize;
        if place < self.phases.len() {
            self.phases[place] = !literal.negated;
            let _ = self.heap.insert(literal.var.0, &self.scores);
        }
    }

    fn solution(&mut self, literals: &[Lit]) {
        self.lean(literals);
    }

    fn restarted(&mut self) {}

    fn lean(&mut self, literals: &[Lit]) {
        for literal in literals {
            let place = literal.var.0 as usize;
            if place < self.phases.len() {
                self.phases[place] = !literal.negated;
            }
        }
    }

    /// Where there is no memory for them, the choice is by the scores.
    fn prefer(&mut self, literals: &[Lit]) {
        self.preferred.clear();
        if self.preferred.reserve(literals.len()).is_err() {
            return;
        }
        for literal in literals.iter().rev() {
            let _ = self.preferred.push(*literal);
        }
    }

    fn progress(&mut self, _progress: Progress) {}
}
