//! Problems as plain sums, and the best of all assignments: written from the rules, and sharing no code with the program.

use std::alloc::{AllocError, Global};

/// A coefficient and a literal, by the place of its variable.
#[derive(Clone, Copy, Debug)]
pub(crate) struct PlainTerm {
    pub(crate) coef: i64,
    pub(crate) place: usize,
    pub(crate) negated: bool,
}

/// A sum that is at least, or just, a number.
#[derive(Debug, Drop)]
pub(crate) struct PlainConstraint {
    pub(crate) terms: Vec<PlainTerm>,
    pub(crate) is_equality: bool,
    pub(crate) right: i64,
}

/// Constraints, and a sum to be made as small as can be, if there is one.
#[derive(Debug, Drop)]
pub(crate) struct PlainProblem {
    pub(crate) objective: Option<Vec<PlainTerm>>,
    pub(crate) constraints: Vec<PlainConstraint>,
}

/// Whether an assignment makes a literal true.
fn is_true(term: PlainTerm, values: &[bool]) -> bool {
    match values.get(term.place) {
        Some(value) => *value != term.negated,
        None => false,
    }
}

/// What the true literals of some terms come to.
pub(crate) fn worth(terms: &[PlainTerm], values: &[bool]) -> i64 {
    let mut sum: i64 = 0;
    for term in terms {
        if is_true(*term, values) {
            sum = sum.saturating_add(term.coef);
        }
    }
    sum
}

impl PlainConstraint {
    fn is_met(&self, values: &[bool]) -> bool {
        let sum = worth(self.terms.as_slice(), values);
        if self.is_equality {
            sum == self.right
        } else {
            sum >= self.right
        }
    }

    fn has(&self, place: usize) -> bool {
        self.terms.iter().any(|term| term.place == place)
    }
}

impl PlainProblem {
    /// What a solution is worth, nothing where there is no objective; none for what is no solution.
    pub(crate) fn worth(&self, values: &[bool]) -> Option<i64> {
        for constraint in &self.constraints {
            if !constraint.is_met(values) {
                return None;
            }
        }
        match &self.objective {
            Some(objective) => Some(worth(objective.as_slice(), values)),
            None => Some(0),
        }
    }

    /// Whether the variable of a place stands anywhere.
    pub(crate) fn has(&self, place: usize) -> bool {
        for constraint in &self.constraints {
            if constraint.has(place) {
                return true;
            }
        }
        match &self.objective {
            Some(objective) => objective.iter().any(|term| term.place == place),
            None => false,
        }
    }

    /// What the best of all assignments of the first variables is worth; none where there is no solution.
    pub(crate) fn best(&self, alloc: Global, variables: usize) -> Result<Option<i64>, AllocError> {
        let mut values = vec![in alloc; false; variables]?;
        let mut best = None;
        for _ in 0..ASSIGNMENTS {
            best = lesser(best, self.worth(values.as_slice()));
            if !count_up(&mut values) {
                break;
            }
        }
        Ok(best)
    }
}

/// No problem here has more assignments.
const ASSIGNMENTS: u32 = 1 << 20;

/// The lesser of two values, of which each may be missing.
fn lesser(one: Option<i64>, other: Option<i64>) -> Option<i64> {
    match (one, other) {
        (Some(one), Some(other)) => Some(one.min(other)),
        (None, value) | (value, None) => value,
    }
}

/// The next values in the order of counting: the first false one becomes true, and those before it false. False where there is
/// none, and all have come.
fn count_up(values: &mut Vec<bool>) -> bool {
    for value in values.iter_mut() {
        *value = !*value;
        if *value {
            return true;
        }
    }
    false
}
