//! Which literals exclude each other.
//!
//! A clause of two literals, and a constraint of which at most one literal may be false, say of the opposites of their literals that at most one
//! is true. Each such set is kept by the id of its constraint, and each literal knows the sets that have it: two literals are adjacent where
//! they are in one set. So the graph is as large as these constraints, and not as the pairs of them.

use kernel::Kernel;
use linear::Lit;
use normal_form::Normal;
use propagate::{Id, Propagator};
use std::alloc::{AllocError, Global};

/// Sets above this size are left out: each pair of one is derived by weakening all others.
const LARGEST_SET: usize = 200;

/// Sets of literals of which at most one is true.
#[derive(Debug, Drop)]
pub(crate) struct ConflictGraph {
    /// The constraint of each set.
    sets: Vec<Id>,
    /// By the number of a literal: the places of the sets that have it, rising.
    sets_of: Vec<Vec<usize>>,
}

/// Whether all coefficients of a constraint are the same.
fn has_one_coefficient(constraint: &Normal) -> bool {
    let mut known: Option<u128> = None;
    for place in 0..constraint.len() {
        let coefficient = constraint.term(place).coef;
        if known.is_some_and(|known| known != coefficient) {
            return false;
        }
        known = Some(coefficient);
    }
    true
}

/// Whether a constraint says that at most one of its literals is false, and no more.
fn is_at_most_one(constraint: &Normal) -> bool {
    let count = constraint.len();
    if count < 2 || count > LARGEST_SET || !has_one_coefficient(constraint) {
        return false;
    }
    let coefficient = constraint.term(0).coef;
    let most = coefficient.saturating_mul(count as u128);
    let lacks = most.saturating_sub(constraint.degree());
    lacks >= coefficient && lacks < coefficient.saturating_mul(2)
}

/// The first number that two rising lists have in common.
fn first_common(left: &[usize], right: &[usize]) -> Option<usize> {
    let mut left_place: usize = 0;
    let mut right_place: usize = 0;
    for _ in 0..left.len().saturating_add(right.len()) {
        let (Some(ours), Some(theirs)) = (left.get(left_place), right.get(right_place)) else {
            return None;
        };
        if *ours == *theirs {
            return Some(*ours);
        }
        if *ours < *theirs {
            left_place = left_place.saturating_add(1);
        } else {
            right_place = right_place.saturating_add(1);
        }
    }
    None
}

impl ConflictGraph {
    /// The graph of the constraints of the file, over so many variables.
    pub(crate) fn of<'a, P: Propagator>(
        alloc: Global,
        kernel: &Kernel<'a, P>,
        variables: usize,
    ) -> Result<Self, AllocError> {
        let mut graph = ConflictGraph {
            sets: Vec::new(alloc),
            sets_of: Vec::new(alloc),
        };
        for _ in 0..variables.saturating_mul(2) {
            graph.sets_of.push(Vec::new(alloc))?;
        }
        graph.add_file(kernel)?;
        Ok(graph)
    }

    /// Adds the sets of the constraints of the file.
    fn add_file<'a, P: Propagator>(&mut self, kernel: &Kernel<'a, P>) -> Result<(), AllocError> {
        for number in 0..kernel.problem_ids() {
            if let Ok(id) = Id::try_from(number.saturating_add(1)) {
                if let Some(constraint) = kernel.constraint(id) {
                    self.add(id, constraint)?;
                }
            }
        }
        Ok(())
    }

    /// Adds the set of a constraint, if it is one.
    fn add(&mut self, id: Id, constraint: &Normal) -> Result<(), AllocError> {
        if !is_at_most_one(constraint) {
            return Ok(());
        }
        let set = self.sets.len();
        self.sets.push(id)?;
        for place in 0..constraint.len() {
            let literal = constraint.term(place).literal().opposite();
            if let Some(sets) = self.sets_of.get_mut(literal.code()) {
                sets.push(set)?;
            }
        }
        Ok(())
    }

    /// Whether no two literals exclude each other.
    pub(crate) fn is_empty(&self) -> bool {
        self.sets.is_empty()
    }

    /// The places of the sets that have a literal, rising.
    pub(crate) fn sets_of(&self, literal: Lit) -> &[usize] {
        match self.sets_of.get(literal.code()) {
            Some(sets) => sets.as_slice(),
            None => &[],
        }
    }

    /// The constraint of the set at a place.
    pub(crate) fn constraint_of(&self, set: usize) -> Option<Id> {
        self.sets.get(set).copied()
    }

    /// The constraint of the first set that has both of two literals.
    pub(crate) fn constraint_of_pair(&self, left: Lit, right: Lit) -> Option<Id> {
        let set = first_common(self.sets_of(left), self.sets_of(right))?;
        self.constraint_of(set)
    }
}
