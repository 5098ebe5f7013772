//! The search for cliques that the point of the relaxation violates.
//!
//! Each literal knows to how many members of the clique it is adjacent, as long as that is all of them: a member that comes raises the numbers of
//! its neighbours, and those that it leaves behind are out. So a clique costs the sizes of its members' sets, and no pair of
//! literals is looked up.

use super::conflict_graph::ConflictGraph;
use super::valued_graph::{Valued, ValuedGraph};
use kernel::Kernel;
use linear::Lit;
use normal_form::Normal;
use propagate::Propagator;
use relaxation::{Fixed, Relaxation};
use std::alloc::{AllocError, Global};

/// What the values of a clique are above 1 at least: a fiftieth, in units of `2^-32`.
const LEAST_EXCESS: i64 = 85_899_346;

/// How many members a clique has at most.
const MOST_MEMBERS: usize = 48;

/// How many cliques are looked for at most.
const MOST_CLIQUES: usize = 60;

/// A literal that is in more cliques than so many begins no more.
const MOST_USES: u8 = 2;

/// How many terms of sets are looked at.
const MOST_TERMS: usize = 1_000_000;

/// What the search keeps.
#[derive(Debug, Drop)]
pub(crate) struct CliqueSearch {
    alloc: Global,
    /// By the number of a literal: to how many members it is adjacent, where it is to all.
    adjacent: Vec<usize>,
    /// The literals that are adjacent to the first member.
    neighbours: Vec<Valued>,
    /// By the number of a literal: in how many cliques it is.
    uses: Vec<u8>,
    members: Vec<Lit>,
    /// How many terms of sets were looked at.
    looked_at: usize,
}

impl CliqueSearch {
    /// A search over so many variables.
    pub(crate) fn new(alloc: Global, variables: usize) -> Result<Self, AllocError> {
        let count = variables.saturating_mul(2);
        Ok(CliqueSearch {
            alloc,
            adjacent: vec![in alloc; 0; count]?,
            neighbours: Vec::new(alloc),
            uses: vec![in alloc; 0; count]?,
            members: Vec::new(alloc),
            looked_at: 0,
        })
    }

    /// The cliques that the point of the last call violates, as lists of their literals.
    pub(crate) fn run<'a, P: Propagator>(
        &mut self,
        kernel: &Kernel<'a, P>,
        conflicts: &ConflictGraph,
        relaxation: &Relaxation,
    ) -> Result<Vec<Vec<Lit>>, AllocError> {
        let graph = ValuedGraph {
            kernel,
            conflicts,
            relaxation,
        };
        let mut found = Vec::new(self.alloc);
        self.looked_at = 0;
        for start in &graph.starts(self.alloc, self.adjacent.len() / 2)? {
            if found.len() < MOST_CLIQUES && self.may_begin(start.literal) {
                let excess = self.grow(&graph, *start)?;
                if excess >= LEAST_EXCESS && self.members.len() > 2 {
                    found.push(self.members.clone()?)?;
                    self.count_uses();
                }
            }
        }
        self.forget_uses();
        Ok(found)
    }

    /// Whether a clique may begin with a literal.
    fn may_begin(&self, literal: Lit) -> bool {
        let is_fresh = match self.uses.get(literal.code()) {
            Some(uses) => *uses <= MOST_USES,
            None => false,
        };
        is_fresh && self.looked_at < MOST_TERMS
    }

    /// Counts the members of a clique that was found.
    fn count_uses(&mut self) {
        for member in &self.members {
            if let Some(uses) = self.uses.get_mut(member.code()) {
                *uses = uses.saturating_add(1);
            }
        }
    }

    /// Makes all counts 0 again.
    fn forget_uses(&mut self) {
        for uses in self.uses.iter_mut() {
            *uses = 0;
        }
    }

    /// Makes a clique that begins with a literal; what the values of its members are above 1.
    fn grow<'g, 'a, P: Propagator>(
        &mut self,
        graph: &ValuedGraph<'g, 'a, P>,
        start: Valued,
    ) -> Result<i64, AllocError> {
        self.members.clear();
        self.neighbours.clear();
        self.take(graph, start.literal)?;
        self.neighbours
            .sort_by_key(|valued| Fixed::ONE.units().saturating_sub(valued.value))?;
        let mut sum = start.value;
        for place in 0..self.neighbours.len() {
            if let Some(valued) = self.neighbours.get(place).copied() {
                if self.fits(valued.literal) {
                    self.take(graph, valued.literal)?;
                    sum = sum.saturating_add(valued.value);
                }
            }
        }
        self.forget_neighbours();
        Ok(sum.saturating_sub(Fixed::ONE.units()))
    }

    /// Whether a literal is adjacent to all members, and there is room for one more.
    fn fits(&self, literal: Lit) -> bool {
        self.members.len() < MOST_MEMBERS
            && self.adjacent.get(literal.code()) == Some(&self.members.len())
    }

    /// Takes a literal into the clique, and raises the numbers of its neighbours.
    fn take<'g, 'a, P: Propagator>(
        &mut self,
        graph: &ValuedGraph<'g, 'a, P>,
        literal: Lit,
    ) -> Result<(), AllocError> {
        self.members.push(literal)?;
        for set in graph.sets_of(literal) {
            if let Some(constraint) = graph.constraint_of(*set) {
                self.raise_set(graph, constraint, literal)?;
            }
        }
        Ok(())
    }

    /// Raises the numbers of the literals of a set, but of one.
    fn raise_set<'g, 'a, P: Propagator>(
        &mut self,
        graph: &ValuedGraph<'g, 'a, P>,
        constraint: &Normal,
        taken: Lit,
    ) -> Result<(), AllocError> {
        for place in 0..constraint.len() {
            let literal = constraint.term(place).literal().opposite();
            if literal != taken {
                self.raise(graph, literal)?;
            }
        }
        self.looked_at = self.looked_at.saturating_add(constraint.len());
        Ok(())
    }

    /// Raises the number of a literal that was adjacent to all members before the last one.
    fn raise<'g, 'a, P: Propagator>(
        &mut self,
        graph: &ValuedGraph<'g, 'a, P>,
        literal: Lit,
    ) -> Result<(), AllocError> {
        let count = self.members.len();
        let Some(number) = self.adjacent.get_mut(literal.code()) else {
            return Ok(());
        };
        if number.saturating_add(1) == count {
            *number = count;
            if count == 1 {
                self.neighbours.push(graph.valued(literal))?;
            }
        }
        Ok(())
    }

    /// Makes the numbers of all neighbours 0 again.
    fn forget_neighbours(&mut self) {
        for valued in &self.neighbours {
            if let Some(number) = self.adjacent.get_mut(valued.literal.code()) {
                *number = 0;
            }
        }
    }
}
