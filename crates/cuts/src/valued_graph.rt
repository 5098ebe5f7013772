//! Which literals exclude each other, and what each of them has at the point of the relaxation.
//!
//! Cliques are grown in this graph, from literals of great value on. A set of it is looked at by its constraint, which the kernel has.

use super::conflict_graph::ConflictGraph;
use super::violation::literal_value;
use kernel::Kernel;
use linear::{Lit, Var};
use normal_form::Normal;
use propagate::Propagator;
use relaxation::{Fixed, Relaxation};
use std::alloc::{AllocError, Global};

/// A clique begins with a literal of this value at least: a fifth, in units of `2^-32`.
const LEAST_START: i64 = 858_993_459;

/// A literal, and its value at the point in units of `2^-32`.
#[derive(Clone, Copy, Debug)]
pub(crate) struct Valued {
    pub(crate) literal: Lit,
    pub(crate) value: i64,
}

/// The graph of the literals that exclude each other, whose sets a kernel has, and their values at the point of the last call.
#[derive(Drop)]
pub(crate) struct ValuedGraph<'g, 'a, P: Propagator> {
    pub(crate) kernel: &'g Kernel<'a, P>,
    pub(crate) conflicts: &'g ConflictGraph,
    pub(crate) relaxation: &'g Relaxation,
}

impl<'g, 'a, P: Propagator> ValuedGraph<'g, 'a, P> {
    /// The places of the sets that have a literal.
    pub(crate) fn sets_of(&self, literal: Lit) -> &'g [usize] {
        self.conflicts.sets_of(literal)
    }

    /// The constraint of the set at a place.
    pub(crate) fn constraint_of(&self, set: usize) -> Option<&'g Normal> {
        let id = self.conflicts.constraint_of(set)?;
        self.kernel.constraint(id)
    }

    /// A literal with its value.
    pub(crate) fn valued(&self, literal: Lit) -> Valued {
        Valued {
            literal,
            value: literal_value(self.relaxation, literal),
        }
    }

    /// The literals with which a clique may begin, of so many variables, the one of the greatest value first.
    pub(crate) fn starts(
        &self,
        alloc: Global,
        variables: usize,
    ) -> Result<Vec<Valued>, AllocError> {
        let mut found = Vec::new(alloc);
        for number in 0..variables {
            if let Ok(number) = u32::try_from(number) {
                let literal = Lit {
                    var: Var(number),
                    negated: false,
                };
                self.add_start(&mut found, literal)?;
                self.add_start(&mut found, literal.opposite())?;
            }
        }
        found.sort_by_key(|valued| Fixed::ONE.units().saturating_sub(valued.value))?;
        Ok(found)
    }

    /// Adds a literal, if a clique may begin with it.
    fn add_start(&self, found: &mut Vec<Valued>, literal: Lit) -> Result<(), AllocError> {
        let start = self.valued(literal);
        if start.value >= LEAST_START && !self.sets_of(start.literal).is_empty() {
            found.push(start)?;
        }
        Ok(())
    }
}
