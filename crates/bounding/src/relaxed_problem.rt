//! The relaxation of a search's problem, with what the relaxation itself does not know: under which ids the kernel has the constraints of its
//! rows, and which literals are fixed in it.
//!
//! Literals are fixed where a call is made, and not where the search decides them: a call costs more than that anyhow, and a search that asks in
//! vain pays nothing for each literal.

use super::effort::Aim;
use cuts::Point;
use kernel::Kernel;
use linear::{Lit, Problem};
use propagate::Propagator;
use relaxation::{End, Limits, Relaxation};
use row_sums::Sources;
use std::alloc::{AllocError, Global};

/// A relaxation, the ids of its rows, and the literals that are fixed in it.
#[derive(Drop)]
pub(crate) struct RelaxedProblem {
    pub(crate) relaxation: Relaxation,
    pub(crate) sources: Sources,
    fixed: Vec<Lit>,
}

impl RelaxedProblem {
    /// The relaxation of a problem without its constraints.
    pub(crate) fn new(alloc: Global, problem: &Problem) -> Result<Self, AllocError> {
        let mut relaxation = Relaxation::new(alloc, problem.names().len())?;
        if let Some(objective) = problem.objective() {
            relaxation.set_cost(objective.as_slice())?;
        }
        Ok(RelaxedProblem {
            relaxation,
            sources: Sources::new(alloc),
            fixed: Vec::new(alloc),
        })
    }

    /// Adds the rows of the file's constraints, which a kernel has; how many terms these have together, if they are at most so many.
    pub(crate) fn add_file<'a, P: Propagator>(
        &mut self,
        alloc: Global,
        kernel: &Kernel<'a, P>,
        most_terms: usize,
    ) -> Result<Option<usize>, AllocError> {
        self.sources
            .add_file(alloc, kernel, &mut self.relaxation, most_terms)
    }

    /// What solutions are looked for.
    pub(crate) fn aim(&self) -> Aim {
        if self.sources.has_solution() {
            Aim::Better
        } else {
            Aim::Any
        }
    }

    /// What is looked at where lines are made of the rows.
    pub(crate) fn point(&self) -> Point<'_> {
        Point {
            sources: &self.sources,
            relaxation: &self.relaxation,
        }
    }

    /// Solves the relaxation where just these literals stand.
    pub(crate) fn solve(&mut self, standing: &[Lit], limits: Limits) -> Result<End, AllocError> {
        self.free_all();
        self.fix(standing)?;
        self.relaxation.solve(self.sources.upper(), limits)
    }

    /// Frees the literals that are fixed.
    fn free_all(&mut self) {
        for literal in &self.fixed {
            self.relaxation.free(literal.var);
        }
        self.fixed.clear();
    }

    /// Fixes these literals, where none is.
    fn fix(&mut self, standing: &[Lit]) -> Result<(), AllocError> {
        self.fixed.reserve(standing.len())?;
        for literal in standing {
            self.fixed.push(*literal)?;
            self.relaxation.fix(*literal);
        }
        Ok(())
    }
}
