//! The cuts of a round: which ones the point suggests, the best of them first, and each as a line when it is its turn.
//!
//! What is kept of a cut is how it is made, and no line: between two of them the search logs steps and deletes constraints, and what is handed out
//! has to be derived from what is live then. So each line is written and run twice, once to see what the cut is worth, and once
//! when it is handed out.

ghost use Rattle.std.specs.Prelude.{IfOk, IfSome};
ghost use Rattle.row_sums.specs.Derived.{Derives, IsDerivable};

use super::clique_search::CliqueSearch;
use super::cliques;
use super::conflict_graph::ConflictGraph;
use super::gomory::{self, Rounding, roundings};
use super::single_rows::row_roundings;
use super::violation::efficacy;
use kernel::Kernel;
use linear::{Lit, Seq};
use normal_form::Normal;
use proof_rules::StepFault;
use proof_steps::Item;
use propagate::Propagator;
use relaxation::{Relaxation, Row};
use row_sums::Sources;
use std::alloc::{AllocError, Global};
use std::collections::BTreeSet;
use std::mem;

/// How many cuts a round hands out.
const MOST_CUTS: usize = 30;

/// A cut has at most so many terms, and a fifth of the variables more.
const MOST_TERMS: usize = 300;

/// A round that has done so much, in multiplications about, looks for no more cuts.
const MOST_WORK: usize = 20_000_000;

/// What a term that is summed up, or an item that is written, takes in multiplications, about.
const WORK_OF_TERM: usize = 10;

/// How a cut is made.
#[derive(Debug, Drop)]
enum Recipe {
    /// Rows are summed up and divided, or one is.
    Rounding(Rounding),
    /// At most one of some literals is true.
    Clique(Vec<Lit>),
}

impl Recipe {
    /// The row that it is made of, where that is one alone.
    fn only_row(&self) -> Option<Row> {
        match self {
            Recipe::Rounding(rounding) => rounding.only_row(),
            Recipe::Clique(_) => None,
        }
    }
}

/// A cut that waits.
#[derive(Debug, Drop)]
struct Candidate {
    recipe: Recipe,
    efficacy: u128,
    signature: u64,
}

/// The cuts that wait, and what tells those apart that were handed out.
#[derive(Drop)]
pub struct Cuts {
    alloc: Global,
    graph: ConflictGraph,
    search: CliqueSearch,
    /// The best one last.
    waiting: Vec<Candidate>,
    handed_out: BTreeSet<u64>,
    most_terms: usize,
}

/// What is looked at where cuts are made.
#[derive(Clone, Copy)]
pub struct Point<'p> {
    /// Which constraints the rows are.
    pub sources: &'p Sources,
    /// The relaxation, of whose last call the point is the best one.
    pub relaxation: &'p Relaxation,
}

/// A number by which constraints are told apart. Two of them may share one; then the second is taken for the first.
fn signature(constraint: &Normal) -> u64 {
    let mut number = u64::try_from(constraint.degree()).unwrap_or(u64::MAX);
    for place in 0..constraint.len() {
        let term = constraint.term(place);
        let coefficient = u64::try_from(term.coef).unwrap_or(u64::MAX);
        number = mixed(mixed(number, coefficient), term.literal().code() as u64);
    }
    number
}

/// A number into which another one is mixed (the constant of Knuth's MMIX generator).
fn mixed(number: u64, other: u64) -> u64 {
    let sum = number.wrapping_add(other).wrapping_add(1);
    let product = sum.wrapping_mul(6_364_136_223_846_793_005);
    product ^ product.unbounded_shr(29)
}

impl Cuts {
    /// No cut yet, of a problem of so many variables whose constraints a kernel has.
    ///
    /// `AllocError` comes where a growth was refused.
    pub fn new<'a, P: Propagator>(
        alloc: Global,
        kernel: &Kernel<'a, P>,
        variables: usize,
    ) -> Result<Self, AllocError> {
        Ok(Cuts {
            alloc,
            graph: ConflictGraph::of(alloc, kernel, variables)?,
            search: CliqueSearch::new(alloc, variables)?,
            waiting: Vec::new(alloc),
            handed_out: BTreeSet::new(alloc),
            most_terms: MOST_TERMS.saturating_add(variables / 5),
        })
    }

    /// Forgets the cuts that wait.
    pub fn clear(&mut self) {
        self.waiting.clear();
    }

    /// Looks for the cuts that the point violates, in the stead of those that wait; how much was done for that, in multiplications about.
    ///
    /// `AllocError` comes where a growth was refused. Some of the cuts may wait then.
    pub fn find<'a, P: Propagator>(
        &mut self,
        kernel: &Kernel<'a, P>,
        point: Point<'_>,
    ) -> Result<usize, AllocError> {
        self.waiting.clear();
        let mut done: usize = 0;
        for recipe in self.recipes(kernel, point)? {
            if done < MOST_WORK {
                done = done.saturating_add(self.cost_of(kernel, point, &recipe));
                self.consider(kernel, point, recipe)?;
            }
        }
        self.waiting
            .sort_by_key(|candidate| u128::MAX.saturating_sub(candidate.efficacy))?;
        self.keep_best()?;
        self.waiting.reverse();
        Ok(done)
    }

    /// Keeps the first cuts that wait, and one of each row: those that are made of one row alone are much the same.
    fn keep_best(&mut self) -> Result<(), AllocError> {
        let mut rows = BTreeSet::new(self.alloc);
        let sorted = mem::replace(&mut self.waiting, Vec::new(self.alloc));
        for candidate in sorted {
            let is_fresh = match candidate.recipe.only_row() {
                Some(row) => rows.insert(row.0)?,
                None => true,
            };
            if is_fresh && self.waiting.len() < MOST_CUTS {
                self.waiting.push(candidate)?;
            }
        }
        Ok(())
    }

    /// All that the point suggests.
    fn recipes<'a, P: Propagator>(
        &mut self,
        kernel: &Kernel<'a, P>,
        point: Point<'_>,
    ) -> Result<Vec<Recipe>, AllocError> {
        let mut recipes = self.clique_recipes(kernel, point)?;
        for rounding in row_roundings(self.alloc, kernel, point.sources, point.relaxation)? {
            recipes.push(Recipe::Rounding(rounding))?;
        }
        for rounding in roundings(self.alloc, point.relaxation)? {
            recipes.push(Recipe::Rounding(rounding))?;
        }
        Ok(recipes)
    }

    /// The cliques that the point violates.
    fn clique_recipes<'a, P: Propagator>(
        &mut self,
        kernel: &Kernel<'a, P>,
        point: Point<'_>,
    ) -> Result<Vec<Recipe>, AllocError> {
        let mut recipes = Vec::new(self.alloc);
        if self.graph.is_empty() {
            return Ok(recipes);
        }
        for members in self.search.run(kernel, &self.graph, point.relaxation)? {
            recipes.push(Recipe::Clique(members))?;
        }
        Ok(recipes)
    }

    /// What it takes to write and run the line of a cut, in multiplications about.
    fn cost_of<'a, P: Propagator>(
        &self,
        kernel: &Kernel<'a, P>,
        point: Point<'_>,
        recipe: &Recipe,
    ) -> usize {
        let terms = match recipe {
            Recipe::Rounding(rounding) => gomory::term_count(kernel, point.sources, rounding),
            Recipe::Clique(members) => members.len().saturating_mul(members.len()),
        };
        terms.saturating_mul(WORK_OF_TERM)
    }

    /// Keeps a cut that is worth having and new.
    fn consider<'a, P: Propagator>(
        &mut self,
        kernel: &Kernel<'a, P>,
        point: Point<'_>,
        recipe: Recipe,
    ) -> Result<(), AllocError> {
        let Some((_, constraint)) = self.line_of(kernel, point, &recipe)? else {
            return Ok(());
        };
        let signature = signature(&constraint);
        if self.is_known(signature) {
            return Ok(());
        }
        if let Some(efficacy) = efficacy(&constraint, point.relaxation, self.most_terms) {
            self.waiting.push(Candidate {
                recipe,
                efficacy,
                signature,
            })?;
        }
        Ok(())
    }

    /// Whether a cut waits or was handed out.
    fn is_known(&self, signature: u64) -> bool {
        self.handed_out.contains(&signature)
            || self
                .waiting
                .iter()
                .any(|candidate| candidate.signature == signature)
    }

    /// Writes and runs the line of a cut; none where it cannot be run.
    fn line_of<'a, P: Propagator>(
        &self,
        kernel: &Kernel<'a, P>,
        point: Point<'_>,
        recipe: &Recipe,
    ) -> Result<Option<(Seq<Item>, Normal)>, AllocError>
        ensures { IfOk result (λ found. IfSome found (λ p. Derives kernel.now.state p.0 p.1)) }
    {
        match self.run(kernel, point, recipe) {
            Ok(line) => Ok(Some(line)),
            Err(StepFault::OutOfMemory) => Err(AllocError),
            Err(_) => Ok(None),
        }
    }

    /// The same, or why the line cannot be run.
    fn run<'a, P: Propagator>(
        &self,
        kernel: &Kernel<'a, P>,
        point: Point<'_>,
        recipe: &Recipe,
    ) -> Result<(Seq<Item>, Normal), StepFault>
        ensures { IfOk result (λ p. Derives kernel.now.state p.0 p.1) }
    {
        match recipe {
            Recipe::Rounding(rounding) => gomory::derive(
                self.alloc,
                kernel,
                point.sources,
                point.relaxation,
                rounding,
            ),
            Recipe::Clique(members) => {
                cliques::derive(self.alloc, kernel, &self.graph, members.as_slice())
            }
        }
    }

    /// The line of the next cut that waits and that the point still violates, if there is one.
    ///
    /// `AllocError` comes where a growth was refused. The cut is forgotten then.
    pub fn next<'a, P: Propagator>(
        &mut self,
        kernel: &Kernel<'a, P>,
        point: Point<'_>,
    ) -> Result<Option<Seq<Item>>, AllocError>
        ensures { IfOk result (λ found. IfSome found (IsDerivable kernel.now.state)) }
    {
        for _ in 0..self.waiting.len() {
            let Some(candidate) = self.waiting.pop() else {
                return Ok(None);
            };
            if let Some(items) = self.try_candidate(kernel, point, &candidate)? {
                return Ok(Some(items));
            }
        }
        Ok(None)
    }

    /// The line of a cut, if the point still violates what it derives now.
    fn try_candidate<'a, P: Propagator>(
        &mut self,
        kernel: &Kernel<'a, P>,
        point: Point<'_>,
        candidate: &Candidate,
    ) -> Result<Option<Seq<Item>>, AllocError>
        ensures { IfOk result (λ found. IfSome found (IsDerivable kernel.now.state)) }
    {
        let Some((items, constraint)) = self.line_of(kernel, point, &candidate.recipe)? else {
            return Ok(None);
        };
        if efficacy(&constraint, point.relaxation, self.most_terms).is_none() {
            return Ok(None);
        }
        self.handed_out.insert(signature(&constraint))?;
        Ok(Some(items))
    }
}
