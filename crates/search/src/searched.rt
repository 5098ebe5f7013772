//! How much a search has done so far, about, in terms of constraints that it has looked at.
//!
//! The relaxation has a share of the work, so somebody has to know what the other part is. It is reckoned and not counted, so that the loops
//! of propagation pay nothing for it: a literal that comes is looked up in the constraints that have its variable, those of the file and
//! those that were learned.

use linear::Problem;

/// What a literal costs beside the terms that are looked at.
const LITERAL: u64 = 5;

/// How many terms were looked at so far, about.
#[derive(Clone, Copy, Debug)]
pub(crate) struct Searched {
    terms: u64,
    variables: u64,
    /// How many terms the file has.
    file: u64,
    /// How many terms what was learned and is kept has.
    learned: u64,
    /// How many literals had come when it was last reckoned.
    literals: u64,
}

impl Searched {
    /// Nothing was looked at in a search of this problem.
    pub(crate) fn new(problem: &Problem) -> Self {
        Searched {
            terms: 0,
            variables: problem.names().len() as u64,
            file: problem.constraints().term_count() as u64,
            learned: 0,
            literals: 0,
        }
    }

    /// So many literals have come since the search began.
    pub(crate) fn follow(&mut self, literals: u64) {
        let came = literals.saturating_sub(self.literals);
        self.literals = literals;
        let for_each = self.file.saturating_add(self.learned) / self.variables.max(1);
        let more = came.saturating_mul(for_each.saturating_add(LITERAL));
        self.terms = self.terms.saturating_add(more);
    }

    /// An analysis, if there was one, came by so many terms, and what was learned and is kept has so many.
    pub(crate) fn analyse(&mut self, met: usize, kept: u64) {
        let more = (met as u64).saturating_mul(2);
        self.terms = self.terms.saturating_add(more);
        self.learned = kept;
    }

    /// How many terms were looked at so far, about.
    pub(crate) fn terms(self) -> u64 {
        self.terms
    }
}
