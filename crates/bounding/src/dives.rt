//! Dives: descents along the best points of the relaxation, to a first solution that is about as good as its bound.
//!
//! A search that follows its conflicts comes to a good solution by way of many bad ones, and pays a conflict for each. The best point of the
//! relaxation is near a good one. So until there is a solution a call stands before each decision, and of the variables that its point has
//! between their bounds the one that is nearest to 1 becomes true (a kind of fractional diving: Achterberg, 2007; there each goes to the
//! bound that it is nearest to). A dive begins at the root, and goes on behind some conflicts, which teach as others do. Dives for better solutions, at restarts,
//! were tried, and brought nothing.

use super::advice::Node;
use super::effort::{CALL_WORK, STEPS};
use relaxation::Limits;

/// How many conflicts a dive may meet before it comes to a solution.
const MOST_CONFLICTS: u64 = 20;

/// How many times what the calls at the root have done all dives may do, `MORE_WORK` aside.
const TIMES_ROOT: u64 = 8;

/// How much dives may do beside that, so that there is one also where the root cost next to nothing.
const MORE_WORK: u64 = 50_000_000;

/// How much dives may do in all, whatever the root has cost. A dive that is cut short comes to a solution that is no better than any.
const MOST_WORK: u64 = 1_000_000_000;

/// Whether a dive goes on, and what all of them have done.
#[derive(Clone, Copy, Debug)]
pub(crate) struct Dives {
    /// A dive goes on as long as there were no more conflicts than these.
    until: Option<u64>,
    /// What all of them have done, in multiplications about.
    done: u64,
    /// What they may have done.
    most: u64,
}

impl Dives {
    /// None has begun.
    pub(crate) fn new() -> Self {
        Dives {
            until: None,
            done: 0,
            most: 0,
        }
    }

    /// Begins a dive at a root where calls have done so much.
    pub(crate) fn begin(&mut self, node: Node<'_>, at_root: u64) {
        self.until = Some(node.conflicts.saturating_add(MOST_CONFLICTS));
        self.most = at_root
            .saturating_mul(TIMES_ROOT)
            .saturating_add(MORE_WORK)
            .min(MOST_WORK);
    }

    /// Ends a dive: there is a solution.
    pub(crate) fn end(&mut self) {
        self.until = None;
    }

    /// Whether a dive goes on at a node.
    pub(crate) fn are_open(self, node: Node<'_>) -> bool {
        match self.until {
            Some(until) => {
                node.decisions > 0 && node.conflicts <= until && self.done < self.most
            }
            None => false,
        }
    }

    /// What a call of a dive may do.
    pub(crate) fn limits(self) -> Limits {
        Limits {
            steps: STEPS,
            work: CALL_WORK,
        }
    }

    /// A call of a dive has done so much.
    pub(crate) fn note(&mut self, cost: u64) {
        self.done = self.done.saturating_add(cost);
    }

    /// What all of them have done.
    pub(crate) fn done(self) -> u64 {
        self.done
    }
}
