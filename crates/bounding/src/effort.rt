//! The share of the work that the relaxation has, and how much a call may do.
//!
//! One call costs as much as thousands of propagations, and on many problems it says nothing that propagation does not. So it has a
//! share of the work, which rises where it ends a descent and falls where it does not. At the root, where a bound serves the whole search,
//! it may do more: once at the start, and then, where the search has not ended soon, at restarts, ever more seldom but for the next one behind
//! a better solution, by which more is fixed there. What it does there, with the rounds of cuts, has a share of its own, so that a root that
//! took long does not keep the relaxation from the nodes below. All of this is counted and not timed: multiplications of the relaxation
//! beside terms that the search has looked at, about.

use super::advice::Node;
use relaxation::Limits;

/// One, in the units of shares.
const WHOLE: u64 = 1 << 20;

/// The share at the start: 0.3.
const FIRST_SHARE: u64 = 314_573;

/// The least share: 0.05.
const LEAST_SHARE: u64 = 52_429;

/// The greatest share: 0.8.
const GREATEST_SHARE: u64 = 838_861;

/// By how much the share rises at least: 0.002.
const LEAST_RISE: u64 = 2_097;

/// A call that has done so much costs a thousandth of the share.
const WORK_PER_THOUSANDTH: u64 = 50_000;

/// A term that the search looks at takes as long as so many multiplications.
const WEIGHT_OF_SEARCH: u64 = 10;

/// How many steps a call below the root may take.
pub(crate) const STEPS: u32 = 1_000;

/// How many a call may take that is far from the root, as long as there is no solution to be better than.
const FEW_STEPS: u32 = 200;

/// From so many open decisions on a call is far from the root.
const FAR: usize = 5;

/// How much a call below the root may do.
pub(crate) const CALL_WORK: u64 = 100_000_000;

/// How many steps a call at the root may take.
const ROOT_STEPS: u32 = 1_000_000;

/// How much the first call at the root may do, however small the problem is.
const FIRST_ROOT_WORK: u64 = 8_000_000;

/// How many passes the first call at the root may make, of all terms for each row and each variable, where there is an objective: without a
/// bound a search over many variables goes astray.
const FIRST_ROOT_PASSES: u64 = 16;

/// How much the first call at the root may do, however large the problem is.
const MOST_FIRST_ROOT_WORK: u64 = 1_000_000_000;

/// How much a search has done before any further call there: small problems are solved by then, in a fraction of what the rounds of cuts would
/// take.
const SEARCHED_BEFORE: u64 = 100_000;

/// How much any later one may do at least.
const ROOT_WORK: u64 = 20_000_000;

/// So many conflicts more come before each further call at the root, from the third on.
const CONFLICTS_BETWEEN_ROOTS: u64 = 200;

/// The share of the work that calls have, and when the next one at the root is due.
#[derive(Clone, Copy, Debug)]
pub(crate) struct Effort {
    share: u64,
    /// How much the first call at the root may do.
    first_root_work: u64,
    /// How much the calls at the root have done.
    at_root: u64,
    root_calls: u64,
    next_root: u64,
}

impl Effort {
    /// Nothing was done yet, of a problem of which a pass takes so much: over all terms for each row and each variable, 0 without an objective.
    pub(crate) fn new(pass: u64) -> Self {
        let work = pass
            .saturating_mul(FIRST_ROOT_PASSES)
            .min(MOST_FIRST_ROOT_WORK);
        Effort {
            share: FIRST_SHARE,
            first_root_work: work.max(FIRST_ROOT_WORK),
            at_root: 0,
            root_calls: 0,
            next_root: 0,
        }
    }

    /// What a call may do at a node where so much was done in calls so far; none where no call is due.
    pub(crate) fn limits(&mut self, done: u64, node: Node<'_>, aim: Aim) -> Option<Limits> {
        if node.decisions == 0 {
            return self.root_limits(node);
        }
        if !self.is_within_share(done.saturating_sub(self.at_root), node.searched) {
            return None;
        }
        let steps = match aim {
            Aim::Better => STEPS,
            Aim::Any if node.decisions < FAR => STEPS,
            Aim::Any => FEW_STEPS,
        };
        Some(Limits {
            steps,
            work: CALL_WORK,
        })
    }

    /// What a call at the root may do, where one is due.
    fn root_limits(&mut self, node: Node<'_>) -> Option<Limits> {
        let work = if self.root_calls == 0 {
            self.first_root_work
        } else {
            if node.conflicts < self.next_root
                || node.searched < SEARCHED_BEFORE
                || !self.is_within_share(self.at_root.saturating_sub(ROOT_WORK), node.searched)
            {
                return None;
            }
            ROOT_WORK.saturating_add((node.searched / 10).saturating_mul(3))
        };
        self.root_calls = self.root_calls.saturating_add(1);
        self.next_root = node.conflicts.saturating_add(self.pause());
        Some(Limits {
            steps: ROOT_STEPS,
            work,
        })
    }

    /// Has a call at the root due again, as soon as the search has done enough: a better solution is known, by which a bound fixes more there.
    pub(crate) fn ask_root(&mut self) {
        self.next_root = 0;
    }

    /// How many conflicts come between the last call at the root and the next one: one behind the first call, since cuts come only then.
    fn pause(self) -> u64 {
        let further = self.root_calls.saturating_sub(1);
        CONFLICTS_BETWEEN_ROOTS.saturating_mul(further).max(1)
    }

    /// Whether calls that have done so much have done less than their share, where the search has done so much.
    fn is_within_share(self, done: u64, searched: u64) -> bool {
        let rest = WHOLE.saturating_sub(self.share);
        let ours = u128::from(done).saturating_mul(u128::from(rest));
        let weighed = WEIGHT_OF_SEARCH.saturating_mul(self.share);
        ours < u128::from(searched).saturating_mul(u128::from(weighed))
    }

    /// How much the calls at the root have done.
    pub(crate) fn at_root(self) -> u64 {
        self.at_root
    }

    /// A call at the root has done so much.
    pub(crate) fn note_root(&mut self, cost: u64) {
        self.at_root = self.at_root.saturating_add(cost);
    }

    /// A call has ended a descent: the share rises by three hundredths of itself, and by a little more, so that the least share rises too.
    pub(crate) fn reward(&mut self) {
        let more = (self.share / 100).saturating_mul(3);
        self.share = self
            .share
            .saturating_add(more)
            .saturating_add(LEAST_RISE)
            .min(GREATEST_SHARE);
    }

    /// A call has cost so much, and has not: the share falls by five thousandths of itself, by more where the call was dear, and by half at most.
    pub(crate) fn charge(&mut self, cost: u64) {
        let lost = (cost / WORK_PER_THOUSANDTH).saturating_add(5).min(500);
        let kept = 1_000_u64.saturating_sub(lost);
        self.share = (self.share.saturating_mul(kept) / 1_000).max(LEAST_SHARE);
    }
}

/// What solutions are looked for.
#[derive(Clone, Copy, Debug, PartialEq, Eq)]
pub(crate) enum Aim {
    /// Any.
    Any,
    /// One that is better than the best one.
    Better,
}
