//! The rounds of cuts at the root.
//!
//! A round solves the relaxation, and looks for cuts that its point violates. These come one after another and become rows; then the next round
//! solves again. A call at the root that is due by `effort` begins the rounds; they end after so many of them, where the work of that call
//! is done, where the bound has not risen for some of them, or where the search goes below the root. Where the relaxation was solved with
//! little work the rounds may not do much either, since such a problem may be solved without them in less time.

use relaxation::Limits;

/// How many rounds follow the first call at the root.
const FIRST_ROUNDS: u32 = 30;

/// How many follow each later one.
const LATER_ROUNDS: u32 = 5;

/// How many times what was done at the root before them rounds may do, `LEAST_WORK` aside.
const TIMES_BEFORE: u64 = 20;

/// How much rounds may do beside that, so that there are some also where the root cost next to nothing.
const LEAST_WORK: u64 = 1_000_000;

/// So many rounds may pass without a better bound before they end.
const MOST_STALLED: u32 = 4;

/// The rounds that are left, and what they may do.
#[derive(Clone, Copy, Debug)]
pub(crate) struct Rounds {
    left: u32,
    steps: u32,
    /// How much may have been done in all calls at the end of the rounds.
    work: u64,
    is_first: bool,
    stalled: u32,
    bound: Option<i128>,
}

impl Rounds {
    /// None has begun.
    pub(crate) fn new() -> Self {
        Rounds {
            left: 0,
            steps: 0,
            work: 0,
            is_first: true,
            stalled: 0,
            bound: None,
        }
    }

    /// Begins the rounds of a call at the root that may do so much, where so much was done so far, and so much of that at the root.
    pub(crate) fn begin(&mut self, done: u64, at_root: u64, limits: Limits) {
        self.left = if self.is_first {
            FIRST_ROUNDS
        } else {
            LATER_ROUNDS
        };
        self.steps = limits.steps;
        let most = at_root
            .saturating_mul(TIMES_BEFORE)
            .saturating_add(LEAST_WORK);
        self.work = done.saturating_add(limits.work.min(most));
        self.is_first = false;
        self.stalled = 0;
        self.bound = None;
    }

    /// Ends the rounds.
    pub(crate) fn end(&mut self) {
        self.left = 0;
    }

    /// Whether a further round may follow.
    pub(crate) fn are_open(self) -> bool {
        self.left > 0
    }

    /// What the next round may do, where so much was done so far; none where no round is left.
    pub(crate) fn next(&mut self, done: u64) -> Option<Limits> {
        if done >= self.work {
            self.end();
        }
        self.left = self.left.checked_sub(1)?;
        Some(Limits {
            steps: self.steps,
            work: self.work.saturating_sub(done),
        })
    }

    /// Notes the bound of a round, in units of `2^-32` of scaled costs. Where it has stalled for too long the rounds end.
    pub(crate) fn note_bound(&mut self, bound: i128) {
        let has_risen = match self.bound {
            Some(before) => bound > before.saturating_add(least_rise(before)),
            None => true,
        };
        self.stalled = if has_risen {
            0
        } else {
            self.stalled.saturating_add(1)
        };
        self.bound = Some(bound);
        if self.stalled > MOST_STALLED {
            self.end();
        }
    }
}

/// What counts as a rise: about `10^-5` of the bound and of one.
fn least_rise(bound: i128) -> i128 {
    let size = bound.saturating_abs() >> 17;
    size.saturating_add(1 << 15)
}
