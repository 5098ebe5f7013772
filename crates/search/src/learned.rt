//! What was learned and is still live, and how it is forgotten.
//!
//! Each constraint that is learned makes every propagation after it dearer, and few of the old ones are met again. So from time
//! to time half of them goes: those that no analysis came by for longest, and of those the ones whose literals are of most levels
//! (Audemard and Simon, 2009). What stays in any case: a constraint in which a literal is forced, one of one or two
//! literals, and one of few levels that was met not long ago.

ghost use Rattle.std.specs.Prelude.{All, IfOk, IfSome};
ghost use Rattle.propagate.specs.Ids.{HasId};
ghost use Rattle.search.specs.Undoing.{IsNoReason};

use analysis::{SearchTrail, Size};
use propagate::{Id, Ids};
use std::alloc::{AllocError, Global};
use std::cmp::Reverse;

/// So many conflicts come before the first time that half is forgotten.
const CONFLICTS: u64 = 2000;

/// So many more come before each later time.
const MORE: u64 = 300;

/// A constraint whose literals are of so many levels at most stays for long.
const FEW_LEVELS: u32 = 2;

/// It stays for so many conflicts.
const LONG: u64 = 20000;

/// Of two constraints the one with the lower rank goes first: it was met earlier, is of more levels, or is older.
#[derive(Clone, Copy, Debug, PartialEq, Eq, PartialOrd, Ord)]
struct Rank {
    met: u64,
    levels: Reverse<u32>,
    id: Id,
}

/// What is kept of a constraint that was learned.
#[derive(Clone, Copy, Debug)]
struct LearnedConstraint {
    id: Id,
    size: Size,
    /// The number of the conflict whose analysis came by it last.
    met: u64,
}

impl LearnedConstraint {
    /// How many terms it has.
    fn terms(self) -> u64 {
        self.size.literals as u64
    }

    /// Whether it stays whatever the others are.
    fn stays(self, conflicts: u64) -> bool {
        self.size.literals <= 2
            || (self.size.levels <= FEW_LEVELS && self.met.saturating_add(LONG) > conflicts)
    }

    /// Whether it may go, and goes before those of a rank; none does where there is no rank.
    fn goes(self, conflicts: u64, rank: Option<Rank>) -> bool {
        match rank {
            Some(rank) => !self.stays(conflicts) && self.rank() < rank,
            None => false,
        }
    }

    fn rank(self) -> Rank {
        Rank {
            met: self.met,
            levels: Reverse(self.size.levels),
            id: self.id,
        }
    }
}

/// What was learned and is live, by rising id.
#[derive(Drop)]
pub(crate) struct LearnedConstraints {
    all: Vec<LearnedConstraint>,
    conflicts: u64,
    /// The number of the conflict after which half is forgotten next.
    next: u64,
    /// How many conflicts lie between that one and the one after.
    interval: u64,
    /// How many terms all have together.
    terms: u64,
}

/// The ids in whose constraints literals of a trail are forced.
pub(crate) fn reasons_of(alloc: Global, trail: &SearchTrail) -> Result<Ids, AllocError>
    ensures { IfOk result (λ ids. All (λ e. IfSome e.reason (HasId ids)) trail.now.entries) }
{
    let mut reasons = Ids::empty(alloc);
    for place in 0..trail.len() {
        if let Some(reason) = trail.entry(place).reason {
            reasons.insert(reason)?;
        }
    }
    Ok(reasons)
}

impl LearnedConstraints {
    /// Nothing yet.
    pub(crate) fn new(alloc: Global) -> Self {
        LearnedConstraints {
            all: Vec::new(alloc),
            conflicts: 0,
            next: CONFLICTS,
            interval: CONFLICTS,
            terms: 0,
        }
    }

    /// How many terms all have together.
    pub(crate) fn terms(&self) -> u64 {
        self.terms
    }

    /// How many are live.
    pub(crate) fn count(&self) -> usize {
        self.all.len()
    }

    /// Counts a conflict.
    pub(crate) fn count_conflict(&mut self) {
        self.conflicts = self.conflicts.saturating_add(1);
    }

    /// One more was learned, of this size. A number beyond all ids is none.
    pub(crate) fn push(&mut self, number: u64, size: Size) -> Result<(), AllocError> {
        if let Ok(id) = Id::try_from(number) {
            let one = LearnedConstraint {
                id,
                size,
                met: self.conflicts,
            };
            self.all.push(one)?;
            self.terms = self.terms.saturating_add(one.terms());
        }
        Ok(())
    }

    /// How many are of lower ids.
    fn count_below(&self, id: Id) -> usize {
        let mut low = 0;
        let mut high = self.all.len();
        while low < high {
            let middle = low + (high - low) / 2;
            if self.all[middle].id < id {
                low = middle + 1;
            } else {
                high = middle;
            }
        }
        low
    }

    /// The analysis of a conflict came by the constraints of these ids.
    pub(crate) fn meet(&mut self, ids: &[Id]) {
        for id in ids {
            let place = self.count_below(*id);
            if place < self.all.len() && self.all[place].id == *id {
                self.all[place].met = self.conflicts;
            }
        }
    }

    /// Whether it is time to forget half; then that is put off to a later time.
    pub(crate) fn put_off_if_due(&mut self) -> bool {
        if self.conflicts < self.next {
            return false;
        }
        self.interval = self.interval.saturating_add(MORE);
        self.next = self.conflicts.saturating_add(self.interval);
        true
    }

    /// The rank below which half of those lie that may go; none where none may.
    fn middle_rank(&self, alloc: Global, reasons: &Ids) -> Result<Option<Rank>, AllocError> {
        let mut ranks = Vec::new(alloc);
        for one in &self.all {
            if !reasons.contains(one.id) && !one.stays(self.conflicts) {
                ranks.push(one.rank())?;
            }
        }
        ranks.sort()?;
        Ok(ranks.get(ranks.len() / 2).copied())
    }

    /// Takes out half of those that may go: those of the lowest ranks.
    pub(crate) fn take_half(
        &mut self,
        alloc: Global,
        trail: &SearchTrail,
    ) -> Result<Vec<Id>, AllocError>
        ensures { IfOk result (λ gone. All (IsNoReason trail.now.entries) gone.items) }
    {
        let reasons = reasons_of(alloc, trail)?;
        let middle = self.middle_rank(alloc, &reasons)?;
        let mut gone = Vec::new(alloc);
        let mut kept = Vec::new(alloc);
        let mut terms: u64 = 0;
        for one in &self.all {
            if one.goes(self.conflicts, middle) && !reasons.contains(one.id) {
                gone.push(one.id)?;
            } else {
                kept.push(*one)?;
                terms = terms.saturating_add(one.terms());
            }
        }
        self.all = kept;
        self.terms = terms;
        Ok(gone)
    }
}
