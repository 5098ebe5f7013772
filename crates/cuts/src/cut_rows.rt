//! The cuts that are rows of the relaxation, and those that leave it.
//!
//! A cut that the search has logged becomes a row. One that had slack at the points of some rounds one after another does nothing any more: it
//! leaves the relaxation, another cut may take its place, and its id waits for the search to ask which constraints may be deleted.

use cut_rules::saturate;
use normal_form::Normal;
use propagate::Id;
use relaxation::{Relaxation, Row};
use row_sums::Sources;
use std::alloc::{AllocError, Global};
use std::mem;

/// So many rounds a cut may have slack before it leaves.
const PATIENCE: u32 = 8;

/// How many terms the rows of cuts may have together.
const MOST_TERMS: usize = 60_000;

/// A cut that is a row.
#[derive(Clone, Copy, Debug)]
struct CutRow {
    row: Row,
    id: Id,
    terms: usize,
    /// At how many points it had slack, one after another.
    rounds_with_slack: u32,
}

/// The cuts that are rows, the places that others have left, and the ids of those.
#[derive(Debug, Drop)]
pub struct CutRows {
    alloc: Global,
    cuts: Vec<CutRow>,
    places: Vec<Row>,
    left: Vec<Id>,
    terms: usize,
}

impl CutRows {
    /// No cut yet.
    pub fn new(alloc: Global) -> Self {
        CutRows {
            alloc,
            cuts: Vec::new(alloc),
            places: Vec::new(alloc),
            left: Vec::new(alloc),
            terms: 0,
        }
    }

    /// Adds the row of a cut, whose constraint a kernel has under an id. One for which there is no room leaves at once.
    ///
    /// `AllocError` comes where a growth was refused. The cut is no row then.
    pub fn add(
        &mut self,
        relaxation: &mut Relaxation,
        sources: &mut Sources,
        id: Id,
        constraint: &Normal,
    ) -> Result<(), AllocError> {
        let terms = self.terms.saturating_add(constraint.len());
        if terms > MOST_TERMS {
            self.left.push(id)?;
            return Ok(());
        }
        let saturated = saturate(self.alloc, constraint)?;
        self.cuts.reserve(1)?;
        let row = match self.places.pop() {
            Some(place) => sources.replace_row(relaxation, place, id, &saturated)?,
            None => sources.append_row(relaxation, id, &saturated)?,
        };
        self.terms = terms;
        self.cuts.push(CutRow {
            row,
            id,
            terms: constraint.len(),
            rounds_with_slack: 0,
        })?;
        Ok(())
    }

    /// Looks at the point of a round, that of the last call: cuts that had slack at more than eight points one after another leave.
    ///
    /// `AllocError` comes where a growth was refused. Some of these cuts may have left then.
    pub fn age(&mut self, relaxation: &mut Relaxation) -> Result<(), AllocError> {
        let mut kept = Vec::with_capacity(self.alloc, self.cuts.len())?;
        for cut in &self.cuts {
            let aged = aged(*cut, relaxation);
            if aged.rounds_with_slack > PATIENCE && relaxation.remove_row(aged.row) {
                self.places.push(aged.row)?;
                self.left.push(aged.id)?;
                self.terms = self.terms.saturating_sub(aged.terms);
            } else {
                kept.push(aged)?;
            }
        }
        self.cuts = kept;
        Ok(())
    }

    /// Takes the ids of the cuts that have left: they are rows no more, so no multipliers of later calls cite them.
    pub fn take_left(&mut self) -> Vec<Id> {
        mem::replace(&mut self.left, Vec::new(self.alloc))
    }
}

/// A cut after one more round.
fn aged(cut: CutRow, relaxation: &Relaxation) -> CutRow {
    let rounds_with_slack = if relaxation.is_slack(cut.row) {
        cut.rounds_with_slack.saturating_add(1)
    } else {
        0
    };
    CutRow {
        row: cut.row,
        id: cut.id,
        terms: cut.terms,
        rounds_with_slack,
    }
}
