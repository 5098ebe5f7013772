//! Which constraints the relaxation has, and under which ids the kernel has them.
//!
//! Its rows are the constraints of the file, saturated: a relaxation of saturated ones is tighter, and saturating is one item of a line. A
//! constraint that holds everywhere is no row. The objective is the cost and no row; it comes in by the constraint that the
//! last improving solution added, whose coefficients may have a divisor in common: divided by it and multiplied again it asks for the next value
//! that the objective can have.

use cut_rules::saturate;
use kernel::Kernel;
use linear::Integer;
use normal_form::Normal;
use propagate::{Id, Propagator};
use relaxation::{Relaxation, Row, Source};
use std::alloc::{AllocError, Global};

/// The constraint that asks for a better solution.
#[derive(Clone, Copy, Debug)]
struct Improving {
    id: Id,
    /// What the best solution is worth.
    value: Integer,
    /// The greatest number that divides all coefficients, at least 1.
    unit: u128,
}

/// A constraint as a line cites it: by its id, and by the number by which it is divided first.
#[derive(Clone, Copy, Debug)]
pub struct Cited {
    /// The id.
    pub id: Id,
    /// What divides all coefficients, at least 1.
    pub unit: u128,
}

/// The ids of the rows of a relaxation, in their order, and the last improving constraint. Each row is added by a call of this, since it is known by its place.
#[derive(Debug, Drop)]
pub struct Sources {
    rows: Vec<Id>,
    /// How many of them, the first ones, are constraints of the file.
    file_rows: usize,
    improving: Option<Improving>,
}

/// The greatest number that divides two others; the one where the other is 0.
pub(crate) fn common_divisor(left: u128, right: u128) -> u128 {
    let mut greater = left;
    let mut smaller = right;
    while smaller > 0 {
        let rest = greater % smaller;
        greater = smaller;
        smaller = rest;
    }
    greater
}

/// The greatest number that divides all coefficients of a constraint, at least 1.
fn unit_of(constraint: &Normal) -> u128 {
    let mut unit = 0;
    for place in 0..constraint.len() {
        unit = common_divisor(unit, constraint.term(place).coef);
    }
    unit.max(1)
}

/// Whether a coefficient of a constraint is above its degree.
pub(crate) fn exceeds_degree(constraint: &Normal) -> bool {
    for place in 0..constraint.len() {
        if constraint.term(place).coef > constraint.degree() {
            return true;
        }
    }
    false
}

/// Adds the row of a constraint.
fn add_saturated(
    alloc: Global,
    relaxation: &mut Relaxation,
    constraint: &Normal,
) -> Result<Row, AllocError> {
    if !exceeds_degree(constraint) {
        return relaxation.add_row(constraint);
    }
    relaxation.add_row(&saturate(alloc, constraint)?)
}

impl Sources {
    /// No row, and no solution.
    pub fn new(alloc: Global) -> Self {
        Sources {
            rows: Vec::new(alloc),
            file_rows: 0,
            improving: None,
        }
    }

    /// Adds the rows of the file's constraints, which a kernel has, to a relaxation that has none; how many terms these have together, if they
    /// are at most so many. If they are more, none: only some of them are rows then.
    ///
    /// `AllocError` comes where a growth was refused. Only some of them are rows then.
    pub fn add_file<'a, P: Propagator>(
        &mut self,
        alloc: Global,
        kernel: &Kernel<'a, P>,
        relaxation: &mut Relaxation,
        most_terms: usize,
    ) -> Result<Option<usize>, AllocError> {
        let mut left = most_terms;
        for number in 0..kernel.problem_ids() {
            let Ok(id) = Id::try_from(number.saturating_add(1)) else {
                return Ok(None);
            };
            if let Some(constraint) = kernel.constraint(id) {
                let Some(rest) = left.checked_sub(constraint.len()) else {
                    return Ok(None);
                };
                left = rest;
                self.add_row(alloc, relaxation, id, constraint)?;
            }
        }
        self.file_rows = self.rows.len();
        Ok(Some(most_terms.saturating_sub(left)))
    }

    /// Adds the row of a constraint, unless that holds everywhere.
    fn add_row(
        &mut self,
        alloc: Global,
        relaxation: &mut Relaxation,
        id: Id,
        constraint: &Normal,
    ) -> Result<(), AllocError> {
        if constraint.degree() > 0 {
            self.rows.reserve(1)?;
            add_saturated(alloc, relaxation, constraint)?;
            self.rows.push(id)?;
        }
        Ok(())
    }

    /// Adds the row of a saturated constraint, which a kernel has under an id.
    ///
    /// `AllocError` comes where a growth was refused; whether the constraint takes part then is not said.
    pub fn append_row(
        &mut self,
        relaxation: &mut Relaxation,
        id: Id,
        constraint: &Normal,
    ) -> Result<Row, AllocError> {
        self.rows.reserve(1)?;
        let row = relaxation.add_row(constraint)?;
        self.rows.push(id)?;
        Ok(row)
    }

    /// Puts the row of a saturated constraint, which a kernel has under an id, in the place of one that was taken out.
    ///
    /// `AllocError` comes where a growth was refused; the place stays empty then.
    pub fn replace_row(
        &mut self,
        relaxation: &mut Relaxation,
        row: Row,
        id: Id,
        constraint: &Normal,
    ) -> Result<Row, AllocError> {
        relaxation.replace_row(row, constraint)?;
        if let Some(place) = self.rows.get_mut(row.0) {
            *place = id;
        }
        Ok(row)
    }

    /// Notes the constraint that the newest improving solution added, under which id, and the value of the objective at that solution.
    pub fn improve(&mut self, id: Id, value: Integer, constraint: &Normal) {
        self.improving = Some(Improving {
            id,
            value,
            unit: unit_of(constraint),
        });
    }

    /// Whether there is a solution to be better than.
    pub fn has_solution(&self) -> bool {
        self.improving.is_some()
    }

    /// The greatest value of the objective that a better solution can have; none where there is no solution.
    pub fn upper(&self) -> Option<Integer> {
        match self.improving {
            Some(improving) => {
                let unit = Integer::try_from(improving.unit).unwrap_or(Integer::MAX);
                Some(improving.value.saturating_sub(unit))
            }
            None => None,
        }
    }

    /// How many rows are constraints of the file: the first ones.
    pub fn file_rows(&self) -> usize {
        self.file_rows
    }

    /// The constraint that a kernel has of a row; none where it has none, or there is no such row.
    pub fn constraint<'k, 'a, P: Propagator>(
        &self,
        kernel: &'k Kernel<'a, P>,
        row: Row,
    ) -> Option<&'k Normal> {
        let id = self.rows.get(row.0)?;
        kernel.constraint(*id)
    }

    /// The constraint that a multiplier belongs to; none where there is no such row, or no solution.
    pub fn cited(&self, source: Source) -> Option<Cited> {
        match source {
            Source::Row(Row(place)) => match self.rows.get(place) {
                Some(id) => Some(Cited { id: *id, unit: 1 }),
                None => None,
            },
            Source::Improving => match self.improving {
                Some(Improving { id, value: _, unit }) => Some(Cited { id, unit }),
                None => None,
            },
        }
    }
}
