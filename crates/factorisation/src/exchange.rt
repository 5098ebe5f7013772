//! A step as later solutions see it: what is solved for the kernel before the step is changed along one column.
//!
//! Where something enters by an amount, the basic variables move along its column. The amount is such that what left holds: a variable that
//! went to a bound has the value 0 among the basic ones, and a row that became tight what it wants. So a kernel that has changed since its
//! triangles were made is solved by these, and then exchange by exchange (the product form of the inverse, of a kernel that grows and shrinks).

use basis::{Basis, Rows};
use fixed_point::{Entry, Fixed, Scattered, Sum, number_at};
use std::alloc::{AllocError, Global};

/// What enters in a step.
#[derive(Clone, Copy, Debug, PartialEq, Eq)]
pub enum Entering {
    /// The slack of the tight row of a place: the row is no longer tight.
    Slack(usize),
    /// A variable that was at a bound: it becomes basic.
    Variable(usize),
}

impl Entering {
    /// The variable that enters, if one does.
    fn variable(self) -> Option<usize> {
        match self {
            Entering::Slack(_) => None,
            Entering::Variable(variable) => Some(variable),
        }
    }

    /// The row that is no longer tight, if one was.
    pub(crate) fn loosened(self, basis: &Basis) -> Option<usize> {
        match self {
            Entering::Slack(place) => basis.tight().get(place).copied(),
            Entering::Variable(_) => None,
        }
    }
}

/// What left.
#[derive(Debug, Drop)]
enum Left {
    /// A variable: it went to a bound.
    Variable(usize),
    /// The slack of a row, which became tight. It had these entries at the variables that were basic then.
    Slack { row: usize, entries: Vec<Entry> },
}

/// A step.
#[derive(Debug, Drop)]
pub(crate) struct Exchange {
    left: Left,
    /// The variable that entered; none where a slack did.
    entered: Option<usize>,
    /// How the variables that were basic move, with its sign changed, where what entered grows by one.
    column: Vec<Entry>,
    /// What the amount is divided by.
    pivot: Fixed,
}

/// The numbers of the basic variables by variable, without those that are 0.
fn column_entries(
    alloc: Global,
    column: &[Fixed],
    basis: &Basis,
) -> Result<Vec<Entry>, AllocError> {
    let mut entries = Vec::new(alloc);
    for (variable, value) in basis.basic().iter().zip(column.iter()) {
        if !value.is_zero() {
            entries.push(Entry {
                place: *variable,
                value: *value,
            })?;
        }
    }
    Ok(entries)
}

impl Exchange {
    /// The one where the basic variable of a place leaves. The column has a number for each basic variable, and the basis is that before the step.
    pub(crate) fn of_variable(
        alloc: Global,
        place: usize,
        entering: Entering,
        column: &[Fixed],
        basis: &Basis,
    ) -> Result<Self, AllocError> {
        let variable = basis.basic().get(place).copied().unwrap_or(0);
        Ok(Exchange {
            left: Left::Variable(variable),
            entered: entering.variable(),
            column: column_entries(alloc, column, basis)?,
            pivot: number_at(column, place),
        })
    }

    /// The one where the slack of a row leaves: it is divided by how much that slack falls where what enters grows by one.
    pub(crate) fn of_slack(
        alloc: Global,
        row: usize,
        entering: Entering,
        column: &[Fixed],
        rows: &Rows,
        basis: &Basis,
    ) -> Result<Self, AllocError> {
        let entered = entering.variable();
        let mut entries = Vec::new(alloc);
        let mut fall = Sum::ZERO;
        for entry in rows.row(row) {
            if entered == Some(entry.place) {
                fall = fall.plus(Sum::of(entry.value));
            }
            if let Some(place) = basis.place_of_variable(entry.place) {
                fall = fall.minus_product(entry.value, number_at(column, place));
                entries.push(*entry)?;
            }
        }
        Ok(Exchange {
            left: Left::Slack { row, entries },
            entered,
            column: column_entries(alloc, column, basis)?,
            pivot: fall.rounded(),
        })
    }

    /// The row that became tight, if one did.
    pub(crate) fn tightened(&self) -> Option<usize> {
        match &self.left {
            Left::Variable(_) => None,
            Left::Slack { row, .. } => Some(*row),
        }
    }

    /// How many entries it has.
    pub(crate) fn len(&self) -> usize {
        let others = match &self.left {
            Left::Variable(_) => 0,
            Left::Slack { entries, .. } => entries.len(),
        };
        self.column.len().saturating_add(others)
    }

    /// By how much what entered is above 0, where the row that became tight wants so much.
    fn amount(&self, wanted: Fixed, solution: &Scattered<Fixed>) -> Fixed {
        match &self.left {
            Left::Variable(variable) => solution.value(*variable).over(self.pivot),
            Left::Slack { entries, .. } => {
                let numbers = solution.numbers();
                let mut lacking = Sum::of(wanted);
                for entry in entries {
                    lacking = lacking.minus_product(entry.value, number_at(numbers, entry.place));
                }
                lacking.rounded().over(self.pivot)
            }
        }
    }

    /// Makes what is solved before the step what is solved behind it, where the row that became tight wants so much.
    pub(crate) fn solve(
        &self,
        wanted: Fixed,
        solution: &mut Scattered<Fixed>,
    ) -> Result<(), AllocError> {
        let amount = self.amount(wanted, solution);
        if !amount.is_zero() {
            solution.add_multiple(amount.negated(), self.column.as_slice())?;
        }
        if let Left::Variable(variable) = &self.left {
            solution.set(*variable, Fixed::ZERO)?;
        }
        match self.entered {
            Some(variable) if !amount.is_zero() => solution.set(variable, amount),
            _ => Ok(()),
        }
    }

    /// What costs of the basic variables behind the step gain where what entered grows by one.
    fn gain(&self, costs: &Scattered<Fixed>) -> Fixed {
        let mut gain = match self.entered {
            Some(variable) => Sum::of(costs.value(variable)),
            None => Sum::ZERO,
        };
        let numbers = costs.numbers();
        for entry in &self.column {
            gain = gain.minus_product(number_at(numbers, entry.place), entry.value);
        }
        gain.rounded()
    }

    /// Makes costs of the basic variables behind the step costs of those before it; the weight of the row that became tight.
    pub(crate) fn solve_transposed(
        &self,
        costs: &mut Scattered<Fixed>,
    ) -> Result<Fixed, AllocError> {
        let share = self.gain(costs).over(self.pivot);
        if let Some(variable) = self.entered {
            costs.set(variable, Fixed::ZERO)?;
        }
        if let Left::Variable(variable) = &self.left {
            costs.set(*variable, share)?;
        }
        if let Left::Slack { entries, .. } = &self.left
            && !share.is_zero()
        {
            costs.add_multiple(share.negated(), entries.as_slice())?;
        }
        Ok(share)
    }
}
