//! A problem that needs more conflicts than come before a search begins anew and before it forgets, so that it does both and goes on.
//!
//! On a grid that is closed in both directions each corner asks for the parity of its chosen edges: odd at one corner, even at all others. Every
//! edge has two ends, so the parities of all corners add up to an even number, and there is no such choice (Tseitin 1968). Clauses say so, eight
//! for a corner, and neither their sums nor cuts help: that takes some thousands of conflicts. The first restart comes after 100, and half of
//! what was learned is forgotten after 2,000.

use super::plain::{PlainConstraint, PlainProblem, PlainTerm};
use super::rules::Rule;
use super::seen::solve;
use super::spelled::text_of;
use std::alloc::{AllocError, Global};
use std::test::Fail;

const ROWS: usize = 4;

const COLUMNS: usize = 4;

/// A corner of the grid.
#[derive(Clone, Copy)]
struct Corner {
    row: usize,
    column: usize,
}

impl Corner {
    /// The place of its edge to the right.
    fn right(self) -> usize {
        self.row.wrapping_mul(COLUMNS).wrapping_add(self.column)
    }

    /// The place of its edge downwards.
    fn down(self) -> usize {
        self.right().wrapping_add(ROWS.wrapping_mul(COLUMNS))
    }

    /// The one to its left; the last one of the row where it is the first.
    fn left(self) -> Corner {
        let column = if self.column == 0 {
            COLUMNS - 1
        } else {
            self.column - 1
        };
        Corner { column, ..self }
    }

    /// The one above; the last one of the column where it is the first.
    fn above(self) -> Corner {
        let row = if self.row == 0 {
            ROWS - 1
        } else {
            self.row - 1
        };
        Corner { row, ..self }
    }

    /// Its four edges.
    fn edges(self) -> [usize; 4] {
        [
            self.right(),
            self.left().right(),
            self.down(),
            self.above().down(),
        ]
    }

    /// How many of its edges are to be chosen, modulo 2.
    fn parity(self) -> u32 {
        if self.right() == 0 { 1 } else { 0 }
    }
}

/// That edges are not chosen just as the bits of a number say.
fn other_than(
    alloc: Global,
    edges: [usize; 4],
    choice: u32,
) -> Result<PlainConstraint, AllocError> {
    let mut terms = Vec::new(alloc);
    let mut rest = choice;
    for place in edges {
        terms.push(PlainTerm {
            coef: 1,
            place,
            negated: rest & 1 == 1,
        })?;
        rest >>= 1;
    }
    Ok(PlainConstraint {
        terms,
        is_equality: false,
        right: 1,
    })
}

/// That the edges of a corner have its parity: no choice of the other one.
fn add_parity(
    alloc: Global,
    constraints: &mut Vec<PlainConstraint>,
    corner: Corner,
) -> Result<(), AllocError> {
    for choice in 0..16_u32 {
        if choice.count_ones() & 1 != corner.parity() {
            constraints.push(other_than(alloc, corner.edges(), choice)?)?;
        }
    }
    Ok(())
}

fn parities(alloc: Global) -> Result<PlainProblem, AllocError> {
    let mut constraints = Vec::new(alloc);
    for row in 0..ROWS {
        for column in 0..COLUMNS {
            add_parity(alloc, &mut constraints, Corner { row, column })?;
        }
    }
    Ok(PlainProblem {
        objective: None,
        constraints,
    })
}

/// What is seen of a search that may meet so many conflicts.
#[derive(Clone, Copy, Debug, PartialEq, Eq)]
enum End {
    Stopped,
    /// No solution; where something was forgotten, the proof has a deletion.
    Denied { forgets: bool },
    Other,
}

fn end_of(alloc: Global, limit: u64, rule: Rule) -> Result<End, Fail> {
    let text = text_of(alloc, &parities(alloc)?)?;
    let seen = solve(alloc, text.as_bytes(), limit, rule)?;
    if seen.is("c limit\ns UNKNOWN\n", 0, "accepted NONE\n") {
        return Ok(End::Stopped);
    }
    if seen.is("s UNSATISFIABLE\n", 20, "accepted UNSAT\n") {
        let proof = str::from_utf8(seen.proof.as_slice()).unwrap_or("");
        return Ok(End::Denied {
            forgets: proof.contains("\ndel id "),
        });
    }
    Ok(End::Other)
}

#[test]
fn goes_on_after_forgetting(rt: HostRuntime) -> Result<(), Fail> {
    // more than 2,000 conflicts are needed
    let stopped = end_of(rt.alloc(), 2001, Rule::Activity)?;
    assert_eq!(rt; stopped, End::Stopped);
    let whole = end_of(rt.alloc(), 1000000, Rule::Activity)?;
    assert_eq!(rt; whole, End::Denied { forgets: true });
    Ok(())
}
