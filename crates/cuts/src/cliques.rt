//! Cliques: of some literals, of which each two exclude each other, at most one is true.
//!
//! The point of a relaxation may give each of them a half, and satisfy all pairs. So cliques are looked for among the literals of great value,
//! greedily: from each in turn, the neighbour of the greatest value that is adjacent to all that are in it comes next. A clique that the point
//! violates is derived from its pairs: `(k - 1)` times the clique of `k` literals, and the `k` pairs of one more literal with them, is `k`
//! times the clique of all but for a rest that the division rounds up.

ghost use Rattle.std.specs.Prelude.{IfOk, OnOk};
ghost use Rattle.proof_rules.specs.Expression.{Given};
ghost use Rattle.proof_rules.specs.State.{constraint_of};
ghost use Rattle.row_sums.specs.Derived.{Derives};
ghost use Rattle.row_sums.specs.Lines.{LeavesItsStack};

use super::conflict_graph::ConflictGraph;
use kernel::Kernel;
use linear::{Lit, Seq};
use normal_form::Normal;
use proof_rules::StepFault;
use proof_steps::Item;
use propagate::{Id, Propagator};
use row_sums::Line;
use std::alloc::Global;

/// How many items a line has at most.
const MOST_ITEMS: usize = 6_000;

/// Weakens the constraint on top by the variable of a literal, unless it is one of a pair that is kept.
fn weaken_other(
    alloc: Global,
    line: &mut Line<'_>,
    literal: Lit,
    left: Lit,
    right: Lit,
) -> Result<(), StepFault>
    ensures { (given : Given) → LeavesItsStack given line.old
        → OnOk result (LeavesItsStack given line.new) }
{
    if literal.var == left.var || literal.var == right.var {
        return Ok(());
    }
    line.weaken(alloc, literal.var)
}

/// Puts a constraint on a line, and weakens it by all variables but those of a pair.
fn cite_weakened<'k, 'a, P: Propagator>(
    alloc: Global,
    kernel: &'k Kernel<'a, P>,
    line: &mut Line<'k>,
    id: Id,
    left: Lit,
    right: Lit,
) -> Result<(), StepFault>
    requires { LeavesItsStack (constraint_of kernel.now.state) line.old }
    ensures { OnOk result (LeavesItsStack (constraint_of kernel.now.state) line.new) }
{
    let constraint = line.cite_live(kernel, id)?;
    for place in 0..constraint.len() {
        let literal = constraint.term(place).literal();
        weaken_other(alloc, line, literal, left, right)?;
    }
    Ok(())
}

/// The coefficient that all terms of a constraint have.
fn coefficient_of<'a, P: Propagator>(kernel: &Kernel<'a, P>, id: Id) -> u128 {
    match kernel.constraint(id) {
        Some(constraint) if constraint.len() > 0 => constraint.term(0).coef,
        _ => 1,
    }
}

/// Puts on a line that two literals exclude each other.
fn put_pair<'k, 'a, P: Propagator>(
    alloc: Global,
    kernel: &'k Kernel<'a, P>,
    graph: &ConflictGraph,
    line: &mut Line<'k>,
    left: Lit,
    right: Lit,
) -> Result<(), StepFault>
    requires { LeavesItsStack (constraint_of kernel.now.state) line.old }
    ensures { OnOk result (LeavesItsStack (constraint_of kernel.now.state) line.new) }
{
    let Some(id) = graph.constraint_of_pair(left, right) else {
        return Err(StepFault::DeadId);
    };
    if line.len() > MOST_ITEMS {
        return Err(StepFault::TooLarge);
    }
    cite_weakened(alloc, kernel, line, id, left, right)?;
    line.divide(alloc, coefficient_of(kernel, id))
}

/// Makes the clique of some literals, which stands on a line, that of one literal more.
fn add_member<'k, 'a, P: Propagator>(
    alloc: Global,
    kernel: &'k Kernel<'a, P>,
    graph: &ConflictGraph,
    line: &mut Line<'k>,
    members: &[Lit],
    next: Lit,
) -> Result<(), StepFault>
    requires { LeavesItsStack (constraint_of kernel.now.state) line.old }
    ensures { OnOk result (LeavesItsStack (constraint_of kernel.now.state) line.new) }
{
    let count = members.len() as u128;
    line.multiply(alloc, count.saturating_sub(1).max(1))?;
    for member in members {
        put_pair(alloc, kernel, graph, line, *member, next)?;
        line.add_if_two(alloc)?;
    }
    line.divide(alloc, count)
}

/// Writes and runs the line of a clique.
pub(crate) fn derive<'a, P: Propagator>(
    alloc: Global,
    kernel: &Kernel<'a, P>,
    graph: &ConflictGraph,
    members: &[Lit],
) -> Result<(Seq<Item>, Normal), StepFault>
    ensures { IfOk result (λ p. Derives kernel.now.state p.0 p.1) }
{
    let mut line = Line::new(alloc);
    for place in 1..members.len() {
        let (before, rest) = members.split_at(place);
        if let Some(next) = rest.first() {
            add_member(alloc, kernel, graph, &mut line, before, *next)?;
        }
    }
    line.finish(alloc)
}
