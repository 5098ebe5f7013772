//! Merging the terms of two constraints: the terms of each variable become one with their net coefficient, or
//! none where that is 0 (addition of cutting planes: Cook, Coullard and Turán, 1987).
//!
//! Both lists rise by variable, so one pass takes the least variable on either side each time, and puts what becomes of it at the end: the
//! merged terms rise again. A term that one side alone has stays as it is, and most do. Of a variable that both have, coefficients of two signs
//! are added, since a literal and its opposite are one variable: so no rule needs to tell apart what cancels.

ghost use Rattle.std.specs.Prelude.{◌≡◌, ◌+◌, ◌<◌, ◌≤◌, min, unsigned_abs, IfOk, drop, length};
ghost use Rattle.linear.specs.Largest.{most_names};
ghost use Rattle.normal_form.specs.Normal.{IsNormal, Rises, largest_sum, variable_bound};
ghost use Rattle.normal_form.specs.Balance.{rise_of};
ghost use Rattle.cut_rules.specs.Steps.{IsFirst, IsMergedAt, SumBalances};

use linear::MOST_NAMES;
use normal_form::{Normal, NormalBuilder, NormalTerm};
use std::alloc::{AllocError, Global};

/// Above all variables.
const END: u64 = MOST_NAMES as u64;

/// What a term gives its variable.
fn rise(term: NormalTerm) -> i128
    requires { term.coef ≤ largest_sum }
    ensures value { result ≡ rise_of term }
    ensures size { unsigned_abs result ≡ term.coef }
{
    if term.negated {
        -(term.coef as i128)
    } else {
        term.coef as i128
    }
}

/// The next term of one side: its place, and its variable, or the end.
#[derive(Clone, Copy)]
struct Front {
    place: usize,
    variable: u64,
}

/// The term at a place as the next one.
#[inline(always)]
fn front_at(constraint: &Normal, place: usize) -> Front
    ensures place { result.place ≡ place }
    ensures variable { IsFirst (drop place constraint.now.terms) result.variable }
{
    let variable = if place < constraint.len() {
        constraint.term(place).var.0 as u64
    } else {
        END
    };
    Front { place, variable }
}

/// The term behind the one at a place as the next one.
#[inline(always)]
fn front_behind(constraint: &Normal, place: usize) -> Front
    requires { place < length constraint.now.terms }
    ensures place { result.place ≡ place + 1 }
    ensures variable { IsFirst (drop (place + 1) constraint.now.terms) result.variable }
{
    let count = constraint.len();
    front_at(constraint, count.min(place + 1))
}

/// The next terms of both sides.
#[derive(Clone, Copy)]
struct Fronts {
    left: Front,
    right: Front,
}

/// Merges the terms of the least variable, and gives the next ones.
#[inline(always)]
fn merge_least(
    terms: &mut NormalBuilder,
    left: &Normal,
    right: &Normal,
    at: Fronts,
) -> Result<Fronts, AllocError>
    requires left_normal { IsNormal left.now }
    requires right_normal { IsNormal right.now }
    requires left { IsFirst (drop at.left.place left.now.terms) at.left.variable }
    requires right { IsFirst (drop at.right.place right.now.terms) at.right.variable }
    requires some { min at.left.variable at.right.variable < most_names }
    requires left_rises { Rises (min at.left.variable at.right.variable) (drop at.left.place left.now.terms) }
    requires right_rises { Rises (min at.left.variable at.right.variable) (drop at.right.place right.now.terms) }
    requires bound { variable_bound terms.old ≤ min at.left.variable at.right.variable }
    ensures merged { IfOk result (λ next. IsMergedAt
        (min at.left.variable at.right.variable)
        (drop at.left.place left.now.terms)
        (drop next.left.place left.now.terms)
        (drop at.right.place right.now.terms)
        (drop next.right.place right.now.terms)
        terms.old
        terms.new) }
    ensures left { IfOk result (λ next. IsFirst (drop next.left.place left.now.terms) next.left.variable) }
    ensures right { IfOk result (λ next. IsFirst (drop next.right.place right.now.terms) next.right.variable) }
{
    if at.left.variable < at.right.variable {
        terms.push(left.term(at.left.place))?;
        return Ok(Fronts {
            left: front_behind(left, at.left.place),
            right: at.right,
        });
    }
    if at.right.variable < at.left.variable {
        terms.push(right.term(at.right.place))?;
        return Ok(Fronts {
            left: at.left,
            right: front_behind(right, at.right.place),
        });
    }
    let from_left = left.term(at.left.place);
    let net = rise(from_left) + rise(right.term(at.right.place));
    terms.push_net(from_left.var, net)?;
    Ok(Fronts {
        left: front_behind(left, at.left.place),
        right: front_behind(right, at.right.place),
    })
}

/// Merges the terms of two constraints, in one pass.
pub(crate) fn merge(
    alloc: Global,
    left: &Normal,
    right: &Normal,
) -> Result<NormalBuilder, AllocError>
    ensures balance { IfOk result (SumBalances left.now.terms right.now.terms) }
    ensures rises { IfOk result (Rises 0) }
{
    let count = left.len().saturating_add(right.len());
    let mut terms = NormalBuilder::with_capacity(alloc, count)?;
    let mut at = Fronts {
        left: front_at(left, 0),
        right: front_at(right, 0),
    };
    while at.left.variable.min(at.right.variable) < END {
        at = merge_least(&mut terms, left, right, at)?;
    }
    Ok(terms)
}
