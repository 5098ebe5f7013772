//! Normal forms, negations, and where constraints hold.

ghost use Rattle.std.specs.Prelude.{◌≡◌, IfOk};
ghost use Rattle.normal_form.specs.Normal.{variable_bound};

use super::support::{LIMIT, NOT, Written, X, at_least, is, is_fault, signed};
use linear::{Assignment, Relation, Var};
use normal_form::{
    CutFault, Normal, NormalBuilder, NormalTerm, both, holds, is_contradiction, negate, normalize,
};
use std::alloc::{AllocError, Global};

/// A written constraint with `>=`, its form, and the negation of that.
#[derive(Clone, Copy)]
struct FormRow {
    terms: &'static [Written],
    right: i128,
    form: &'static [Written],
    degree: u128,
    opposite: &'static [Written],
    opposite_degree: u128,
}

const FORMS: [FormRow; 4] = [
    // -2 x1 3 x2 -2 x1 >= -1: a repeated variable, and a coefficient below 0
    FormRow {
        terms: &[(-2, X, 1), (3, X, 2), (-2, X, 1)],
        right: -1,
        form: &[(4, NOT, 1), (3, X, 2)],
        degree: 3,
        opposite: &[(4, X, 1), (3, NOT, 2)],
        opposite_degree: 5,
    },
    // 1 x1 1 ~x1 >= 1 holds everywhere
    FormRow {
        terms: &[(1, X, 1), (1, NOT, 1)],
        right: 1,
        form: &[],
        degree: 0,
        opposite: &[],
        opposite_degree: 1,
    },
    // 2 x0 2 x1 >= 1
    FormRow {
        terms: &[(2, X, 0), (2, X, 1)],
        right: 1,
        form: &[(2, X, 0), (2, X, 1)],
        degree: 1,
        opposite: &[(2, NOT, 0), (2, NOT, 1)],
        opposite_degree: 4,
    },
    // 1 x3 1 x2 >= -5: terms in any order, a degree below 0
    FormRow {
        terms: &[(1, X, 3), (1, X, 2)],
        right: -5,
        form: &[(1, X, 2), (1, X, 3)],
        degree: 0,
        opposite: &[(1, NOT, 2), (1, NOT, 3)],
        opposite_degree: 3,
    },
];

/// Whether a copy of a form is as its row says.
fn is_copied(alloc: Global, form: &Normal, row: &FormRow) -> Result<bool, AllocError> {
    let copy = form.copy(alloc)?;
    Ok(is(&copy, row.form, row.degree) && copy.sum() == form.sum())
}

/// Whether the negation of a form is as its row says.
fn is_negated(alloc: Global, form: &Normal, row: &FormRow) -> Result<bool, CutFault> {
    let opposite = negate(alloc, form)?;
    Ok(is(&opposite, row.opposite, row.opposite_degree))
}

/// Whether the form of a row's terms is as the row says, and a copy of it, and its negation.
fn is_formed(alloc: Global, row: &FormRow) -> Result<bool, CutFault> {
    let form = at_least(alloc, row.terms, row.right)?;
    let copied = is_copied(alloc, &form, row)?;
    Ok(copied && is(&form, row.form, row.degree) && is_negated(alloc, &form, row)?)
}

#[test]
fn forms_and_negations(rt: HostRuntime) {
    for row in &FORMS {
        assert!(&rt; is_formed(rt.alloc(), row).expect(&rt, "a form"));
    }
}

#[test]
fn both_forms_of_an_equality(rt: HostRuntime) {
    let alloc = rt.alloc();
    let terms = [(2, X, 1), (2, X, 2)];
    let constraint = signed(alloc, &terms, Relation::Equal, 1).expect(&rt, "memory");
    let (at_least, at_most) = both(alloc, &constraint).expect(&rt, "two forms");
    assert!(&rt; is(&at_least, &terms, 1));
    assert!(&rt; is(&at_most, &[(2, NOT, 1), (2, NOT, 2)], 3));
}

#[test]
fn limits(rt: HostRuntime) {
    let alloc = rt.alloc();
    let above = at_least(alloc, &[(LIMIT, X, 0), (1, X, 1)], 0);
    assert!(&rt; is_fault(above, CutFault::TooLarge));
    assert!(&rt; is_fault(at_least(alloc, &[], LIMIT + 1), CutFault::TooLarge));
    // the sizes count, not what is left of them
    let cancelling = at_least(alloc, &[(LIMIT, X, 0), (-1, X, 0)], 0);
    assert!(&rt; is_fault(cancelling, CutFault::TooLarge));
}

#[test]
fn forms_at_the_limit(rt: HostRuntime) {
    let alloc = rt.alloc();
    let last = at_least(alloc, &[(LIMIT, X, 0)], 0).expect(&rt, "a form");
    assert!(&rt; is_fault(negate(alloc, &last), CutFault::TooLarge));
    let highest = signed(alloc, &[], Relation::AtLeast, LIMIT).expect(&rt, "memory");
    let form = normalize(alloc, &highest).expect(&rt, "a form");
    assert_eq!(&rt; form.degree(), LIMIT as u128);
}

#[test]
fn net_coefficients(rt: HostRuntime) {
    let mut builder = NormalBuilder::with_capacity(rt.alloc(), 2).expect(&rt, "memory");
    builder.push_net(Var(1), -3).expect(&rt, "memory");
    builder.push_net(Var(2), 0).expect(&rt, "memory");
    builder.push_net(Var(4), 5).expect(&rt, "memory");
    let made = builder.finish(2).expect(&rt, "a constraint");
    assert!(&rt; is(&made, &[(3, NOT, 1), (5, X, 4)], 2));
}

/// 2 x0 1 ~x1 >= 2
fn first_or_not_second(alloc: Global) -> Result<Normal, CutFault>
    ensures { IfOk result (λ n. variable_bound n.terms ≡ 2) }
{
    let mut builder = NormalBuilder::new(alloc);
    builder.push(NormalTerm {
        coef: 2,
        var: Var(0),
        negated: false,
    })?;
    builder.push(NormalTerm {
        coef: 1,
        var: Var(1),
        negated: true,
    })?;
    builder.finish(2)
}

/// Whether a constraint of the first two variables holds where these have the values.
fn holds_at(
    alloc: Global,
    constraint: &Normal,
    first: bool,
    second: bool,
) -> Result<bool, AllocError>
    requires { variable_bound constraint.now.terms ≡ 2 }
{
    let values = Vec::from_slice(alloc, &[first, second])?;
    Ok(holds(constraint, &Assignment::from_vec(values)))
}

#[test]
fn truth(rt: HostRuntime) {
    let alloc = rt.alloc();
    let constraint = first_or_not_second(alloc).expect(&rt, "a constraint");
    let rows = [
        (true, true, true),
        (true, false, true),
        (false, true, false),
        (false, false, false),
    ];
    for (first, second, expected) in &rows {
        let holds = holds_at(alloc, &constraint, *first, *second).expect(&rt, "memory");
        assert_eq!(&rt; holds, *expected);
    }
    let falsity = at_least(alloc, &[], 1).expect(&rt, "a form");
    assert!(&rt; is_contradiction(&falsity) && !is_contradiction(&constraint));
}
