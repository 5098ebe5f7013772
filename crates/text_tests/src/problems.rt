//! Names, lists, assignments and problems, with ample memory.

use linear::{
    Assignment, Constraints, LentConstraint, Lit, Names, Problem, Relation, Seq, Signed, Term, Var,
};
use opb_read::{OpbFault, read};
use pb_text::{Literal, Tokens, as_literal};
use std::alloc::{AllocError, Global};

fn literal(text: &[u8]) -> Option<Literal<'_>> {
    as_literal(Tokens::new(text).next()?)
}

/// The number that a name has, or is given where there are fewer than so many.
fn number_within(names: &mut Names, name: &[u8], most: u32) -> Option<Var> {
    names
        .intern_within(literal(name)?.name, most as usize)
        .ok()?
}

#[test]
fn names_are_numbered(rt: HostRuntime) {
    let mut names = Names::new(rt.alloc());
    assert!(&rt; names.is_empty());
    let x1 = literal(b"x1").expect(&rt, "a literal").name;
    assert!(&rt; names.intern(x1) == Ok(Var(0)));
    assert!(&rt; number_within(&mut names, b"x2", 1).is_none());
    assert!(&rt; number_within(&mut names, b"x1", 1) == Some(Var(0)));
    assert!(&rt; number_within(&mut names, b"x2", 2) == Some(Var(1)));
}

/// The names `x1` and `x2`.
fn two_names(alloc: Global) -> Names {
    let mut names = Names::new(alloc);
    number_within(&mut names, b"x1", 2);
    number_within(&mut names, b"x2", 2);
    names
}

#[test]
fn names_are_found(rt: HostRuntime) {
    let names = two_names(rt.alloc());
    names.reveal();
    assert!(&rt; names.len() == 2);
    assert!(&rt; names.find(b"x2") == Some(Var(1)));
    assert!(&rt; names.find(b"X1").is_none());
}

#[test]
fn a_copy_keeps_its_names(rt: HostRuntime) {
    let mut names = two_names(rt.alloc());
    let same = names.copy(rt.alloc()).expect(&rt, "memory");
    names.truncate(0);
    assert!(&rt; names.is_empty());
    assert!(&rt; names.get(Var(0)).is_none());
    assert!(&rt; same.get(Var(1)) == Some(b"x2".as_slice()));
}

#[test]
fn assignments_have_values(rt: HostRuntime) {
    let mut values = Vec::new(rt.alloc());
    values.push(true).expect(&rt, "memory");
    values.push(false).expect(&rt, "memory");
    let assignment = Assignment::from_vec(values);
    assert!(&rt; assignment.len() == 2);
    assert!(&rt; assignment.as_slice().len() == 2);
    for negated in [false, true] {
        let lit = Lit {
            var: Var(0),
            negated,
        };
        assert!(&rt; assignment.is_true(lit) != negated);
    }
}

fn same_terms(left: &Seq<Term>, right: &Seq<Term>) -> bool {
    left.as_slice() == right.as_slice()
}

/// Whether two constraints are the same.
fn same_constraint(left: &LentConstraint<'_>, right: &LentConstraint<'_>) -> bool {
    let same_sides = left.relation() == right.relation() && left.right() == right.right();
    if !same_sides || left.len() != right.len() {
        return false;
    }
    for place in 0..left.len() {
        if left.term(place) != right.term(place) {
            return false;
        }
    }
    true
}

/// Whether two lists of constraints are the same.
fn same_constraints(left: &Constraints, right: &Constraints) -> bool {
    if left.len() != right.len() {
        return false;
    }
    for place in 0..left.len() {
        if !same_constraint(&left.get(place), &right.get(place)) {
            return false;
        }
    }
    true
}

/// Whether two problems are the same in objective and constraints, and in the number of their names.
fn same(left: &Problem, right: &Problem) -> bool {
    let objectives = match (left.objective(), right.objective()) {
        (Some(a), Some(b)) => same_terms(a, b),
        (None, None) => true,
        _ => false,
    };
    objectives
        && left.names().len() == right.names().len()
        && same_constraints(left.constraints(), right.constraints())
}

fn term(coef: i128, var: u32, negated: bool) -> Term {
    Term {
        coef,
        var: Var(var),
        negated,
    }
}

/// The terms `2 x2 -3 ~x1`, the first two names of the file being `x1` and `x2`.
fn wanted_terms(alloc: Global) -> Result<Seq<Term>, AllocError> {
    let mut terms = Vec::new(alloc);
    terms.push(term(2, 1, false))?;
    terms.push(term(-3, 0, true))?;
    Ok(Seq::from_vec(terms))
}

/// Whether each constraint says that these terms add up to 0.
fn are_equalities(
    alloc: Global,
    constraints: &Constraints,
    terms: &Seq<Term>,
) -> Result<bool, AllocError> {
    let mut constraint = Signed::new(alloc);
    for place in 0..constraints.len() {
        constraints.copy_to(place, &mut constraint)?;
        let is_equality = constraint.relation == Relation::Equal && constraint.right == 0;
        if !is_equality || !same_terms(&constraint.terms, terms) {
            return Ok(false);
        }
    }
    Ok(true)
}

#[test]
fn a_problem_is_read(rt: HostRuntime) {
    let alloc = rt.alloc();
    let terms = wanted_terms(alloc).expect(&rt, "memory");
    let problem = read(alloc, b"min: 1 x1 ; +02 x2 -3 ~x1 = -0 ;").expect(&rt, "a problem");
    assert!(&rt; are_equalities(alloc, problem.constraints(), &terms) == Ok(true));
    assert!(&rt; problem.constraints().term_count() == terms.len());
    assert!(&rt; problem.names().get(Var(1)) == Some(b"x2".as_slice()));
}

/// Whether a file is read as this problem.
fn is_read_as(alloc: Global, problem: &Problem, text: &[u8]) -> Result<bool, OpbFault> {
    let found = read(alloc, text)?;
    Ok(same(problem, &found))
}

/// Whether two files are read as the same problem.
fn are_same(alloc: Global, left: &[u8], right: &[u8]) -> Result<bool, OpbFault> {
    let problem = read(alloc, left)?;
    is_read_as(alloc, &problem, right)
}

#[test]
fn a_sign_makes_another_problem(rt: HostRuntime) {
    let first = b"min: 1 x1 ; +02 x2 -3 ~x1 = -0 ;";
    let second = b"min: 1 x1 ; +02 x2 -3 x1 = -0 ;";
    assert!(&rt; are_same(rt.alloc(), first, first) == Ok(true));
    assert!(&rt; are_same(rt.alloc(), first, second) == Ok(false));
}

/// Whether a list that is copied has elements, and gives back as many.
fn is_given_back(alloc: Global) -> Result<bool, AllocError> {
    let terms = wanted_terms(alloc)?;
    let list = terms.clone()?;
    Ok(!list.is_empty() && list.into_vec().len() == terms.len())
}

#[test]
fn lists_are_given_back(rt: HostRuntime) {
    assert!(&rt; is_given_back(rt.alloc()) == Ok(true));
}

#[test]
fn the_empty_problem_is_satisfied(rt: HostRuntime) {
    let problem = Problem::new(Names::new(rt.alloc()), None, Constraints::new(rt.alloc()));
    problem.reveal();
    let assignment = Assignment::from_vec(Vec::new(rt.alloc()));
    assert!(&rt; problem.satisfied(&assignment));
    assert!(&rt; problem.value(&assignment) == 0);
}
