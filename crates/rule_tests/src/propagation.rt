//! What a propagator answers, and that its content is what was put in and not taken out.

use super::support::{NOT, Written, X, at_least, not_x, x};
use linear::Lit;
use normal_form::{CutFault, Normal};
use propagate::{
    Deciding, Extending, Extent, Id, Propagator, Question, Reach, Retrace, Retracing,
    ScanPropagator, Trace, Tracing,
};
use std::alloc::{AllocError, Global};
use watch::WatchPropagator;

/// Puts in a constraint, where none is.
fn put<P: Propagator>(
    alloc: Global,
    live: &mut P,
    id: Id,
    terms: &[Written],
    right: i128,
) -> Result<(), CutFault> {
    let constraint = at_least(alloc, terms, right)?;
    if live.get(id).is_none() {
        live.insert(id, constraint)?;
    }
    Ok(())
}

/// 1 ~x2 1 x3 >= 1 ; 1 ~x1 1 x2 >= 1 ; 1 x1 >= 1, under 1, 3 and 8: the first two force something only after the third,
/// so one pass over them in order does not do.
fn three_clauses<P: Propagator>(alloc: Global) -> Result<P, CutFault> {
    let mut live = P::empty(alloc);
    put(alloc, &mut live, 3, &[(1, NOT, 1), (1, X, 2)], 1)?;
    put(alloc, &mut live, 1, &[(1, NOT, 2), (1, X, 3)], 1)?;
    put(alloc, &mut live, 8, &[(1, X, 1)], 1)?;
    Ok(live)
}

/// Whether the trace is of these steps and this conflict.
fn is_trace(trace: &Trace, forced: &[(Lit, Id)], conflict: Option<Id>) -> bool {
    trace.forced.as_slice() == forced && trace.conflict == conflict
}

#[test]
fn content(rt: HostRuntime) {
    let mut live: ScanPropagator = three_clauses(rt.alloc()).expect(&rt, "a propagator");
    let steps = [
        (0, Some(1)),
        (1, Some(3)),
        (2, Some(3)),
        (3, Some(8)),
        (8, None),
    ];
    for (id, next) in &steps {
        assert!(&rt; live.after(*id) == *next);
    }
    assert!(&rt; live.after(Id::MAX).is_none());
    assert!(&rt; live.get(3).is_some() && live.get(2).is_none());
}

#[test]
fn what_is_removed_is_no_content(rt: HostRuntime) {
    let mut live: ScanPropagator = three_clauses(rt.alloc()).expect(&rt, "a propagator");
    assert!(&rt; live.remove(3).is_some());
    assert!(&rt; live.remove(3).is_none() && live.get(3).is_none());
    assert!(&rt; live.after(1) == Some(8));
}

/// Whether three clauses are refuted beside a literal that they force, as long as all are there, and not without it.
fn is_refuted_beside<P: Propagator>(live: &mut P, extras: &[Normal]) -> Result<bool, AllocError> {
    let before = live.refute(&[])?;
    let beside = live.refute(extras)?;
    // the extra constraint is not kept, and what is removed counts no more
    let behind = live.refute(&[])?;
    let is_removed = live.remove(3).is_some();
    let without = live.refute(extras)?;
    Ok(!before && beside && !behind && is_removed && !without)
}

#[test]
fn refutations(rt: HostRuntime) {
    let alloc = rt.alloc();
    let mut live: ScanPropagator = three_clauses(alloc).expect(&rt, "a propagator");
    let last = at_least(alloc, &[(1, NOT, 3)], 1).expect(&rt, "a constraint");
    let extras = [last];
    assert!(&rt; is_refuted_beside(&mut live, extras.as_slice()).expect(&rt, "memory"));
}

/// 3 x1 2 x2 1 x3 >= 4 needs x1, and not x2.
#[test]
fn weights(rt: HostRuntime) {
    let alloc = rt.alloc();
    let rows = [(1, true), (2, false), (3, false)];
    for (var, refuted) in &rows {
        let mut live = ScanPropagator::empty(alloc);
        let terms = [(3, X, 1), (2, X, 2), (1, X, 3)];
        put(alloc, &mut live, 1, &terms, 4).expect(&rt, "a constraint");
        put(alloc, &mut live, 2, &[(1, NOT, *var)], 1).expect(&rt, "a constraint");
        assert_eq!(&rt; live.refute(&[]).expect(&rt, "memory"), *refuted);
    }
}

/// A propagator of `1 x1 1 x2 >= 1` alone.
fn one_clause(alloc: Global) -> Result<ScanPropagator, CutFault> {
    let mut live = ScanPropagator::empty(alloc);
    put(alloc, &mut live, 1, &[(1, X, 1), (1, X, 2)], 1)?;
    Ok(live)
}

/// Whether an assignment extends to so many literals without a conflict, this one among them.
fn reaches<P: Propagator>(
    live: &mut P,
    given: &[Lit],
    literal: Lit,
    count: usize,
) -> Result<bool, AllocError> {
    Ok(match live.extend(given)? {
        Reach::Closed(closed) => closed.len() == count && closed.as_slice().contains(&literal),
        Reach::Conflict => false,
    })
}

/// Whether an assignment extends to a conflict.
fn conflicts<P: Propagator>(live: &mut P, given: &[Lit]) -> Result<bool, AllocError> {
    let reach = Extending { given }.ask(live)?;
    Ok(matches!(&reach, Reach::Conflict))
}

/// A literal that is given twice is listed once.
#[test]
fn assignments(rt: HostRuntime) {
    let mut live = one_clause(rt.alloc()).expect(&rt, "a propagator");
    let reached = reaches(&mut live, &[not_x(1), not_x(1)], x(2), 2);
    assert!(&rt; reached.expect(&rt, "memory"));
}

#[test]
fn assignments_with_conflicts(rt: HostRuntime) {
    let mut live = one_clause(rt.alloc()).expect(&rt, "a propagator");
    let rows = [
        ([not_x(1), x(1)], true),
        ([not_x(1), not_x(2)], true),
        ([x(1), not_x(2)], false),
    ];
    for (given, conflict) in &rows {
        assert!(&rt; conflicts(&mut live, given.as_slice()).expect(&rt, "memory") == *conflict);
    }
}

/// Whether the trace of a propagator is of these steps and this conflict.
fn traces<P: Propagator>(
    live: &mut P,
    forced: &[(Lit, Id)],
    conflict: Option<Id>,
) -> Result<bool, AllocError> {
    let trace = Tracing { given: &[] }.ask(live)?;
    Ok(is_trace(&trace, forced, conflict))
}

#[test]
fn traces_end_at_a_conflict(rt: HostRuntime) {
    let alloc = rt.alloc();
    let mut live: ScanPropagator = three_clauses(alloc).expect(&rt, "a propagator");
    let chain = [(x(1), 8), (x(2), 3), (x(3), 1)];
    assert!(&rt; traces(&mut live, &chain, None).expect(&rt, "memory"));
    // 1 ~x1 1 ~x4 >= 2 is falsified as soon as x1 is listed
    put(alloc, &mut live, 9, &[(1, NOT, 1), (1, NOT, 4)], 2).expect(&rt, "a constraint");
    assert!(&rt; traces(&mut live, &chain[..1], Some(9)).expect(&rt, "memory"));
}

/// All that a constraint forces is listed at once.
#[test]
fn what_is_forced_is_listed_at_once(rt: HostRuntime) {
    let alloc = rt.alloc();
    let mut weighted = ScanPropagator::empty(alloc);
    let terms = [(3, X, 1), (2, X, 2), (1, X, 3)];
    put(alloc, &mut weighted, 1, &[(1, NOT, 4), (1, NOT, 3)], 1).expect(&rt, "a constraint");
    put(alloc, &mut weighted, 2, &terms, 6).expect(&rt, "a constraint");
    let at_once = [(x(1), 2), (x(2), 2), (x(3), 2), (not_x(4), 1)];
    assert!(&rt; traces(&mut weighted, &at_once, None).expect(&rt, "memory"));
}

/// Whether a literal is told: by what stays of what is known, or by the rest.
fn is_listed(literal: Lit, stay: &[Lit], rest: &[(Lit, Option<Id>)]) -> bool {
    for (told, _) in rest {
        if *told == literal {
            return true;
        }
    }
    stay.contains(&literal)
}

/// Whether exactly these literals are told beside what is known, and no conflict.
fn is_told(retrace: &Retrace, known: &[Lit], told: &[Lit]) -> bool {
    let stay = &known[..retrace.kept.min(known.len())];
    let rest = retrace.rest.as_slice();
    for literal in told {
        if !is_listed(*literal, stay, rest) {
            return false;
        }
    }
    matches!(retrace.extent, Extent::Closed) && stay.len() + rest.len() == told.len()
}

/// Whether three clauses and what is given, under which they extend to these literals, are told rightly.
fn tells<P: Propagator>(
    live: &mut P,
    given: &[Lit],
    known: &[Lit],
    told: &[Lit],
) -> Result<bool, AllocError> {
    let retrace = Retracing { given, known }.ask(live)?;
    Ok(is_told(&retrace, known, told))
}

/// Whether what is forced is told rightly beside none of it, some of it and what never stood.
fn tells_forced<P: Propagator>(live: &mut P) -> Result<bool, AllocError> {
    let forced = [x(1), x(2), x(3)];
    Ok(
        tells(live, &[], &[], &forced)?
            && tells(live, &[], &[x(1), x(2)], &forced)?
            && tells(live, &[], &[not_x(1), x(2)], &forced)?,
    )
}

/// Whether the same is told rightly with one literal more, and with another one beside what stands no longer.
fn tells_decided<P: Propagator>(live: &mut P) -> Result<bool, AllocError> {
    let fourth = [x(1), x(2), x(3), not_x(4)];
    let fifth = [x(1), x(2), x(3), x(5)];
    Ok(tells(live, &[not_x(4)], &fourth[..3], &fourth)? && tells(live, &[x(5)], &fourth, &fifth)?)
}

/// Whether the opposite of a forced literal extends to a conflict.
fn tells_conflict<P: Propagator>(live: &mut P) -> Result<bool, AllocError> {
    let retrace = live.retrace(&[not_x(3)], &[x(1), x(2), x(3)])?;
    Ok(!matches!(retrace.extent, Extent::Closed))
}

/// Whether a propagator tells rightly what assignments extend to that it is asked of one after another.
fn retraces<P: Propagator>(alloc: Global) -> Result<bool, CutFault> {
    let mut live: P = three_clauses(alloc)?;
    Ok(tells_forced(&mut live)? && tells_decided(&mut live)? && tells_conflict(&mut live)?)
}

#[test]
fn retraced(rt: HostRuntime) {
    let alloc = rt.alloc();
    assert!(&rt; retraces::<ScanPropagator>(alloc).expect(&rt, "memory"));
    assert!(&rt; retraces::<WatchPropagator>(alloc).expect(&rt, "memory"));
}

/// Whether a propagator names its reasons, and tells no more than what is new: one that keeps a trail does.
fn tells_what_is_new<P: Propagator>(alloc: Global) -> Result<bool, CutFault> {
    let mut live: P = three_clauses(alloc)?;
    let chain = [(x(1), Some(8)), (x(2), Some(3)), (x(3), Some(1))];
    let whole = live.retrace(&[], &[])?;
    let end = live.retrace(&[], &[x(1), x(2)])?;
    let is_named = whole.kept == 0 && whole.rest.as_slice() == chain.as_slice();
    Ok(is_named && end.kept == 2 && end.rest.as_slice() == &chain[2..])
}

#[test]
fn retraced_with_reasons(rt: HostRuntime) {
    let told = tells_what_is_new::<WatchPropagator>(rt.alloc());
    assert!(&rt; told.expect(&rt, "memory"));
}

/// Whether a literal that is decided behind nothing is told as the one that is, with no conflict.
fn decides<P: Propagator>(alloc: Global) -> Result<bool, CutFault> {
    let mut live: P = three_clauses(alloc)?;
    let question = Deciding {
        before: &[],
        first: not_x(4),
        more: &[],
    };
    let decided = question.ask(&mut live)?;
    Ok(match decided.as_slice() {
        [one] => one.literal == not_x(4) && one.trace.conflict.is_none(),
        _ => false,
    })
}

#[test]
fn decided(rt: HostRuntime) {
    let alloc = rt.alloc();
    assert!(&rt; decides::<ScanPropagator>(alloc).expect(&rt, "memory"));
    assert!(&rt; decides::<WatchPropagator>(alloc).expect(&rt, "memory"));
}
