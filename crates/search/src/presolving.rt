//! What is put into the log before any search: that literals are true which may be made true at no cost, and that of two
//! variables which may change places the first one is true wherever the second is.
//!
//! A candidate is not believed. Each is put to the kernel as a step of redundance, and one that the kernel refuses is left out, as one is for
//! which no id is left; so nothing but speed rests on which candidates there are. Their constraints are no
//! lessons: they stand for as long as the search goes on, and are not counted as what a conflict has taught.

ghost use Rattle.std.specs.Prelude.{◌≡◌, ◌≢◌, ◌<◌, All, map, IfOk, OnErr, OnOk};
ghost use Rattle.kernel.specs.Held.{HasAtLeast};
ghost use Rattle.proof_log.specs.Kept.{Spares};
ghost use Rattle.proof_log.specs.Log.{CanBeWritten, ImprovesIfAsked, ImprovesNothing, StandsAlone};
ghost use Rattle.proof_log.specs.Named.{AreNamed};
ghost use Rattle.search.specs.Presolving.{IsNamedPair, IsPresolved, Tries, TriesAll, exchange, fixing, in_order, is_true, made_true, swapping, variable};

use linear::{Lit, Relation, Seq, Signed, Term, Var};
use presolve::{Swap, fixable, swappable};
use proof_log::Log;
use proof_rules::StepFault;
use proof_steps::Step;
use propagate::Propagator;
use std::alloc::{AllocError, Global};
use substitution::{Image, Substitution};

/// `1 l >= 1`.
fn is_true(alloc: Global, literal: Lit) -> Result<Signed, AllocError>
    ensures { IfOk result (λ constraint. constraint ≡ is_true literal) }
{
    let term = Term {
        coef: 1,
        var: literal.var,
        negated: literal.negated,
    };
    let terms = Vec::from_slice(alloc, &[term])?;
    Ok(Signed {
        terms: Seq::from_vec(terms),
        relation: Relation::AtLeast,
        right: 1,
    })
}

/// The witness that makes a literal true.
fn made_true(alloc: Global, literal: Lit) -> Result<Substitution, AllocError>
    ensures { IfOk result (λ witness. witness ≡ made_true literal) }
{
    let image = if literal.negated {
        Image::Zero
    } else {
        Image::One
    };
    let images = Vec::from_slice(alloc, &[(literal.var, image)])?;
    let Some(witness) = Substitution::new(alloc, images)? else {
        unreachable!()
    };
    Ok(witness)
}

/// `1 x 1 ~y >= 1`: the first of two variables is true wherever the second is.
fn in_order(alloc: Global, swap: Swap) -> Result<Signed, AllocError>
    ensures { IfOk result (λ constraint. constraint ≡ in_order swap) }
{
    let first = Term {
        coef: 1,
        var: swap.first,
        negated: false,
    };
    let second = Term {
        coef: 1,
        var: swap.second,
        negated: true,
    };
    let terms = Vec::from_slice(alloc, &[first, second])?;
    Ok(Signed {
        terms: Seq::from_vec(terms),
        relation: Relation::AtLeast,
        right: 1,
    })
}

/// The image that is a variable itself.
fn variable(var: Var) -> Image
    ensures { result ≡ variable var }
{
    Image::Lit(Lit {
        var,
        negated: false,
    })
}

/// The witness by which two variables change places.
fn exchange(alloc: Global, swap: Swap) -> Result<Substitution, AllocError>
    requires { swap.first.0 < swap.second.0 }
    ensures { IfOk result (λ witness. witness ≡ exchange swap) }
{
    let first = (swap.first, variable(swap.second));
    let second = (swap.second, variable(swap.first));
    let images = Vec::from_slice(alloc, &[first, second])?;
    let Some(witness) = Substitution::new(alloc, images)? else {
        unreachable!()
    };
    Ok(witness)
}

/// Hands on that memory ran out; any other fault says only that a step is not legal.
fn unless_refused(fault: StepFault) -> Result<(), AllocError>
    ensures ok { OnOk result (fault ≢ StepFault.OutOfMemory) }
    ensures err { OnErr result (fault ≡ StepFault.OutOfMemory) }
{
    match fault {
        StepFault::OutOfMemory => Err(AllocError),
        _ => Ok(()),
    }
}

/// Puts a step that can be written into the log where it is legal.
fn attempt<'a, P: Propagator>(log: &mut Log<'a, P>, step: Step) -> Result<(), AllocError>
    requires writable { CanBeWritten log.old step }
    requires relation { HasAtLeast step }
    requires alone { StandsAlone step }
    requires other { ImprovesNothing step }
    requires asked { ImprovesIfAsked log.old.problem step }
    requires spares { Spares log.old step }
    ensures problem { log.new.problem ≡ log.old.problem }
    ensures tried { OnOk result (Tries step log.old log.new) }
{
    if let Err(fault) = log.apply(step) {
        return unless_refused(fault);
    }
    Ok(())
}

/// Fixes each of these literals where that is legal.
fn fix<'a, P: Propagator>(
    alloc: Global,
    log: &mut Log<'a, P>,
    literals: &[Lit],
) -> Result<(), AllocError>
    requires { AreNamed log.old literals.now }
    ensures problem { log.new.problem ≡ log.old.problem }
    ensures tried { OnOk result (TriesAll (map fixing literals.now) log.old log.new) }
{
    for literal in literals {
        let step = Step::Red(is_true(alloc, *literal)?, made_true(alloc, *literal)?);
        attempt(log, step)?;
    }
    Ok(())
}

/// Asks for an order of each of these pairs where that is legal.
fn order<'a, P: Propagator>(
    alloc: Global,
    log: &mut Log<'a, P>,
    swaps: &[Swap],
) -> Result<(), AllocError>
    requires { All (IsNamedPair log.old) swaps.now }
    ensures problem { log.new.problem ≡ log.old.problem }
    ensures tried { OnOk result (TriesAll (map swapping swaps.now) log.old log.new) }
{
    for swap in swaps {
        let step = Step::Red(in_order(alloc, *swap)?, exchange(alloc, *swap)?);
        attempt(log, step)?;
    }
    Ok(())
}

/// Fixes the literals of the problem that may be made true before any search, and asks for an order of the variables that may
/// change places.
pub(crate) fn presolve<'a, P: Propagator>(
    alloc: Global,
    log: &mut Log<'a, P>,
) -> Result<(), AllocError>
    ensures problem { log.new.problem ≡ log.old.problem }
    ensures biting { OnOk result (log.new.biting ≡ log.old.biting) }
    ensures tried { OnOk result (IsPresolved log.old log.new) }
{
    let literals = fixable(alloc, log.problem())?;
    fix(alloc, log, literals.as_slice())?;
    let swaps = swappable(alloc, log.problem(), literals.as_slice())?;
    order(alloc, log, swaps.as_slice())
}
