//! The analysis of a conflict, from the falsified constraint back over the reasons of what was forced.
//!
//! A learned constraint is worth keeping only where it would have forced something at an earlier decision level (it bites
//! there). So reasons are added up, last forced first, until the sum does; the sum is a `pol` line, so whatever is
//! learned can be checked step by step (cutting planes: Cook, Coullard and Turán, 1987).

ghost use Rattle.std.specs.Prelude.{◌<◌, IfOk, IfSome};
ghost use Rattle.proof_rules.specs.Expression.{IsPostfixOf};
ghost use Rattle.proof_rules.specs.State.{constraint_of};
ghost use Rattle.analysis.specs.Biting.{BitesAt, greatest_level};
ghost use Rattle.analysis.specs.Lines.{BeginsWith};

use super::learned::Learned;
use super::met::Met;
use super::resolvent::Resolvent;
use super::search_trail::SearchTrail;
use super::seen::Seen;
use super::stop::Stop;
use super::walk::walk;
use accumulate::Accumulator;
use kernel::Kernel;
use propagate::{Id, Propagator};
use std::alloc::{AllocError, Global};

/// Analyses one conflict after another. What it holds between them is of no account, but for what the last one met: it is kept
/// for its memory.
#[derive(Drop)]
pub struct Analyser {
    pub(crate) resolvent: Resolvent,
    /// Where a reason is made ready before it is added.
    pub(crate) aside: Accumulator,
    pub(crate) seen: Seen,
    /// What the last analysis came by.
    pub met: Met,
}

impl Analyser {
    /// Of no conflict yet.
    pub fn new(alloc: Global) -> Self {
        Analyser {
            resolvent: Resolvent::new(alloc),
            aside: Accumulator::new(alloc),
            seen: Seen::new(alloc),
            met: Met::new(alloc),
        }
    }

    /// A constraint that follows from the live ones and would have said something sooner: it has negative slack or forces a literal
    /// under fewer decisions than are open. `None` where the walk finds none, or a number grows too large: the clause of the negated
    /// decisions serves then. The line that derives it begins with the conflict.
    pub fn analyse<'a, P: Propagator>(
        &mut self,
        alloc: Global,
        kernel: &Kernel<'a, P>,
        trail: &SearchTrail,
        conflict: Id,
    ) -> Result<Option<Learned>, AllocError>
        ensures begins { IfOk result (λ found. IfSome found (λ l. BeginsWith conflict l.items)) }
        ensures derived { IfOk result (λ found. IfSome found (λ l. IsPostfixOf (constraint_of kernel.now.state) l.items l.constraint)) }
        ensures biting { IfOk result (λ found. IfSome found (λ l. BitesAt trail.now.entries l.level l.constraint)) }
        ensures lower { IfOk result (λ found. IfSome found (λ l. l.level < greatest_level trail.now.entries)) }
    {
        self.met.clear();
        match walk(alloc, kernel, trail, conflict, self) {
            Ok(learned) => Ok(Some(learned)),
            Err(Stop::NothingLearned) => Ok(None),
            Err(Stop::OutOfMemory) => Err(AllocError),
        }
    }
}
