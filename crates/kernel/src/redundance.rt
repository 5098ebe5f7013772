//! `red`: a constraint is added that need not follow, where a witness turns every solution that it forbids into one that is
//! no worse (redundance-based strengthening, after the VeriPB format). The goals are judged in order: the live constraints by
//! rising id, the new one, the objective; each is shown from the live ones beside the negation of the new one. Most live
//! constraints have no literal that the witness makes false or another one. These become themselves or less, and are not looked at: the
//! propagator says which ones have such a literal, so that a step costs what its witness touches, however large the database is. Of a
//! long constraint that shows what it becomes, its terms of the witness' variables alone are looked at.

ghost use Rattle.std.specs.Prelude.{◌≡◌, ◌↔◌, ◌++◌, false, Some, All, IfOk, IfErr, IfSome, IsTrue, OnErr, OnOk};
ghost use Rattle.std.specs.FinMap as map;
ghost use Rattle.linear.specs.declared.constraint.Relation.TheVariants.{AtLeast};
ghost use Rattle.normal_form.specs.Normal.{NormalConstraint, Rises};
ghost use Rattle.proof_rules.specs.Fault.{OrMemory, IsGoalFault, IsRedFault};
ghost use Rattle.proof_rules.specs.Legal.{LegalRed};
ghost use Rattle.proof_rules.specs.State.{IsOutside, constraints};
ghost use Rattle.proof_rules.specs.Redundant.{IsShownNotRaised, IsShownUnder};
ghost use Rattle.proof_rules.specs.Shown.{IsShown};
ghost use Rattle.kernel.specs.Redundance.{AreAskedShown, AreGoalsShown, IsAsked, IsGoalOpen, IsOpenLive};

use super::admission::admitted;
use super::kernel::{Applied, Kernel};
use database::{Database, is_shown};
use linear::Signed;
use normal_form::{Normal, negate};
use proof_rules::StepFault;
use propagate::{Id, Ids, Propagator};
use std::alloc::{AllocError, Global};
use substitution::{Substitution, apply};

impl<'a, P: Propagator> Kernel<'a, P> {
    /// Adds a redundant constraint. The limits are judged first, then the ids, then the goals.
    pub(crate) fn red(
        &mut self,
        constraint: &Signed,
        witness: &Substitution,
    ) -> Result<Applied, StepFault>
        requires relation { constraint.now.relation ≡ AtLeast }
        requires outside { IsOutside self.old.state }
        ensures problem { self.new.problem ≡ self.old.problem }
        ensures ok { OnOk result (LegalRed self.old.problem self.old.state constraint.now witness.now self.new.state) }
        ensures id { IfOk result (λ applied. applied.id ≡ Some self.old.state.next) }
        ensures fault { IfErr result (λ f. OrMemory f (IsRedFault self.old.problem self.old.state constraint.now witness.now f)) }
        ensures err { OnErr result (self.new ≡ self.old) }
    {
        let constraint = admitted(self.allocator, constraint)?;
        if !self.database.has_room() {
            return Err(StepFault::TooManyIds);
        }
        self.judge_goals(&constraint, witness)?;
        self.add(constraint)
    }

    /// Judges the goals of a new constraint. One of degree 0 has all of them shown, since its negation is a contradiction, which
    /// might not fit and is not made.
    fn judge_goals(&mut self, constraint: &Normal, witness: &Substitution) -> Result<(), StepFault>
        ensures same { self.new ≡ self.old }
        ensures shown { OnOk result (AreGoalsShown self.old witness.now constraint.now) }
        ensures fault { IfErr result (λ f. OrMemory f (IsGoalOpen self.old witness.now constraint.now f)) }
    {
        self.reveal();
        if constraint.degree() == 0 {
            return Ok(());
        }
        let mut beside = Vec::new(self.allocator);
        beside.push(negate(self.allocator, constraint)?)?;
        self.judge_goals_beside(&mut beside, constraint, witness)
    }

    /// Judges the goals of a new constraint, with some constraints beside the live ones: what the live ones become by rising id, the new
    /// one, the objective.
    fn judge_goals_beside(
        &mut self,
        beside: &mut Vec<Normal>,
        constraint: &Normal,
        witness: &Substitution,
    ) -> Result<(), StepFault>
        ensures same { self.new ≡ self.old }
        ensures shown { OnOk result (All (IsShownUnder (constraints self.old.state ++ beside.old.items) witness.now) (constraints self.old.state)
            × IsShownUnder (constraints self.old.state ++ beside.old.items) witness.now constraint.now
            × IfSome self.old.problem.objective (IsShownNotRaised (constraints self.old.state ++ beside.old.items) witness.now)) }
        ensures fault { IfErr result (λ f. OrMemory f (IsGoalFault self.old.problem self.old.state (constraints self.old.state ++ beside.old.items) witness.now constraint.now f)) }
    {
        self.judge_all_live(beside, witness)?;
        if !self.shows_image(beside, constraint, witness)? {
            return Err(StepFault::GoalOpenSelf);
        }
        if !self.shows_not_raised(beside, witness)? {
            return Err(StepFault::GoalOpenObjective);
        }
        Ok(())
    }

    /// Judges what the live constraints become, by rising id.
    fn judge_all_live(
        &mut self,
        beside: &mut Vec<Normal>,
        witness: &Substitution,
    ) -> Result<(), StepFault>
        ensures same { self.new ≡ self.old }
        ensures beside { beside.new.items ≡ beside.old.items }
        ensures shown { OnOk result (All (IsShownUnder (constraints self.old.state ++ beside.old.items) witness.now) (constraints self.old.state)) }
        ensures fault { (n : NormalConstraint) → IfErr result (λ f. OrMemory f (IsGoalFault self.old.problem self.old.state (constraints self.old.state ++ beside.old.items) witness.now n f)) }
    {
        self.reveal();
        let end = self.database.next_id();
        let opened = Ids::empty(self.allocator);
        judge_live(
            self.allocator,
            &mut self.database,
            beside,
            witness,
            end,
            &opened,
        )
    }

    /// Whether what a constraint becomes is shown.
    fn shows_image(
        &mut self,
        beside: &mut Vec<Normal>,
        constraint: &Normal,
        witness: &Substitution,
    ) -> Result<bool, AllocError>
        ensures same { self.new ≡ self.old }
        ensures beside { beside.new.items ≡ beside.old.items }
        ensures shown { IfOk result (λ yes. IsTrue yes ↔ IsShownUnder (constraints self.old.state ++ beside.old.items) witness.now constraint.now) }
    {
        let goal = apply(self.allocator, constraint, witness)?;
        is_shown(self.allocator, &mut self.database, beside, &goal)
    }

    /// Whether it is shown that the objective does not rise, where there is one.
    fn shows_not_raised(
        &mut self,
        beside: &mut Vec<Normal>,
        witness: &Substitution,
    ) -> Result<bool, AllocError>
        ensures same { self.new ≡ self.old }
        ensures beside { beside.new.items ≡ beside.old.items }
        ensures shown { IfOk result (λ yes. IsTrue yes ↔ IfSome self.old.problem.objective (IsShownNotRaised (constraints self.old.state ++ beside.old.items) witness.now)) }
    {
        self.reveal();
        let Some(goal) = self.objective.goal(self.allocator, witness)? else {
            return Ok(true);
        };
        is_shown(self.allocator, &mut self.database, beside, &goal)
    }
}

/// Judges what live constraints become under the witness, by rising id: those under ids below an end whose goals were not opened
/// in a block; `red` asks it of all. Only those that the witness touches are looked at: the others show what they become.
pub(crate) fn judge_live<P: Propagator>(
    alloc: Global,
    database: &mut Database<P>,
    beside: &mut Vec<Normal>,
    witness: &Substitution,
    end: u64,
    opened: &Ids,
) -> Result<(), StepFault>
    requires normal { All (λ n. Rises 0 n.terms) (map.values database.old.live) }
    ensures same { database.new ≡ database.old }
    ensures beside { beside.new.items ≡ beside.old.items }
    ensures shown { OnOk result (AreAskedShown database.old.live end opened.now (map.values database.old.live ++ beside.old.items) witness.now) }
    ensures fault { IfErr result (λ f. OrMemory f (IsOpenLive database.old.live end opened.now (map.values database.old.live ++ beside.old.items) witness.now f)) }
{
    let mut touched = database.touched(alloc, witness)?;
    while let Some(id) = touched.pop_first() {
        if !shows_asked(alloc, database, beside, id, witness, end, opened)? {
            return Err(StepFault::GoalOpen(id));
        }
    }
    Ok(())
}

/// Whether what the live constraint of an id becomes is shown, where that is asked of it.
fn shows_asked<P: Propagator>(
    alloc: Global,
    database: &mut Database<P>,
    beside: &mut Vec<Normal>,
    id: Id,
    witness: &Substitution,
    end: u64,
    opened: &Ids,
) -> Result<bool, AllocError>
    ensures same { database.new ≡ database.old }
    ensures beside { beside.new.items ≡ beside.old.items }
    ensures shown { IfOk result (λ yes. (n : NormalConstraint) → map.get database.old.live id ≡ Some n → IsTrue yes → IsAsked end opened.now id
        → IsShownUnder (map.values database.old.live ++ beside.old.items) witness.now n) }
    ensures unshown { IfOk result (λ yes. yes ≡ false → IsAsked end opened.now id × ((n : NormalConstraint) → map.get database.old.live id ≡ Some n
        → IsShownUnder (map.values database.old.live ++ beside.old.items) witness.now n → ⊥)) }
{
    if u64::from(id) >= end || opened.contains(id) {
        return Ok(true);
    }
    shows_live(alloc, database, beside, id, witness)
}

/// Whether what the live constraint of an id becomes is shown.
fn shows_live<P: Propagator>(
    alloc: Global,
    database: &mut Database<P>,
    beside: &mut Vec<Normal>,
    id: Id,
    witness: &Substitution,
) -> Result<bool, AllocError>
    ensures same { database.new ≡ database.old }
    ensures beside { beside.new.items ≡ beside.old.items }
    ensures shown { IfOk result (λ yes. (n : NormalConstraint) → map.get database.old.live id ≡ Some n
        → IsTrue yes ↔ IsShownUnder (map.values database.old.live ++ beside.old.items) witness.now n) }
{
    let Some(goal) = database.becoming(alloc, id, witness)? else {
        return Ok(true);
    };
    shows_goal(alloc, database, beside, id, &goal)
}

/// Whether a goal is shown, that comes from the live constraint of an id. A symmetry makes a live constraint of it, which is seen before
/// anything is propagated.
fn shows_goal<P: Propagator>(
    alloc: Global,
    database: &mut Database<P>,
    beside: &mut Vec<Normal>,
    id: Id,
    goal: &Normal,
) -> Result<bool, AllocError>
    ensures same { database.new ≡ database.old }
    ensures beside { beside.new.items ≡ beside.old.items }
    ensures shown { IfOk result (λ yes. IsTrue yes ↔ IsShown (map.values database.old.live ++ beside.old.items) goal.now) }
{
    if database.has_become_live(id, goal)? {
        return Ok(true);
    }
    is_shown(alloc, database, beside, goal)
}
