//! The steps of a block, by which a `red` step shows some of its goals (subproofs, after the VeriPB format). A block assumes the
//! negation of the new constraint, and a goal its own; what is assumed, and all that follows from it, is live beside the other
//! constraints under the ids from there on. An end takes that out by the ids, which needs no memory and costs what came in.

ghost use Rattle.std.specs.Prelude.{◌≡◌, ◌↔◌, ◌<◌, true, false, None, Some, All, IfErr, IfOk, IfSome, IsSomeAnd, IsErrOf, IsTrue, MatchOption, OnErr, OnOk};
ghost use Rattle.std.specs.FinMap as map;
ghost use Rattle.normal_form.specs.Normal.{Rises};
ghost use Rattle.substitution.specs.Objective.{IsObjectiveGoal};
ghost use Rattle.proof_rules.specs.Redundant.{IsShownNotRaised, IsShownUnder};
ghost use Rattle.proof_rules.specs.Shown.{IsShown};
ghost use Rattle.linear.specs.declared.constraint.Relation.TheVariants.{AtLeast};
ghost use Rattle.proof_rules.specs.Block.{LegalEnd, LegalGoal, LegalRedBegin, finished, with_block, with_goal};
ghost use Rattle.proof_rules.specs.Fault.{OrMemory, IsEndFault, IsInsideFault, IsProofGoalFault, IsRedBeginFault, IsUnopenedFault};
ghost use Rattle.proof_rules.specs.State.{Block, HasRoom, IsOutside, id_limit};
ghost use Rattle.kernel.specs.Held.{IsKept, given_id};
ghost use Rattle.kernel.specs.Redundance.{AreAskedShown, IsOpenLive};
ghost use Rattle.kernel.specs.Place.{AreUnopenedShown, IsAskedFor, IsAskedIn, IsInBlock, IsNameWithin, IsPlace};

use super::admission::admitted;
use super::conclusion::absurd;
use super::kernel::{Applied, Kernel};
use super::open_block::{OpenBlock, Place};
use super::redundance::judge_live;
use database::{Database, id_of, is_shown};
use linear::{Integer, Signed};
use normal_form::{Normal, negate};
use proof_rules::StepFault;
use proof_steps::{GoalName, Step};
use propagate::{Id, Propagator};
use std::alloc::{AllocError, Global};
use substitution::{NetObjective, Substitution};

impl<'a, P: Propagator> Kernel<'a, P> {
    /// Opens a block. The limits of the constraint and of its negation are judged first, then the ids.
    pub(crate) fn begin(
        &mut self,
        constraint: &Signed,
        witness: &Substitution,
    ) -> Result<Applied, StepFault>
        requires relation { constraint.now.relation ≡ AtLeast }
        requires outside { IsOutside self.old.state }
        ensures problem { self.new.problem ≡ self.old.problem }
        ensures ok { OnOk result (LegalRedBegin self.old.state constraint.now witness.now self.new.state) }
        ensures id { IfOk result (λ applied. applied.id ≡ Some self.old.state.next) }
        ensures fault { IfErr result (λ f. OrMemory f (IsRedBeginFault self.old.state constraint.now f)) }
        ensures err { OnErr result (self.new ≡ self.old) }
    {
        let constraint = admitted(self.allocator, constraint)?;
        let negation = negate(self.allocator, &constraint)?;
        if !self.database.has_room() {
            return Err(StepFault::TooManyIds);
        }
        let first = self.database.next_id();
        let block = OpenBlock::new(self.allocator, constraint, witness, first)?;
        self.assume(negation, block)
    }

    /// Adds the negation of a new constraint, for which a block is open from here on.
    fn assume(&mut self, negation: Normal, block: OpenBlock) -> Result<Applied, StepFault>
        requires room { HasRoom self.old.state }
        requires kept { IsKept (record { problem = self.old.problem; state = with_block block negation self.old.state }) }
        ensures problem { self.new.problem ≡ self.old.problem }
        ensures ok { OnOk result (self.new.state ≡ with_block block negation self.old.state) }
        ensures id { IfOk result (λ applied. applied.id ≡ Some self.old.state.next) }
        ensures memory { OnErr result (IsErrOf result StepFault.OutOfMemory) }
        ensures err { OnErr result (self.new ≡ self.old) }
    {
        let id = self.database.push(negation)?;
        self.block = Some(block);
        Ok(Applied { id: Some(id) })
    }

    /// Opens a goal. That a block is open, and no goal in it, is judged first, then the name, then the limits, then the ids.
    pub(crate) fn open_goal(&mut self, name: GoalName) -> Result<Applied, StepFault>
        ensures problem { self.new.problem ≡ self.old.problem }
        ensures ok { OnOk result (LegalGoal self.old.problem self.old.state name self.new.state) }
        ensures id { IfOk result (λ applied. applied.id ≡ Some self.old.state.next) }
        ensures fault { IfErr result (λ f. OrMemory f (IsInsideFault self.old.state (IsProofGoalFault self.old.problem self.old.state name) f)) }
        ensures err { OnErr result (self.new ≡ self.old) }
    {
        let goal = self.asked(name)?;
        let negation = negate(self.allocator, &goal)?;
        if !self.database.has_room() {
            return Err(StepFault::TooManyIds);
        }
        self.suppose(negation, name)
    }

    /// Adds the negation of a goal, which is open from here on.
    fn suppose(&mut self, negation: Normal, name: GoalName) -> Result<Applied, StepFault>
        requires room { HasRoom self.old.state }
        requires place { IsPlace self.old.state Place.Block }
        requires name { IsNameWithin self.old.state.next name }
        requires kept { (k : Block) → IsInBlock self.old.state k
            → IsKept (record { problem = self.old.problem; state = with_block (with_goal self.old.state.next name k) negation self.old.state }) }
        ensures problem { self.new.problem ≡ self.old.problem }
        ensures ok { (k : Block) → IsInBlock self.old.state k → OnOk result (self.new.state ≡ with_block (with_goal self.old.state.next name k) negation self.old.state) }
        ensures id { IfOk result (λ applied. applied.id ≡ Some self.old.state.next) }
        ensures memory { OnErr result (IsErrOf result StepFault.OutOfMemory) }
        ensures err { OnErr result (self.new ≡ self.old) }
    {
        let next = self.database.next_id();
        let id = self.database.push(negation)?;
        if note(&mut self.block, name, next).is_err() {
            self.database.take_back();
            return Err(StepFault::OutOfMemory);
        }
        Ok(Applied { id: Some(id) })
    }

    /// What a goal asks for that may be opened by a name.
    fn asked(&self, name: GoalName) -> Result<Normal, StepFault>
        ensures asked { IfOk result (IsAskedFor self.now.problem self.now.state name) }
        ensures within { OnOk result (IsNameWithin self.now.state.next name) }
        ensures fault { IfErr result (λ f. OrMemory f (IsInsideFault self.now.state (IsProofGoalFault self.now.problem self.now.state name) f)) }
    {
        let Some(block) = &self.block else {
            return Err(StepFault::NoBlock);
        };
        if let Place::Goal(_) = block.place() {
            return Err(StepFault::BlockOpen);
        }
        match self.asked_in(block, name)? {
            Some(goal) => Ok(goal),
            None => Err(StepFault::GoalUnknown),
        }
    }

    /// What a name asks for in a block, if it asks for something there.
    fn asked_in(&self, block: &OpenBlock, name: GoalName) -> Result<Option<Normal>, AllocError>
        ensures asked { IfOk result (IsAskedIn self.now.problem self.now.state block.now name) }
        ensures within { IfOk result (λ goal. IfSome goal (λ _. IsNameWithin self.now.state.next name)) }
    {
        self.reveal();
        match name {
            GoalName::Live(number) => self.live_goal(block, number),
            GoalName::Itself => block.own_goal(self.allocator),
            GoalName::Objective => objective_goal(self.allocator, &self.objective, block),
        }
    }

    /// What the live constraint becomes that a number means, unless that goal was opened.
    fn live_goal(&self, block: &OpenBlock, number: Integer) -> Result<Option<Normal>, AllocError>
        ensures asked { IfOk result (IsAskedIn self.now.problem self.now.state block.now (GoalName.Live number)) }
        ensures within { IfOk result (λ goal. IfSome goal (λ _. IsNameWithin self.now.state.next (GoalName.Live number))) }
    {
        let Some(id) = id_of(self.database.next_id(), number) else {
            return Ok(None);
        };
        if !block.is_unopened(id) {
            return Ok(None);
        }
        self.database.becomes(self.allocator, id, &block.witness)
    }

    /// Closes the open goal, or the block where none is open.
    pub(crate) fn end(&mut self) -> Result<Applied, StepFault>
        ensures problem { self.new.problem ≡ self.old.problem }
        ensures ok { OnOk result (LegalEnd self.old.problem self.old.state self.new.state) }
        ensures id { IfOk result (λ applied. applied.id ≡ given_id Step.End self.old.state) }
        ensures fault { IfErr result (λ f. OrMemory f (IsInsideFault self.old.state (λ k. IsEndFault self.old.problem self.old.state k k.goal) f)) }
        ensures err { OnErr result (self.new ≡ self.old) }
    {
        match self.place() {
            Place::Outside => Err(StepFault::NoBlock),
            Place::Block => self.end_block(),
            Place::Goal(first) => self.end_goal(first),
        }
    }

    /// Where the next step stands.
    fn place(&self) -> Place
        ensures { IsPlace self.now.state result }
    {
        match &self.block {
            None => Place::Outside,
            Some(block) => block.place(),
        }
    }

    /// Closes the open goal, where `0 >= 1` is shown. Its constraints go.
    fn end_goal(&mut self, first: Id) -> Result<Applied, StepFault>
        requires { IsPlace self.old.state (Place.Goal first) }
        ensures problem { self.new.problem ≡ self.old.problem }
        ensures ok { OnOk result (LegalEnd self.old.problem self.old.state self.new.state) }
        ensures id { IfOk result (λ applied. applied.id ≡ given_id Step.End self.old.state) }
        ensures fault { IfErr result (λ f. OrMemory f (IsInsideFault self.old.state (λ k. IsEndFault self.old.problem self.old.state k k.goal) f)) }
        ensures err { OnErr result (self.new ≡ self.old) }
    {
        let contradiction = absurd(self.allocator);
        if !self.shows(&contradiction)? {
            return Err(StepFault::GoalNotClosed);
        }
        let next = self.database.next_id();
        self.database.remove_between(u64::from(first), next);
        close(&mut self.block);
        Ok(Applied { id: None })
    }

    /// Closes the block, where the goals are shown that were not opened. Its constraints go, and the new one comes.
    fn end_block(&mut self) -> Result<Applied, StepFault>
        requires { IsPlace self.old.state Place.Block }
        ensures problem { self.new.problem ≡ self.old.problem }
        ensures ok { OnOk result (LegalEnd self.old.problem self.old.state self.new.state) }
        ensures id { IfOk result (λ applied. applied.id ≡ given_id Step.End self.old.state) }
        ensures fault { IfErr result (λ f. OrMemory f (IsInsideFault self.old.state (λ k. IsEndFault self.old.problem self.old.state k k.goal) f)) }
        ensures err { OnErr result (self.new ≡ self.old) }
    {
        if !self.database.has_room() {
            return Err(StepFault::TooManyIds);
        }
        self.judge_unopened()?;
        self.finish()
    }

    /// Judges the goals of the block that were not opened: live constraints by rising id, the new one, the objective.
    fn judge_unopened(&mut self) -> Result<(), StepFault>
        requires { IsPlace self.old.state Place.Block }
        ensures same { self.new ≡ self.old }
        ensures shown { (k : Block) → self.old.state.block ≡ Some k → OnOk result (AreUnopenedShown self.old.problem self.old.state k) }
        ensures fault { (k : Block) → self.old.state.block ≡ Some k → IfErr result (λ f. OrMemory f (IsUnopenedFault self.old.problem self.old.state k f)) }
    {
        self.reveal();
        let Some(block) = &self.block else {
            unreachable!();
        };
        judge_unopened_live(self.allocator, &mut self.database, block)?;
        if !shows_own(self.allocator, &mut self.database, block)? {
            return Err(StepFault::GoalOpenSelf);
        }
        if !shows_objective(self.allocator, &mut self.database, &self.objective, block)? {
            return Err(StepFault::GoalOpenObjective);
        }
        Ok(())
    }

    /// Adds the new constraint, and takes out those of the block. What may fail comes first.
    fn finish(&mut self) -> Result<Applied, StepFault>
        requires room { HasRoom self.old.state }
        requires place { IsPlace self.old.state Place.Block }
        requires kept { (k : Block) → self.old.state.block ≡ Some k → IsKept (record { problem = self.old.problem; state = finished k self.old.state }) }
        ensures problem { self.new.problem ≡ self.old.problem }
        ensures ok { (k : Block) → self.old.state.block ≡ Some k → OnOk result (self.new.state ≡ finished k self.old.state) }
        ensures id { IfOk result (λ applied. applied.id ≡ Some self.old.state.next) }
        ensures memory { OnErr result (IsErrOf result StepFault.OutOfMemory) }
        ensures err { OnErr result (self.new ≡ self.old) }
    {
        let Some(block) = &self.block else {
            unreachable!();
        };
        let first = u64::from(block.first);
        let constraint = block.constraint.copy(self.allocator)?;
        let id = self.database.push(constraint)?;
        self.database.remove_between(first, u64::from(id));
        self.block = None;
        Ok(Applied { id: Some(id) })
    }
}

/// Notes in the open block that a goal is opened, whose negation takes the next id.
fn note(block: &mut Option<OpenBlock>, name: GoalName, next: u64) -> Result<(), AllocError>
    requires room { next < id_limit }
    requires name { IsNameWithin next name }
    ensures ok { (k : Block) → block.old ≡ Some k → OnOk result (block.new ≡ Some (with_goal next name k)) }
    ensures err { OnErr result (block.new ≡ block.old) }
{
    match block {
        None => Ok(()),
        Some(block) => block.note(name, next),
    }
}

/// Notes in the open block that its goal is closed.
fn close(block: &mut Option<OpenBlock>)
    ensures { (k : Block) → block.old ≡ Some k → block.new ≡ Some (record k { goal = None }) }
{
    if let Some(block) = block {
        block.close_goal();
    }
}

/// That the objective does not rise, unless that goal was opened; none where there is no objective.
fn objective_goal(
    alloc: Global,
    objective: &NetObjective,
    block: &OpenBlock,
) -> Result<Option<Normal>, AllocError>
    ensures opened { block.now.objective ≡ true → IfOk result (λ goal. goal ≡ None) }
    ensures goal { block.now.objective ≡ false → IfOk result (λ goal. MatchOption objective.now (goal ≡ None)
        (λ terms. IsSomeAnd goal (IsObjectiveGoal terms block.now.images))) }
{
    if block.objective {
        return Ok(None);
    }
    objective.goal(alloc, &block.witness)
}

/// Judges what the live constraints become from before the block, by rising id, but for those whose goals were opened.
fn judge_unopened_live<P: Propagator>(
    alloc: Global,
    database: &mut Database<P>,
    block: &OpenBlock,
) -> Result<(), StepFault>
    requires normal { All (λ n. Rises 0 n.terms) (map.values database.old.live) }
    ensures same { database.new ≡ database.old }
    ensures shown { OnOk result (AreAskedShown database.old.live block.now.first block.now.opened (map.values database.old.live) block.now.images) }
    ensures fault { IfErr result (λ f. OrMemory f (IsOpenLive database.old.live block.now.first block.now.opened (map.values database.old.live) block.now.images f)) }
{
    let mut beside = Vec::new(alloc);
    judge_live(
        alloc,
        database,
        &mut beside,
        &block.witness,
        u64::from(block.first),
        &block.opened,
    )
}

/// Whether what the new constraint becomes is shown, unless that goal was opened.
fn shows_own<P: Propagator>(
    alloc: Global,
    database: &mut Database<P>,
    block: &OpenBlock,
) -> Result<bool, AllocError>
    ensures same { database.new ≡ database.old }
    ensures shown { IfOk result (λ yes. IsTrue yes ↔ (block.now.itself ≡ false → IsShownUnder (map.values database.old.live) block.now.images block.now.constraint)) }
{
    let goal = block.own_goal(alloc)?;
    shows_if_asked(alloc, database, &goal)
}

/// Whether it is shown that the objective does not rise, unless that goal was opened.
fn shows_objective<P: Propagator>(
    alloc: Global,
    database: &mut Database<P>,
    objective: &NetObjective,
    block: &OpenBlock,
) -> Result<bool, AllocError>
    ensures same { database.new ≡ database.old }
    ensures shown { IfOk result (λ yes. IsTrue yes ↔ (block.now.objective ≡ false → IfSome objective.now (IsShownNotRaised (map.values database.old.live) block.now.images))) }
{
    let goal = objective_goal(alloc, objective, block)?;
    shows_if_asked(alloc, database, &goal)
}

/// Whether a goal is shown from the live constraints, if one is asked.
fn shows_if_asked<P: Propagator>(
    alloc: Global,
    database: &mut Database<P>,
    goal: &Option<Normal>,
) -> Result<bool, AllocError>
    ensures same { database.new ≡ database.old }
    ensures shown { IfOk result (λ yes. IsTrue yes ↔ IfSome goal.now (IsShown (map.values database.old.live))) }
{
    let Some(goal) = goal else {
        return Ok(true);
    };
    let mut beside = Vec::new(alloc);
    is_shown(alloc, database, &mut beside, goal)
}
