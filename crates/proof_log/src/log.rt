//! A proof that grows with the search.
//!
//! The log keeps no database beside the kernel, and no list of steps: a step enters it as the line by which it is written, and
//! only where the kernel applies it. So that its text is that of legal steps, that these lead from the file to the kernel's
//! state, and that this state entitles to the conclusion are facts of its type, and hold whatever the search does. What is
//! handed out is this very text: a proof of millions of steps stands in memory once. Beside the text stands a count of the
//! steps that are known to bite, that is to say more than propagation over the live constraints before them: a search that
//! learns nothing cannot count up.
//!
//! Where there is an objective, every solution in a log is an improving one: `sol` and an objective do not meet in it, which its calls ask
//! for. So what the best solution is worth is the last value that was improved to, and the least; this is a fact of its type, too.
//!
//! Only steps that stand by themselves enter a log, and none of a block: so something may be concluded from each of its states, `NONE` at
//! least, and its text is a whole proof wherever the search stops.
//!
//! Each step of a log can be written, since each is over the names of the problem's file: the calls ask for it. So is whatever the steps have
//! led to: every live constraint is over these names, by this type too, and with it what is forced, learned or advised over them.
//!
//! Any constraint may be deleted by a legal step. That those which a search needs are not, the file's and the one that asks for a better
//! solution, is a fact of this type too: the call that deletes asks for it.

ghost use Rattle.std.specs.Prelude.{◌≡◌, length, IfOk, IfErr, IfSome, OnOk, OnErr};
ghost use Rattle.kernel.specs.Held.{HasAtLeast, given_id};
ghost use Rattle.proof_rules.specs.Fault.{OrMemory, IsStepFault};
ghost use Rattle.proof_rules.specs.Legal.{Legal};
ghost use Rattle.proof_rules.specs.State.{State};
ghost use Rattle.proof_text.specs.Writable.{IsStepWritable};
ghost use Rattle.proof_log.specs.Log.{AreAsBefore, IsAtHand, Records};

use super::fault::want_of_memory;
use kernel::{Applied, Kernel};
use linear::{Assignment, Integer, Lit, Names, Problem, Seq};
use normal_form::Normal;
use proof_rules::StepFault;
use proof_steps::{Conclusion, Step};
use proof_write::{is_step_writable, write_end, write_start, write_step};
use propagate::{Id, Ids, Propagator, Question};
use std::alloc::{AllocError, Global};
use std::marker::Model;
use std::mem;

/// The text of a proof of a problem as far as it has come, the state that its steps lead to, and a conclusion that the state
/// entitles to.
#[derive(Drop)]
pub struct Log<'a, P: Propagator> {
    source: &'a Problem,
    kernel: Kernel<'a, P>,
    text: Vec<u8>,
    improved: Vec<i128>,
    biting: u64,
    conclusion: Conclusion,
    /// The constraint that the last improving solution added.
    asking: Option<Id>,
}

impl<'a, P: Propagator> Model for Log<'a, P> {
    ghost use Rattle.std.specs.Prelude.{◌≡◌};
    ghost use Rattle.std.specs.Coded.{codes};
    ghost use Rattle.proof_rules.specs.Codes.{state_code};
    ghost use Rattle.proof_log.specs.Kept.{KeepsLive};
    ghost use Rattle.proof_log.specs.Log.{Logbook, IsProof};
    ghost use Rattle.proof_log.specs.Named.{LiveIsNamed};

    ghost Value = { Logbook };

    ghost coded = { Prim.hlevel (codes, state_code) };

    ghost view = { λ l. record { problem = l.source.now; text = l.text.items; state = l.kernel.state; improved = l.improved.items; biting = l.biting; conclusion = l.conclusion; asking = l.asking } };

    ghost invariant = { λ l. (l.kernel.problem ≡ l.source.now)
        × IsProof (record { problem = l.source.now; text = l.text.items; state = l.kernel.state; improved = l.improved.items; biting = l.biting; conclusion = l.conclusion; asking = l.asking })
        × KeepsLive (record { problem = l.source.now; text = l.text.items; state = l.kernel.state; improved = l.improved.items; biting = l.biting; conclusion = l.conclusion; asking = l.asking })
        × LiveIsNamed l.source.now l.kernel.state };
}

/// Has the kernel apply a step, or take its value where that is at hand: then nothing is run a second time. Either way the answer is the one
/// to the step.
fn judge<'a, P: Propagator>(
    kernel: &mut Kernel<'a, P>,
    step: &Step,
    value: Option<Normal>,
) -> Result<Applied, StepFault>
    requires relation { HasAtLeast step.now }
    requires value { IfSome value (IsAtHand kernel.old.state step.now) }
    ensures problem { kernel.new.problem ≡ kernel.old.problem }
    ensures ok { OnOk result (Legal kernel.old.problem kernel.old.state step.now kernel.new.state) }
    ensures id { IfOk result (λ applied. applied.id ≡ given_id step.now kernel.old.state) }
    ensures fault { IfErr result (λ f. OrMemory f (IsStepFault kernel.old.problem kernel.old.state step.now f)) }
    ensures err { OnErr result (kernel.new ≡ kernel.old) }
{
    match value {
        None => kernel.apply(step),
        Some(value) => kernel.add_derived(value),
    }
}

/// Keeps the line of a step that can be written behind the others, and has the kernel judge the step, or does neither.
fn keep<'a, P: Propagator>(
    text: &mut Vec<u8>,
    names: &Names,
    kernel: &mut Kernel<'a, P>,
    step: &Step,
    value: Option<Normal>,
) -> Result<Applied, StepFault>
    requires relation { HasAtLeast step.now }
    requires writable { IsStepWritable (length names.now) step.now }
    requires value { IfSome value (IsAtHand kernel.old.state step.now) }
    ensures ok { OnOk result (Records names.now step.now text.old.items kernel.old text.new.items kernel.new) }
    ensures id { IfOk result (λ applied. applied.id ≡ given_id step.now kernel.old.state) }
    ensures fault { IfErr result (λ f. OrMemory f (IsStepFault kernel.old.problem kernel.old.state step.now f)) }
    ensures err { OnErr result (AreAsBefore text.old.items kernel.old text.new.items kernel.new) }
{
    // The line is written before the kernel is asked, so that no step is applied and not kept.
    let before = text.len();
    write_step(step, names, text)?;
    match judge(kernel, step, value) {
        Ok(applied) => Ok(applied),
        Err(fault) => {
            text.truncate(before);
            Err(fault)
        }
    }
}

/// The same for a legal step: only memory may run out.
fn keep_legal<'a, P: Propagator>(
    text: &mut Vec<u8>,
    names: &Names,
    kernel: &mut Kernel<'a, P>,
    step: &Step,
    value: Option<Normal>,
) -> Result<Applied, AllocError>
    requires relation { HasAtLeast step.now }
    requires writable { IsStepWritable (length names.now) step.now }
    requires value { IfSome value (IsAtHand kernel.old.state step.now) }
    requires legal { (t : State) × Legal kernel.old.problem kernel.old.state step.now t }
    ensures ok { OnOk result (Records names.now step.now text.old.items kernel.old text.new.items kernel.new) }
    ensures id { IfOk result (λ applied. applied.id ≡ given_id step.now kernel.old.state) }
    ensures err { OnErr result (AreAsBefore text.old.items kernel.old text.new.items kernel.new) }
{
    match keep(text, names, kernel, step, value) {
        Ok(applied) => Ok(applied),
        Err(fault) => Err(want_of_memory(fault)),
    }
}

impl<'a, P: Propagator> Log<'a, P> {
    ghost use Rattle.std.specs.Prelude.{◌≡◌, ◌↔◌, ◌+◌, [], ◌∷◌, ◌++◌, IfOk, IfErr, IfSome, IsSome, IsTrue, None, OnOk, OnErr, Some, length};
    ghost use Rattle.std.specs.FinMap as map;
    ghost use Rattle.kernel.specs.Held.{HasAtLeast, given_id};
    ghost use Rattle.linear.specs.Limits.{IsWithin};
    ghost use Rattle.propagate.specs.Biting.{Bites};
    ghost use Rattle.proof_rules.specs.Claim.{IsSolution};
    ghost use Rattle.proof_rules.specs.Deletion.{AreDeletableAtOnce};
    ghost use Rattle.proof_rules.specs.Fault.{OrMemory, IsConclusionFault};
    ghost use Rattle.proof_rules.specs.Forms.{problem_ids};
    ghost use Rattle.proof_rules.specs.Justified.{IsBest};
    ghost use Rattle.proof_rules.specs.State.{HasRoom, IsStart, constraints};
    ghost use Rattle.proof_text.specs.Writable.{IsConclusionWritable};
    ghost use Rattle.proof_write.specs.Whole.{first_lines, last_lines};
    ghost use Rattle.proof_log.specs.Deleting.{AreNoted};
    ghost use Rattle.proof_log.specs.Kept.{IsSpare, KeepsLive, Spares};
    ghost use Rattle.proof_log.specs.Log.{CanBeWritten, GoesOn, HasTaken, ImprovesIfAsked, ImprovesNothing, IsAtHand, IsEntitled, IsFalling, IsLegal, IsProof, IsRefused, IsSpelledBy, IsValueOf, IsWorthLeast, StandsAlone, StepBites, improvement, last_of, with_conclusion};
    ghost use Rattle.proof_log.specs.Named.{LiveIsNamed};

    /// The log of a problem's file, with no step.
    pub fn new(alloc: Global, problem: &'a Problem) -> Result<Self, AllocError>
        ensures problem { IfOk result (λ l. l.problem ≡ problem.now) }
        ensures text { IfOk result (λ l. l.text ≡ first_lines (problem_ids problem.now.constraints)) }
        ensures start { IfOk result (λ l. IsStart problem.now l.state) }
        ensures biting { IfOk result (λ l. l.biting ≡ 0) }
        ensures conclusion { IfOk result (λ l. l.conclusion ≡ Conclusion.Nothing) }
        ensures asking { IfOk result (λ l. l.asking ≡ None) }
    {
        let kernel = Kernel::new(alloc, problem)?;
        // That the problem is within the limits is known by its type; this makes it known here.
        problem.reveal();
        let mut text = Vec::new(alloc);
        write_start(kernel.problem_ids(), &mut text)?;
        Ok(Log {
            source: problem,
            kernel,
            text,
            improved: Vec::new(alloc),
            biting: 0,
            conclusion: Conclusion::Nothing,
            asking: None,
        })
    }

    /// Applies a step that can be written, logs no improving solution and belongs to no block, whole or not at all, and keeps it. It logs
    /// another solution only where there is no objective, and deletes neither a constraint of the file nor the one that asks for a better
    /// solution. Nothing is concluded from the new state yet. A refusal is the kernel's, or that memory ran out, and leaves the log as before.
    pub fn apply(&mut self, step: Step) -> Result<Applied, StepFault>
        requires writable { CanBeWritten self.old step }
        requires relation { HasAtLeast step }
        requires alone { StandsAlone step }
        requires other { ImprovesNothing step }
        requires asked { ImprovesIfAsked self.old.problem step }
        requires spares { Spares self.old step }
        ensures goes_on { GoesOn self.old self.new }
        ensures taken { OnOk result (HasTaken self.old step self.new) }
        ensures improved { OnOk result (self.new.improved ≡ self.old.improved) }
        ensures biting { OnOk result (self.new.biting ≡ self.old.biting) }
        ensures asking { OnOk result (self.new.asking ≡ self.old.asking) }
        ensures id { IfOk result (λ applied. applied.id ≡ given_id step self.old.state) }
        ensures fault { IfErr result (IsRefused self.old step) }
        ensures err { OnErr result (self.new ≡ self.old) }
    {
        let applied = keep(
            &mut self.text,
            self.source.names(),
            &mut self.kernel,
            &step,
            None,
        )?;
        drop(mem::replace(&mut self.conclusion, Conclusion::Nothing));
        Ok(applied)
    }

    /// Applies a legal step, under the terms of `apply`. Running out of memory is the only fault, and leaves the log as before.
    pub fn take(&mut self, step: Step) -> Result<Applied, AllocError>
        requires writable { CanBeWritten self.old step }
        requires relation { HasAtLeast step }
        requires alone { StandsAlone step }
        requires other { ImprovesNothing step }
        requires asked { ImprovesIfAsked self.old.problem step }
        requires spares { Spares self.old step }
        requires legal { IsLegal self.old step }
        ensures goes_on { GoesOn self.old self.new }
        ensures taken { OnOk result (HasTaken self.old step self.new) }
        ensures improved { OnOk result (self.new.improved ≡ self.old.improved) }
        ensures biting { OnOk result (self.new.biting ≡ self.old.biting) }
        ensures asking { OnOk result (self.new.asking ≡ self.old.asking) }
        ensures id { IfOk result (λ applied. applied.id ≡ given_id step self.old.state) }
        ensures err { OnErr result (self.new ≡ self.old) }
    {
        match self.apply(step) {
            Ok(applied) => Ok(applied),
            Err(fault) => Err(want_of_memory(fault)),
        }
    }

    /// Keeps a legal step that can be written, whose constraint bites on the live ones, with its value where that is at hand, and counts it.
    fn keep_lesson(&mut self, step: Step, value: Option<Normal>) -> Result<Applied, AllocError>
        requires writable { CanBeWritten self.old step }
        requires relation { HasAtLeast step }
        requires value { IfSome value (IsAtHand self.old.state step) }
        requires legal { IsLegal self.old step }
        requires bites { StepBites self.old.state step }
        ensures goes_on { GoesOn self.old self.new }
        ensures taken { OnOk result (HasTaken self.old step self.new) }
        ensures improved { OnOk result (self.new.improved ≡ self.old.improved) }
        ensures biting { OnOk result (self.new.biting ≡ self.old.biting + 1) }
        ensures asking { OnOk result (self.new.asking ≡ self.old.asking) }
        ensures id { IfOk result (λ applied. applied.id ≡ given_id step self.old.state) }
        ensures err { OnErr result (self.new ≡ self.old) }
    {
        let applied = keep_legal(
            &mut self.text,
            self.source.names(),
            &mut self.kernel,
            &step,
            value,
        )?;
        self.biting += 1;
        drop(mem::replace(&mut self.conclusion, Conclusion::Nothing));
        Ok(applied)
    }

    /// Applies a legal step that can be written, whose constraint bites on the live ones, and counts it. Running out of memory is the only
    /// fault, and leaves the log as before.
    pub fn learn(&mut self, step: Step) -> Result<Applied, AllocError>
        requires writable { CanBeWritten self.old step }
        requires relation { HasAtLeast step }
        requires legal { IsLegal self.old step }
        requires bites { StepBites self.old.state step }
        ensures goes_on { GoesOn self.old self.new }
        ensures taken { OnOk result (HasTaken self.old step self.new) }
        ensures improved { OnOk result (self.new.improved ≡ self.old.improved) }
        ensures biting { OnOk result (self.new.biting ≡ self.old.biting + 1) }
        ensures asking { OnOk result (self.new.asking ≡ self.old.asking) }
        ensures id { IfOk result (λ applied. applied.id ≡ given_id step self.old.state) }
        ensures err { OnErr result (self.new ≡ self.old) }
    {
        self.keep_lesson(step, None)
    }

    /// The same for a `pol` step whose value is at hand, as long as an id is left. The kernel takes the value, and runs nothing.
    pub fn learn_derived(&mut self, step: Step, value: Normal) -> Result<Applied, AllocError>
        requires writable { CanBeWritten self.old step }
        requires value { IsValueOf self.old.state step value }
        requires bites { Bites (constraints self.old.state) value }
        requires room { HasRoom self.old.state }
        ensures goes_on { GoesOn self.old self.new }
        ensures taken { OnOk result (HasTaken self.old step self.new) }
        ensures improved { OnOk result (self.new.improved ≡ self.old.improved) }
        ensures biting { OnOk result (self.new.biting ≡ self.old.biting + 1) }
        ensures asking { OnOk result (self.new.asking ≡ self.old.asking) }
        ensures id { IfOk result (λ applied. applied.id ≡ Some self.old.state.next) }
        ensures err { OnErr result (self.new ≡ self.old) }
    {
        self.keep_lesson(step, Some(value))
    }

    /// Logs a solution that is better than all improving ones before, and keeps its value. From now on the constraint that it adds is the
    /// one that asks for a better solution. The step is legal and can be written; running out of memory is the only fault, and leaves the log
    /// as before.
    pub fn improve(&mut self, assigned: Seq<Lit>) -> Result<(), AllocError>
        requires writable { CanBeWritten self.old (Step.Soli assigned) }
        requires legal { IsLegal self.old (Step.Soli assigned) }
        ensures goes_on { GoesOn self.old self.new }
        ensures taken { OnOk result (HasTaken self.old (Step.Soli assigned) self.new) }
        ensures improved { OnOk result (self.new.improved ≡ self.old.improved ++ improvement (Step.Soli assigned) self.new.state) }
        ensures biting { OnOk result (self.new.biting ≡ self.old.biting) }
        ensures asking { OnOk result (self.new.asking ≡ Some self.old.state.next) }
        ensures err { OnErr result (self.new ≡ self.old) }
    {
        // That the objective is over the problem's names is known by its type; this makes it known here.
        self.source.reveal();
        // The room for the value is taken first, as that for the line is.
        self.improved.push(0)?;
        let step = Step::Soli(assigned);
        let applied = match keep_legal(
            &mut self.text,
            self.source.names(),
            &mut self.kernel,
            &step,
            None,
        ) {
            Ok(applied) => applied,
            Err(fault) => {
                self.improved.pop();
                return Err(fault);
            }
        };
        let Some(value) = self.kernel.least_value() else {
            unreachable!()
        };
        let place = self.improved.len() - 1;
        self.improved[place] = value;
        self.asking = applied.id;
        drop(mem::replace(&mut self.conclusion, Conclusion::Nothing));
        Ok(())
    }

    /// The constraint that asks for a better solution than the last improving one, if there is one.
    pub fn asking(&self) -> Option<Id>
        ensures { result ≡ self.now.asking }
    {
        self.asking
    }

    /// Whether a constraint may be deleted: it is none of the file's, and not the one that asks for a better solution.
    fn is_spare(&self, id: Id) -> bool
        ensures { IsTrue result ↔ IsSpare self.now.problem self.now.asking id }
    {
        u64::from(id) > self.kernel.problem_ids() && self.asking != Some(id)
    }

    /// Whether the constraint of an id is live.
    fn is_live(&self, id: Id) -> bool
        ensures { IsTrue result ↔ IsSome (map.get self.now.state.live id) }
    {
        self.kernel.constraint(id).is_some()
    }

    /// Whether a constraint may be deleted, and is live.
    fn is_deletable(&self, id: Id) -> bool
        ensures spare { IsTrue result → IsSpare self.now.problem self.now.asking id }
        ensures live { IsTrue result → IsSome (map.get self.now.state.live id) }
    {
        self.is_spare(id) && self.is_live(id)
    }

    /// Notes the number of a constraint, where it may be deleted and was not noted before.
    fn note(&self, id: Id, seen: &mut Ids, numbers: &mut Vec<Integer>) -> Result<(), AllocError>
        ensures { AreNoted self.now numbers.old.items seen.old → OnOk result (AreNoted self.now numbers.new.items seen.new) }
    {
        if !self.is_deletable(id) {
            return Ok(());
        }
        if seen.contains(id) {
            return Ok(());
        }
        seen.insert(id)?;
        numbers.push(i128::from(id))?;
        Ok(())
    }

    /// The numbers of those among some constraints that may be deleted: each is live, and they differ.
    fn deletable(&self, alloc: Global, ids: &[Id]) -> Result<Vec<Integer>, AllocError>
        ensures spare { IfOk result (λ numbers. Spares self.now (Step.Del numbers.items)) }
        ensures live { IfOk result (λ numbers. AreDeletableAtOnce self.now.state numbers.items) }
        ensures writable { IfOk result (λ numbers. CanBeWritten self.now (Step.Del numbers.items)) }
    {
        let mut numbers = Vec::new(alloc);
        let mut seen = Ids::empty(alloc);
        for id in ids {
            self.note(*id, &mut seen, &mut numbers)?;
        }
        Ok(numbers)
    }

    /// Deletes constraints, but for those that are not live, those of the file and the one that asks for a better solution. Running out of
    /// memory is the only fault.
    pub fn forget(&mut self, alloc: Global, ids: &[Id]) -> Result<(), AllocError>
        ensures goes_on { GoesOn self.old self.new }
        ensures next { OnOk result (self.new.state.next ≡ self.old.state.next) }
        ensures improved { OnOk result (self.new.improved ≡ self.old.improved) }
        ensures biting { OnOk result (self.new.biting ≡ self.old.biting) }
        ensures asking { OnOk result (self.new.asking ≡ self.old.asking) }
        ensures err { OnErr result (self.new ≡ self.old) }
    {
        // That no block is open is known by the type; this makes it known here.
        self.reveal();
        let numbers = self.deletable(alloc, ids)?;
        if numbers.is_empty() {
            return Ok(());
        }
        self.take(Step::Del(Seq::from_vec(numbers)))?;
        Ok(())
    }

    /// Whether a step can be written: its integers are at most 2^120 in size, its relation is `>=`, and its variables are the problem's.
    pub fn can_write(&self, step: &Step) -> bool
        ensures { IsTrue result ↔ CanBeWritten self.now step.now }
    {
        is_step_writable(self.source.names().len(), step)
    }

    /// Keeps a conclusion that the kernel accepts. A refusal is the kernel's, and leaves the log as before.
    pub fn conclude(&mut self, conclusion: Conclusion) -> Result<(), StepFault>
        ensures goes_on { GoesOn self.old self.new }
        ensures kept { OnOk result (self.new ≡ with_conclusion conclusion self.old) }
        ensures justified { OnOk result (IsEntitled self.old.problem self.old.state conclusion) }
        ensures fault { IfErr result (λ f. OrMemory f (IsConclusionFault self.old.problem self.old.state conclusion f)) }
        ensures err { OnErr result (self.new ≡ self.old) }
    {
        drop(self.kernel.conclude(&conclusion)?);
        drop(mem::replace(&mut self.conclusion, conclusion));
        Ok(())
    }

    /// The names of the problem.
    pub fn names(&self) -> &Names
        ensures { result.now ≡ self.now.problem.names }
    {
        self.source.names()
    }

    /// What holds of every log, for a proof that needs it where nothing else of the log is asked.
    pub fn reveal(&self)
        ensures proof { IsProof self.now }
        ensures live { KeepsLive self.now }
        ensures named { LiveIsNamed self.now.problem self.now.state }
        ensures within { IsWithin self.now.problem }
    {
        self.source.reveal();
    }

    /// The text of the proof as far as it has come: the first lines, and a line for each step.
    pub fn text(&self) -> &[u8]
        ensures text { result.now ≡ self.now.text }
        ensures proof { IsProof self.now }
    {
        self.text.as_slice()
    }

    /// The text of the whole proof: what there is of it, and the lines behind the steps with the conclusion. Nothing else is
    /// left of the log then, the kernel least of all. Running out of memory is the only fault.
    pub fn into_proof(self) -> Result<Vec<u8>, AllocError>
        requires { IsConclusionWritable (length self.problem.names) self.conclusion }
        ensures text { IfOk result (λ proof. proof.items ≡ self.entry.text ++ last_lines self.entry.problem.names self.entry.conclusion) }
        ensures spelled { IfOk result (λ proof. IsSpelledBy self.entry proof.items) }
        ensures proof { IsProof self.entry }
    {
        let Log {
            source,
            kernel,
            mut text,
            conclusion,
            ..
        } = self;
        drop(kernel);
        write_end(&conclusion, source.names(), &mut text)?;
        Ok(text)
    }

    /// So many steps, at least, are `pol` or `rup` steps whose constraint bites on the live ones before it.
    pub fn biting(&self) -> u64
        ensures biting { result ≡ self.now.biting }
        ensures proof { IsProof self.now }
    {
        self.biting
    }

    /// What was concluded, `NONE` where nothing was since the last step.
    pub fn conclusion(&self) -> &Conclusion
        ensures conclusion { result.now ≡ self.now.conclusion }
        ensures proof { IsProof self.now }
    {
        &self.conclusion
    }

    /// The problem.
    pub fn problem(&self) -> &Problem
        ensures { result.now ≡ self.now.problem }
    {
        self.source
    }

    /// The values of the improving solutions, the first one first. Each is below all before it, and the last one is the least
    /// value.
    pub fn improved(&self) -> &[i128]
        ensures improved { result.now ≡ self.now.improved }
        ensures falling { IsFalling result.now }
        ensures last { last_of result.now ≡ self.now.state.least }
        ensures proof { IsProof self.now }
    {
        self.improved.as_slice()
    }

    /// The least value of an improving solution, none where there is none.
    pub fn least_value(&self) -> Option<i128>
        ensures value { result ≡ self.now.state.least }
        ensures proof { IsProof self.now }
    {
        self.kernel.least_value()
    }

    /// A copy of the logged solution of the least value, the earliest among equals; none where nothing is logged. Where there is an
    /// objective it is worth the least value of an improving solution. Running out of memory is the only fault.
    pub fn best(&self) -> Result<Option<Assignment>, AllocError>
        ensures best { IfOk result (IsBest self.now.problem self.now.state.logged) }
        ensures solution { IfOk result (λ best. IfSome best (IsSolution self.now.problem)) }
        ensures least { IfOk result (λ best. IfSome best (IsWorthLeast self.now)) }
    {
        self.kernel.best_logged()
    }

    /// Whether an id is left for one more constraint.
    pub fn has_room(&self) -> bool
        ensures { IsTrue result ↔ HasRoom self.now.state }
    {
        self.kernel.has_room()
    }

    /// What follows from the live constraints by propagation, whatever is asked.
    pub fn ask<Q: Question>(&mut self, question: Q) -> Result<Q::Answer, AllocError>
        requires { Q.may_ask question }
        ensures same { self.new ≡ self.old }
        ensures answer { IfOk result (Q.answers question self.old.state.live) }
    {
        self.kernel.ask(question)
    }

    /// The kernel that the steps have led to its state.
    pub fn kernel(&self) -> &Kernel<'a, P>
        ensures problem { result.now.problem ≡ self.now.problem }
        ensures state { result.now.state ≡ self.now.state }
    {
        &self.kernel
    }
}
