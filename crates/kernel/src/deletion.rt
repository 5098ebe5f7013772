//! `del`: live constraints are taken out by their ids, the file's own and improving ones too, since solutions are judged by
//! the file and never by what is live. All ids of a step are judged before the first constraint goes: taking out needs no
//! memory, and putting back might, so a step that is refused has changed nothing. An id that stands twice is dead the
//! second time, which a set of the ids before tells; one id alone needs no set.

ghost use Rattle.std.specs.Prelude.{◌≡◌, [], ◌∷◌, None, IfErr, IfOk, IsSome, OnErr, OnOk};
ghost use Rattle.proof_rules.specs.Fault.{OrMemory, IsDelFault};
ghost use Rattle.proof_rules.specs.Legal.{LegalDel, without};
ghost use Rattle.proof_rules.specs.State.{State, IsOutside, constraint_of, id_of};
ghost use Rattle.kernel.specs.Deletion.{AreDeletable, IsWithout};

use super::kernel::{Applied, Kernel};
use linear::Integer;
use proof_rules::StepFault;
use propagate::{Id, Ids, Propagator};

impl<'a, P: Propagator> Kernel<'a, P> {
    /// Takes out the constraints of some ids.
    pub(crate) fn del(&mut self, numbers: &[Integer]) -> Result<Applied, StepFault>
        requires outside { IsOutside self.old.state }
        ensures problem { self.new.problem ≡ self.old.problem }
        ensures ok { OnOk result (LegalDel self.old.state numbers.now self.new.state) }
        ensures id { IfOk result (λ applied. applied.id ≡ None) }
        ensures fault { IfErr result (λ f. OrMemory f (IsDelFault self.old.state numbers.now f)) }
        ensures err { OnErr result (self.new ≡ self.old) }
    {
        self.judge_deletion(numbers)?;
        for number in numbers {
            self.remove(*number);
        }
        Ok(Applied { id: None })
    }

    /// Judges the ids of a deletion.
    fn judge_deletion(&self, numbers: &[Integer]) -> Result<(), StepFault>
        ensures ok { OnOk result (AreDeletable self.now.state numbers.now) }
        ensures fault { IfErr result (λ f. OrMemory f (IsDelFault self.now.state numbers.now f)) }
    {
        match numbers {
            [number] => self.judge_alone(*number),
            _ => self.judge_in_turn(numbers),
        }
    }

    /// Judges the one id of a deletion, as most have it: nothing is gone before it.
    fn judge_alone(&self, number: Integer) -> Result<(), StepFault>
        ensures ok { OnOk result (AreDeletable self.now.state (number ∷ [])) }
        ensures fault { IfErr result (λ f. OrMemory f (IsDelFault self.now.state (number ∷ []) f)) }
    {
        let none = Ids::empty(self.allocator);
        self.live_after(&none, number)?;
        Ok(())
    }

    /// Judges the ids of a deletion from left to right, each as if those before it were gone.
    fn judge_in_turn(&self, numbers: &[Integer]) -> Result<(), StepFault>
        ensures ok { OnOk result (AreDeletable self.now.state numbers.now) }
        ensures fault { IfErr result (λ f. OrMemory f (IsDelFault self.now.state numbers.now f)) }
    {
        let mut gone = Ids::empty(self.allocator);
        for number in numbers {
            let id = self.live_after(&gone, *number)?;
            gone.insert(id)?;
        }
        Ok(())
    }

    /// The id that a number means, where it is live after some others are gone.
    fn live_after(&self, gone: &Ids, number: Integer) -> Result<Id, StepFault>
        ensures id { (t : State) → IsWithout gone.now self.now.state t → IfOk result (λ id. id ≡ id_of t.next number) }
        ensures live { (t : State) → IsWithout gone.now self.now.state t → OnOk result (IsSome (constraint_of t number)) }
        ensures dead { (t : State) → IsWithout gone.now self.now.state t → IfErr result (λ f. (f ≡ StepFault.DeadId) × (constraint_of t number ≡ None)) }
    {
        let Some(id) = self.database.live_id(number) else {
            return Err(StepFault::DeadId);
        };
        if gone.contains(id) {
            return Err(StepFault::DeadId);
        }
        Ok(id)
    }

    /// Takes out the live constraint that a number means.
    fn remove(&mut self, number: Integer)
        requires live { IsSome (constraint_of self.old.state number) }
        requires outside { IsOutside self.old.state }
        ensures problem { self.new.problem ≡ self.old.problem }
        ensures state { self.new.state ≡ without (id_of self.old.state.next number) self.old.state }
    {
        self.database.remove(number);
    }
}
