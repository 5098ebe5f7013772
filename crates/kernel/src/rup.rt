//! `rup`: a written constraint is added where it is shown from the live ones (reverse unit propagation, after the VeriPB
//! proof format; here a constraint that a live one covers is shown too). What stands behind it as hints is never judged.

ghost use Rattle.std.specs.Prelude.{◌≡◌, Some, IfOk, IfErr, OnOk, OnErr};
ghost use Rattle.linear.specs.declared.constraint.Relation.TheVariants.{AtLeast};
ghost use Rattle.proof_rules.specs.Fault.{OrMemory, IsRupFault};
ghost use Rattle.proof_rules.specs.Legal.{LegalRup};

use super::admission::admitted;
use super::kernel::{Applied, Kernel};
use linear::Signed;
use proof_rules::StepFault;
use propagate::Propagator;

impl<'a, P: Propagator> Kernel<'a, P> {
    /// Adds a constraint that is shown from the live ones. The limits are judged first, then the ids.
    pub(crate) fn rup(&mut self, constraint: &Signed) -> Result<Applied, StepFault>
        requires { constraint.now.relation ≡ AtLeast }
        ensures problem { self.new.problem ≡ self.old.problem }
        ensures ok { OnOk result (LegalRup self.old.state constraint.now self.new.state) }
        ensures id { IfOk result (λ applied. applied.id ≡ Some self.old.state.next) }
        ensures fault { IfErr result (λ f. OrMemory f (IsRupFault self.old.state constraint.now f)) }
        ensures err { OnErr result (self.new ≡ self.old) }
    {
        let constraint = admitted(self.allocator, constraint)?;
        if !self.database.has_room() {
            return Err(StepFault::TooManyIds);
        }
        if !self.shows(&constraint)? {
            return Err(StepFault::NotShown);
        }
        self.add(constraint)
    }
}
