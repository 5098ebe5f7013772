//! A constraint that a step writes is put into its normal form before anything is judged of it: where it is not within the limits,
//! the step is refused for that.

ghost use Rattle.std.specs.Prelude.{◌≡◌, IfOk, IfErr};
ghost use Rattle.linear.specs.declared.constraint.Relation.TheVariants.{AtLeast};
ghost use Rattle.normal_form.specs.Normal.{IsNormal};
ghost use Rattle.proof_rules.specs.Fault.{OrMemory};
ghost use Rattle.proof_rules.specs.Shown.{IsAdmitted};
ghost use Rattle.kernel.specs.Held.{IsUnadmitted};

use linear::Signed;
use normal_form::{Normal, normalize};
use proof_rules::StepFault;
use std::alloc::Global;

/// The normal form of a written constraint, where it is within the limits.
pub(crate) fn admitted(alloc: Global, constraint: &Signed) -> Result<Normal, StepFault>
    requires { constraint.now.relation ≡ AtLeast }
    ensures form { IfOk result (IsAdmitted constraint.now) }
    ensures normal { IfOk result IsNormal }
    ensures fault { IfErr result (λ f. OrMemory f (IsUnadmitted constraint.now f)) }
{
    Ok(normalize(alloc, constraint)?)
}
