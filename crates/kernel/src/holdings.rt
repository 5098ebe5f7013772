//! What a kernel holds beside its constraints, lent to whoever writes a proof: none of these calls judges or changes anything.
//! Whoever searches asks here how good its best solution is and whether another constraint can still be named, and keeps
//! no count of its own that might differ.

ghost use Rattle.std.specs.Prelude.{◌≡◌, ◌↔◌, IfOk, IfSome, IsTrue};
ghost use Rattle.proof_rules.specs.Claim.{IsSolution};
ghost use Rattle.proof_rules.specs.Forms.{problem_ids};
ghost use Rattle.proof_rules.specs.Justified.{IsBest};
ghost use Rattle.proof_rules.specs.State.{HasRoom};

use super::kernel::Kernel;
use linear::{Assignment, Integer};
use propagate::Propagator;
use std::alloc::AllocError;

impl<'a, P: Propagator> Kernel<'a, P> {
    /// The least value of an improving solution, none where there is none.
    pub fn least_value(&self) -> Option<Integer>
        ensures { result ≡ self.now.state.least }
    {
        self.log.least()
    }

    /// The logged solution of the least value, the earliest among equals; none where nothing is logged. It is made anew for each
    /// call, since solutions are kept at a bit a variable: an error says that there was no memory for that.
    pub fn best_logged(&self) -> Result<Option<Assignment>, AllocError>
        ensures best { IfOk result (λ best. IsBest self.now.problem self.now.state.logged best) }
        ensures solution { IfOk result (λ best. IfSome best (IsSolution self.now.problem)) }
    {
        self.log.best(self.allocator, self.source)
    }

    /// Whether an id is left for one more constraint.
    pub fn has_room(&self) -> bool
        ensures { IsTrue result ↔ HasRoom self.now.state }
    {
        self.database.has_room()
    }

    /// How many ids the constraints of the file took: the count that stands behind `f` in a proof.
    pub fn problem_ids(&self) -> u64
        ensures { result ≡ problem_ids self.now.problem.constraints }
    {
        self.problem_ids
    }
}
