//! What follows from the live constraints by propagation, lent to whoever writes a proof.
//!
//! No step is judged by these calls, and none changes the kernel. A solver that keeps its proof's steps in a kernel needs
//! no second copy of the constraints, and what it derives from these answers is derived from just the constraints that
//! its next step is judged by.

ghost use Rattle.std.specs.Prelude.{◌≡◌, IfOk};
ghost use Rattle.std.specs.FinMap as map;
ghost use Rattle.std.specs.Option.{option_copied};

use super::kernel::Kernel;
use normal_form::Normal;
use propagate::{Id, Propagator, Question};
use std::alloc::AllocError;

impl<'a, P: Propagator> Kernel<'a, P> {
    /// The live constraint of an id, if there is one.
    pub fn constraint(&self, id: Id) -> Option<&Normal>
        ensures { option_copied result ≡ map.get self.now.state.live id }
    {
        self.database.find(i128::from(id))
    }

    /// What follows from the live constraints by propagation, whatever is asked.
    pub fn ask<Q: Question>(&mut self, question: Q) -> Result<Q::Answer, AllocError>
        requires { Q.may_ask question }
        ensures same { self.new ≡ self.old }
        ensures answer { IfOk result (Q.answers question self.old.state.live) }
    {
        self.database.ask(question)
    }
}
