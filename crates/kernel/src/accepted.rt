//! What the kernel hands out where it accepts a conclusion.

ghost use Rattle.std.specs.Prelude.{◌≡◌};
ghost use Rattle.std.specs.Option.{option_copied};

use linear::Assignment;
use proof_steps::Conclusion;
use std::marker::Model;

/// An accepted conclusion, and the best solution that was logged: that of least value, the earliest among equals.
/// Only the kernel makes one.
#[derive(Debug, Drop)]
pub struct Accepted {
    conclusion: Conclusion,
    best: Option<Assignment>,
}

impl Model for Accepted {
    ghost use Rattle.kernel.specs.Accepted.{Judgement};

    ghost Value = { Judgement };

    ghost view = { λ a. record { conclusion = a.conclusion; best = a.best } };
}

impl Accepted {
    pub(crate) fn new(conclusion: Conclusion, best: Option<Assignment>) -> Self
        ensures { result ≡ record { conclusion = conclusion; best = best } }
    {
        Accepted { conclusion, best }
    }

    /// The conclusion that was accepted.
    pub fn conclusion(&self) -> &Conclusion
        ensures { result.now ≡ self.now.conclusion }
    {
        &self.conclusion
    }

    /// The best logged solution, none where nothing was logged.
    pub fn best(&self) -> Option<&Assignment>
        ensures { option_copied result ≡ self.now.best }
    {
        self.best.as_ref()
    }
}
