//! Why a step or a conclusion is refused.

use normal_form::CutFault;
use std::alloc::{AllocError, AllocFailed};
use thiserror::Error;

/// Why the kernel refuses a step or a conclusion. Each has a number that programs print.
#[derive(Clone, Copy, Debug, PartialEq, Eq, Error)]
pub enum StepFault {
    /// An id is 0, was never given, or is deleted.
    #[error("dead id")]
    DeadId,
    /// An operation finds too few constraints, or not exactly one is left.
    #[error("stack shape")]
    StackShape,
    /// A factor is below 1.
    #[error("bad factor")]
    BadFactor,
    /// A result, or a written constraint, is not within the limits.
    #[error("too large")]
    TooLarge,
    /// The constraint of a `rup` is not shown.
    #[error("not shown")]
    NotShown,
    /// The live constraint of this id under the substitution is not shown.
    #[error("goal open")]
    GoalOpen(u32),
    /// The new constraint under the substitution is not shown.
    #[error("goal open: the new constraint")]
    GoalOpenSelf,
    /// The objective may grow under the substitution.
    #[error("goal open: the objective")]
    GoalOpenObjective,
    /// The listed solution breaks a constraint of the file.
    #[error("solution false")]
    SolutionFalse,
    /// After propagation a variable of the file is unset.
    #[error("solution partial")]
    SolutionPartial,
    /// The assignment holds a literal and its opposite, or its completion meets a conflict.
    #[error("solution conflict")]
    SolutionConflict,
    /// The value of an improving solution is not below the least one so far.
    #[error("not improving")]
    NotImproving,
    /// The file has no objective.
    #[error("no objective")]
    NoObjective,
    /// Not given: every live constraint may be deleted. The code was that of a constraint of the file, or of one that an
    /// improving solution added, as long as these could not, and stands for nothing else.
    #[error("file constraint")]
    FileConstraint,
    /// The lower bound, or `0 >= 1`, is not shown.
    #[error("lower not shown")]
    LowerNotShown,
    /// The lower bound is above the least value.
    #[error("lower above best")]
    LowerAboveBest,
    /// No logged solution is worth as little as the upper bound, or none was logged.
    #[error("upper not logged")]
    UpperNotLogged,
    /// `UNSAT` is concluded, or the lower bound `INF`, after a solution was logged.
    #[error("solution logged")]
    SolutionLogged,
    /// A growth was refused.
    #[error("out of memory")]
    OutOfMemory,
    /// The next id would be 2^32.
    #[error("too many ids")]
    TooManyIds,
    /// A block is open where the step or the conclusion has to stand outside, or another goal is open.
    #[error("block open")]
    BlockOpen,
    /// No block is open.
    #[error("no block")]
    NoBlock,
    /// No goal of this name may be opened: none is asked for, or it was opened before.
    #[error("goal unknown")]
    GoalUnknown,
    /// `0 >= 1` is not shown at the end of a goal.
    #[error("goal not closed")]
    GoalNotClosed,
}

impl StepFault {
    ghost use Rattle.std.specs.Prelude.{◌≡◌};
    ghost use Rattle.proof_rules.specs.Printed.{number_of, name_of};

    /// The number that stands for the fault in printed verdicts.
    pub fn number(self) -> u8
        ensures { result ≡ number_of self }
    {
        match self {
            StepFault::DeadId => 10,
            StepFault::StackShape => 11,
            StepFault::BadFactor => 12,
            StepFault::TooLarge => 13,
            StepFault::NotShown => 14,
            StepFault::GoalOpen(_) => 15,
            StepFault::GoalOpenSelf => 16,
            StepFault::GoalOpenObjective => 17,
            StepFault::SolutionFalse => 18,
            StepFault::SolutionPartial => 19,
            StepFault::SolutionConflict => 20,
            StepFault::NotImproving => 21,
            StepFault::NoObjective => 22,
            StepFault::FileConstraint => 23,
            StepFault::LowerNotShown => 24,
            StepFault::LowerAboveBest => 25,
            StepFault::UpperNotLogged => 26,
            StepFault::SolutionLogged => 27,
            StepFault::OutOfMemory => 28,
            StepFault::TooManyIds => 29,
            StepFault::BlockOpen => 30,
            StepFault::NoBlock => 31,
            StepFault::GoalUnknown => 32,
            StepFault::GoalNotClosed => 33,
        }
    }

    /// The name that stands beside the number.
    pub fn name(self) -> &'static str
        ensures { result.now ≡ name_of self }
    {
        match self {
            StepFault::DeadId => "DeadId",
            StepFault::StackShape => "StackShape",
            StepFault::BadFactor => "BadFactor",
            StepFault::TooLarge => "TooLarge",
            StepFault::NotShown => "NotShown",
            StepFault::GoalOpen(_) => "GoalOpen",
            StepFault::GoalOpenSelf => "GoalOpenSelf",
            StepFault::GoalOpenObjective => "GoalOpenObjective",
            StepFault::SolutionFalse => "SolutionFalse",
            StepFault::SolutionPartial => "SolutionPartial",
            StepFault::SolutionConflict => "SolutionConflict",
            StepFault::NotImproving => "NotImproving",
            StepFault::NoObjective => "NoObjective",
            StepFault::FileConstraint => "FileConstraint",
            StepFault::LowerNotShown => "LowerNotShown",
            StepFault::LowerAboveBest => "LowerAboveBest",
            StepFault::UpperNotLogged => "UpperNotLogged",
            StepFault::SolutionLogged => "SolutionLogged",
            StepFault::OutOfMemory => "OutOfMemory",
            StepFault::TooManyIds => "TooManyIds",
            StepFault::BlockOpen => "BlockOpen",
            StepFault::NoBlock => "NoBlock",
            StepFault::GoalUnknown => "GoalUnknown",
            StepFault::GoalNotClosed => "GoalNotClosed",
        }
    }
}

impl From<AllocError> for StepFault {
    ghost use Rattle.std.specs.Prelude.{◌≡◌};
    ghost use Rattle.proof_rules.specs.declared.fault.StepFault.TheVariants.{OutOfMemory};

    ghost from_gives = { λ _ e. e ≡ OutOfMemory };

    fn from(_e: AllocError) -> StepFault {
        StepFault::OutOfMemory
    }
}

impl<T: Drop> From<AllocFailed<T>> for StepFault {
    ghost use Rattle.std.specs.Prelude.{◌≡◌};
    ghost use Rattle.proof_rules.specs.declared.fault.StepFault.TheVariants.{OutOfMemory};

    ghost from_gives = { λ _ e. e ≡ OutOfMemory };

    fn from(_e: AllocFailed<T>) -> StepFault {
        StepFault::OutOfMemory
    }
}

impl From<CutFault> for StepFault {
    ghost use Rattle.std.specs.Prelude.{◌≡◌};
    ghost use Rattle.proof_rules.specs.RuleFault.{of_rule};

    ghost from_gives = { λ cut step. step ≡ of_rule cut };

    fn from(cut: CutFault) -> StepFault {
        match cut {
            CutFault::TooLarge => StepFault::TooLarge,
            CutFault::BadFactor => StepFault::BadFactor,
            CutFault::OutOfMemory => StepFault::OutOfMemory,
        }
    }
}
