//! The lines of a subproof: the goal that `proofgoal` names, and what may stand behind `end`.
//!
//! A goal is one word: an id, `#1` or `#2`. An id behind `end` is a hint for other checkers, and counts for nothing; it is
//! an integer in an integer's place all the same, so its size is judged.

ghost use Rattle.std.specs.Prelude.{◌≡◌, [], ◌∷◌, true, Some, is_some, IfOk, IfErr, OnOk};
ghost use Rattle.proof_text.specs.Words.{AreSmall};
ghost use Rattle.proof_text.specs.Steps as steps;
ghost use Rattle.proof_text.specs.PartsDenied.{Denies};

use super::fault::{ProofFault, Reading};
use super::line_words::LineWords;
use super::values::number;
use pb_text::{Kind, Token};
use proof_steps::GoalName;

/// The goal that a word names.
fn goal_named(token: Token<'_>) -> Reading<GoalName>
    ensures goal { IfOk result (λ goal. steps.goal_named token.entry.text.now ≡ Some goal) }
    ensures small { OnOk result (AreSmall (token.entry.text.now ∷ [])) }
    ensures denies { IfErr result (λ f. Denies f (is_some (steps.goal_named token.entry.text.now)) (token.entry.text.now ∷ [])) }
{
    if let Kind::Integer = token.kind {
        return Ok(GoalName::Live(number(token)?));
    }
    if token.text == b"#1".as_slice() {
        return Ok(GoalName::Itself);
    }
    if token.text == b"#2".as_slice() {
        return Ok(GoalName::Objective);
    }
    Err(ProofFault::BadLine)
}

/// The goal that the words of a line name.
pub(crate) fn goal(mut words: LineWords<'_>) -> Reading<GoalName>
    ensures goal { IfOk result (λ goal. steps.goal_of words.entry ≡ Some goal) }
    ensures small { OnOk result (AreSmall words.entry) }
    ensures denies { IfErr result (λ f. Denies f (is_some (steps.goal_of words.entry)) words.entry) }
{
    let Some(token) = words.take() else {
        return Err(ProofFault::BadLine);
    };
    let goal = goal_named(token)?;
    if words.is_empty() {
        Ok(goal)
    } else {
        Err(ProofFault::BadLine)
    }
}

/// No word, or an id, which counts for nothing.
pub(crate) fn closing(mut words: LineWords<'_>) -> Reading<()>
    ensures form { OnOk result (steps.is_closing words.entry ≡ true) }
    ensures small { OnOk result (AreSmall words.entry) }
    ensures denies { IfErr result (λ f. Denies f (steps.is_closing words.entry) words.entry) }
{
    let Some(token) = words.take() else {
        return Ok(());
    };
    number(token)?;
    if words.is_empty() {
        Ok(())
    } else {
        Err(ProofFault::BadLine)
    }
}
