//! Steps, rule by rule: what stands behind the word of a rule.
//!
//! All rules have one contract: what the words say is the step, the names of its literals are met in order, and each fault says of
//! the words what it should. A new rule is one more arm, and a function of its own where it is more than one list.

ghost use Rattle.std.specs.Prelude.{◌≡◌, false, IfOk, IfErr};
ghost use Rattle.pb_text.specs.TokensOf.{texts_of};
ghost use Rattle.proof_text.specs.Steps as steps;
ghost use Rattle.proof_text.specs.StepsRead.{IsStepRead};
ghost use Rattle.proof_text.specs.PartsDenied.{DeniesRule};

use super::before_semicolon::BeforeSemicolon;
use super::constraint::constraint;
use super::fault::{ProofFault, Reading};
use super::goal::{closing, goal};
use super::keyword::Rule;
use super::line_names::LineNames;
use super::line_words::LineWords;
use super::pol::items;
use super::values::{lits, numbers};
use super::witness::{begins_block, images, unless_twice};
use linear::Signed;
use pb_text::Tokens;
use proof_steps::Step;
use std::alloc::Global;
use substitution::Substitution;

/// A step of redundance, with or without a block.
fn red_step(constraint: Signed, witness: Substitution, block: bool) -> Step
    ensures { result ≡ steps.red_step constraint witness block }
{
    if block {
        Step::RedBegin(constraint, witness)
    } else {
        Step::Red(constraint, witness)
    }
}

/// `red`: a constraint, `;`, a substitution, and perhaps `;` and `begin`.
fn red(alloc: Global, words: Tokens<'_>, table: &mut LineNames<'_>) -> Reading<Step>
    requires { table.old.full ≡ false }
    ensures read { IfOk result (λ s. IsStepRead Rule.Red table.old (texts_of words.entry) s table.new) }
    ensures kept { table.new.before ≡ table.old.before }
    ensures denies { IfErr result (λ f. DeniesRule f Rule.Red table.old.names (texts_of words.entry)) }
{
    let (constraint, behind) = constraint(alloc, BeforeSemicolon::new(words), table)?;
    let mut words = BeforeSemicolon::new(behind);
    let witness = images(alloc, &mut words, table)?;
    let block = begins_block(words)?;
    if table.is_full() {
        return Err(unless_twice(&witness, ProofFault::TooManyIds));
    }
    match Substitution::new(alloc, witness.images)? {
        Some(witness) => {
            // That no variable stands twice is known by the type; this makes it known here.
            witness.reveal();
            Ok(red_step(constraint, witness, block))
        }
        None => Err(ProofFault::BadLine),
    }
}

/// `del`: `id`, and ids.
fn del(alloc: Global, mut words: Tokens<'_>, table: &mut LineNames<'_>) -> Reading<Step>
    ensures read { IfOk result (λ s. IsStepRead Rule.Del table.old (texts_of words.entry) s table.new) }
    ensures kept { table.new.before ≡ table.old.before }
    ensures denies { IfErr result (λ f. DeniesRule f Rule.Del table.old.names (texts_of words.entry)) }
{
    let Some(token) = words.next() else {
        return Err(ProofFault::BadLine);
    };
    if token.text == b"id".as_slice() {
        let ids = numbers(alloc, LineWords::new(words))?;
        return Ok(Step::Del(ids));
    }
    if token.text == b"range".as_slice() || token.text == b"spec".as_slice() {
        return Err(ProofFault::RuleLeftOut);
    }
    Err(ProofFault::BadLine)
}

/// The step that words say behind the word of its rule.
pub(crate) fn step(
    alloc: Global,
    rule: Rule,
    words: Tokens<'_>,
    table: &mut LineNames<'_>,
) -> Reading<Step>
    requires { table.old.full ≡ false }
    ensures read { IfOk result (λ s. IsStepRead rule table.old (texts_of words.entry) s table.new) }
    ensures kept { table.new.before ≡ table.old.before }
    ensures denies { IfErr result (λ f. DeniesRule f rule table.old.names (texts_of words.entry)) }
{
    match rule {
        Rule::Pol => Ok(Step::Pol(items(alloc, LineWords::new(words), table)?)),
        Rule::Rup => {
            let (constraint, _hints) = constraint(alloc, BeforeSemicolon::new(words), table)?;
            Ok(Step::Rup(constraint))
        }
        Rule::Red => red(alloc, words, table),
        Rule::Sol => Ok(Step::Sol(lits(alloc, LineWords::new(words), table)?)),
        Rule::Soli => Ok(Step::Soli(lits(alloc, LineWords::new(words), table)?)),
        Rule::Del => del(alloc, words, table),
        Rule::Goal => Ok(Step::Goal(goal(LineWords::new(words))?)),
        Rule::End => {
            closing(LineWords::new(words))?;
            Ok(Step::End)
        }
    }
}
