//! What a line says at its section.
//!
//! The first word of a line is cut here, since it says what line it is; the rest is cut by whoever reads it. The section decides
//! which faults there are. Among the steps a rule may be unknown or left out; at the conclusion no rule is due, so that whatever
//! stands there is a bad line; the header, the count and the text behind the end have one fault each.

ghost use Rattle.std.specs.Prelude.{◌≡◌, ◌⊎◌, ℕ, List, ◌∷◌, Some, false, not, length, IfOk, IfErr, OnOk, OnErr};
ghost use Rattle.pb_text.specs.TokensOf.{texts_of};
ghost use Rattle.proof_text.specs.Rules as rules;
ghost use Rattle.proof_text.specs.Words.{words, begins_integer};
ghost use Rattle.proof_text.specs.Steps.{IsStep};
ghost use Rattle.proof_text.specs.Spells as spells;
ghost use Rattle.proof_text.specs.Spells.{IsLine};
ghost use Rattle.proof_text.specs.Faults.{DeniesStep, DeniesLine};
ghost use Rattle.proof_text.specs.PartsDenied.{DeniesStepAt};
ghost use Rattle.proof_text.specs.Writable.{IsStepWritable, IsLineWritable};

use super::fault::{ProofFault, Reading};
use super::frame::{count, is_end, is_header, output};
use super::keyword::{Rule, rule_of};
use super::line::{Line, Section};
use super::line_words::LineWords;
use super::places::may_stand;
use super::proof_names::ProofNames;
use super::refusal::rule_fault;
use pb_text::{Kind, Token, Tokens};
use proof_steps::Step;
use std::alloc::Global;

/// The step that a word and those behind it say, its new names added; `read_step` says which fault comes where.
fn step_of_words(
    alloc: Global,
    first: Token<'_>,
    behind: Tokens<'_>,
    names: &mut ProofNames<'_>,
) -> Reading<Step>
    ensures step { IfOk result (λ s. IsStep names.old (first.entry.text.now ∷ texts_of behind.entry) s names.new) }
    ensures err { OnErr result (names.new ≡ names.old) }
    ensures denies { IfErr result (λ f. DeniesStep f names.old (first.entry.text.now ∷ texts_of behind.entry)) }
{
    match rule_of(first.text) {
        Some(rule) => names.step_of_rule(alloc, rule, behind),
        None => Err(rule_fault(first)),
    }
}

/// The step that a line says, wherever in a proof it may stand. Names that the table does not have are added in order; a refused line adds none.
///
/// All integers are at most 2^120 in size, so the step can be written again. What stands behind the `;` of `rup` is passed
/// over.
///
/// `UnknownRule`, `RuleLeftOut` and `BadLine` come only where the line says no step, `IntegerTooLarge` only where an
/// integer is too large, `TooManyIds` only where the line is well formed and the table would have more than 2^32 names.
#[tactic(auto, unfolding(crate::specs::Words::words))]
pub fn read_step(alloc: Global, line: &[u8], names: &mut ProofNames<'_>) -> Result<Step, ProofFault>
    ensures step { IfOk result (λ s. IsStep names.old (words line.now) s names.new) }
    ensures writable { IfOk result (λ s. IsStepWritable (length names.new) s) }
    ensures err { OnErr result (names.new ≡ names.old) }
    ensures denies { IfErr result (λ f. DeniesStep f names.old (words line.now)) }
{
    let mut words = Tokens::new(line);
    let Some(first) = words.next() else {
        return Err(ProofFault::BadLine);
    };
    step_of_words(alloc, first, words, names)
}

/// Whether no step of a rule may stand at a section, where these words stand behind the rule's own.
fn is_misplaced(rule: Rule, section: Section, behind: &Tokens<'_>) -> bool
    ensures { result ≡ not (spells.may_stand rule section (begins_integer (texts_of behind.now))) }
{
    // Of all rules `end` alone stands at one section with an id behind it, and at another without.
    let Rule::End = rule else {
        return !may_stand(rule, section, false);
    };
    let numbered = match behind.peek() {
        Some(found) => matches!(found.token.kind, Kind::Integer),
        None => false,
    };
    !may_stand(rule, section, numbered)
}

/// A step at a section of steps. A step in a wrong place is a bad line, whatever stands behind its first word.
fn step_at_section(
    alloc: Global,
    section: Section,
    first: Token<'_>,
    behind: Tokens<'_>,
    names: &mut ProofNames<'_>,
) -> Reading<Step>
    ensures step { IfOk result (λ s. IsStep names.old (first.entry.text.now ∷ texts_of behind.entry) s names.new) }
    ensures placed { OnOk result (spells.is_misplaced section (first.entry.text.now ∷ texts_of behind.entry) ≡ false) }
    ensures err { OnErr result (names.new ≡ names.old) }
    ensures denies { IfErr result (λ f. DeniesStepAt f section names.old (first.entry.text.now ∷ texts_of behind.entry)) }
{
    let Some(rule) = rule_of(first.text) else {
        return Err(rule_fault(first));
    };
    if is_misplaced(rule, section, &behind) {
        return Err(ProofFault::BadLine);
    }
    names.step_of_rule(alloc, rule, behind)
}

/// A step in a block or in a goal of one.
fn step_inside(
    alloc: Global,
    section: Section,
    mut words: Tokens<'_>,
    names: &mut ProofNames<'_>,
) -> Reading<Line>
    requires { (section ≡ Section.Block) ⊎ (section ≡ Section.Goal) }
    ensures line { IfOk result (λ l. IsLine section names.old (texts_of words.entry) l names.new) }
    ensures err { OnErr result (names.new ≡ names.old) }
    ensures denies { IfErr result (λ f. DeniesLine f section names.old (texts_of words.entry)) }
{
    let Some(first) = words.next() else {
        return Err(ProofFault::BadLine);
    };
    let step = step_at_section(alloc, section, first, words, names)?;
    Ok(Line::Step(step))
}

/// A step, or the output line behind the steps.
fn step_or_output(alloc: Global, words: Tokens<'_>, names: &mut ProofNames<'_>) -> Reading<Line>
    ensures line { IfOk result (λ l. IsLine Section.Step names.old (texts_of words.entry) l names.new) }
    ensures err { OnErr result (names.new ≡ names.old) }
    ensures denies { IfErr result (λ f. DeniesLine f Section.Step names.old (texts_of words.entry)) }
{
    // That the names so far can be numbered is known by their table's type; this makes it known here.
    names.reveal();
    let Some(found) = words.peek() else {
        return Err(ProofFault::BadLine);
    };
    if found.token.text == b"output".as_slice() {
        output(LineWords::new(words))?;
        return Ok(Line::Output);
    }
    let step = step_at_section(alloc, Section::Step, found.token, found.behind, names)?;
    Ok(Line::Step(step))
}

#[tactic(auto, unfolding(crate::specs::Faults::DeniesLine, crate::specs::Words::words))]
/// What a line says at its section. Names that the table does not have are added in order; a refused line adds none.
/// A step or a conclusion can be written again.
///
/// The fault is `BadHeader` at the header, `BadCount` at the count (also for an integer above 2^120 in size),
/// `TextAfterEnd` behind the end line, whatever the line is, and `BadLine` at the end. Among the steps and at the
/// conclusion the faults are those of `read_step`; a step in a wrong place, as `sol` in a block, or `proofgoal` and `end`
/// outside one, is a `BadLine`. At the conclusion no rule is due, so `UnknownRule` and `RuleLeftOut` do not come.
pub fn read_line(
    alloc: Global,
    section: Section,
    line: &[u8],
    names: &mut ProofNames<'_>,
) -> Result<Line, ProofFault>
    ensures line { IfOk result (λ l. IsLine section names.old (words line.now) l names.new) }
    ensures writable { IfOk result (λ l. IsLineWritable (length names.new) l) }
    ensures err { OnErr result (names.new ≡ names.old) }
    ensures denies { IfErr result (λ f. DeniesLine f section names.old (words line.now)) }
{
    // That the names so far can be numbered is known by their table's type; this makes it known here.
    names.reveal();
    let words = Tokens::new(line);
    match section {
        Section::Header => {
            if is_header(LineWords::new(words)) {
                Ok(Line::Header)
            } else {
                Err(ProofFault::BadHeader)
            }
        }
        Section::Count => match count(LineWords::new(words)) {
            Some(number) => Ok(Line::Count(number)),
            None => Err(ProofFault::BadCount),
        },
        Section::Step => step_or_output(alloc, words, names),
        Section::Block | Section::Goal => step_inside(alloc, section, words, names),
        Section::Conclusion => names.conclusion_line(alloc, words),
        Section::End => {
            if is_end(LineWords::new(words)) {
                Ok(Line::End)
            } else {
                Err(ProofFault::BadLine)
            }
        }
        Section::After => Err(ProofFault::TextAfterEnd),
    }
}
