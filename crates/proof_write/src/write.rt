//! Written proofs: a line for each step, and the lines behind the steps. What is written reads back as it was.
//!
//! A writer that fails in the middle of a line would leave a text that a later append turns into nonsense, so a refused growth
//! takes the line out again.

ghost use Rattle.std.specs.Prelude.{◌≡◌, [], ◌∷◌, ◌++◌, All, length, codes, OnOk, OnErr};
ghost use Rattle.substitution.specs.Images.{NamesOnce};
ghost use Rattle.linear.specs.Table.{IsTable};
ghost use Rattle.proof_write.specs.Growth.{Extends};
ghost use Rattle.proof_text.specs.Steps.{IsProper};
ghost use Rattle.proof_write.specs.Writing as writing;
ghost use Rattle.proof_text.specs.Writable as writable;
ghost use Rattle.proof_write.specs.Writing.{IsStepWritten, IsEndWritten};

use super::writer::{items, literals, number, numbers, pairs, terms, word};
use linear::{Lit, Names, Seq, Signed};
use proof_steps::{Conclusion, GoalName, Lower, Step, Upper};
use std::alloc::AllocError;
use substitution::Substitution;

/// The first word of a line, or a whole one.
pub(crate) fn begin(out: &mut Vec<u8>, word: &[u8]) -> Result<(), AllocError>
    ensures ok { OnOk result (out.new.items ≡ out.old.items ++ word.now) }
    ensures grows { Extends out.old.items out.new.items }
{
    out.extend_from_slice(word)
}

#[tactic(auto, using(crate::proofs::WordsAppended::more_words))]
/// A constraint and the `;` behind it.
fn constraint(out: &mut Vec<u8>, names: &Names, constraint: &Signed) -> Result<(), AllocError>
    requires { writable.IsConstraintWritable (length names.now) constraint.now }
    ensures ok { OnOk result (out.new.items ≡ out.old.items ++ writing.spaced (writing.constraint_words names.now constraint.now)) }
    ensures grows { Extends out.old.items out.new.items }
{
    terms(out, names, constraint.terms.as_slice())?;
    word(out, b">=")?;
    number(out, constraint.right)?;
    word(out, b";")
}

/// `red`, a constraint and a substitution.
fn red(
    out: &mut Vec<u8>,
    names: &Names,
    written: &Signed,
    witness: &Substitution,
) -> Result<(), AllocError>
    requires constraint { writable.IsConstraintWritable (length names.now) written.now }
    requires witness { All (writable.IsPairWritable (length names.now)) witness.now }
    ensures ok { OnOk result (out.new.items ≡ out.old.items ++ writing.line_text (codes "red" ∷ writing.red_words names.now written.now witness.now)) }
    ensures once { OnOk result (NamesOnce witness.now) }
    ensures grows { Extends out.old.items out.new.items }
{
    begin(out, b"red")?;
    constraint(out, names, written)?;
    pairs(out, names, witness.as_slice())
}

/// The word of a goal.
fn goal(out: &mut Vec<u8>, name: GoalName) -> Result<(), AllocError>
    ensures ok { OnOk result (out.new.items ≡ out.old.items ++ writing.spaced (writing.goal_word name ∷ [])) }
    ensures grows { Extends out.old.items out.new.items }
{
    match name {
        GoalName::Live(id) => number(out, id),
        GoalName::Itself => word(out, b"#1"),
        GoalName::Objective => word(out, b"#2"),
    }
}

/// The words of a step.
fn step_words(out: &mut Vec<u8>, names: &Names, step: &Step) -> Result<(), AllocError>
    requires { writable.IsStepWritable (length names.now) step.now }
    ensures ok { OnOk result (out.new.items ≡ out.old.items ++ writing.line_text (writing.step_words names.now step.now)) }
    ensures proper { OnOk result (IsProper step.now) }
    ensures grows { Extends out.old.items out.new.items }
{
    match step {
        Step::Pol(expression) => {
            begin(out, b"pol")?;
            items(out, names, expression.as_slice())
        }
        Step::Rup(written) => {
            begin(out, b"rup")?;
            constraint(out, names, written)
        }
        Step::Red(written, witness) => red(out, names, written, witness),
        Step::Sol(lits) => {
            begin(out, b"sol")?;
            literals(out, names, lits.as_slice())
        }
        Step::Soli(lits) => {
            begin(out, b"soli")?;
            literals(out, names, lits.as_slice())
        }
        Step::Del(ids) => {
            begin(out, b"del")?;
            word(out, b"id")?;
            numbers(out, ids.as_slice())
        }
        Step::RedBegin(written, witness) => {
            red(out, names, written, witness)?;
            word(out, b";")?;
            word(out, b"begin")
        }
        Step::Goal(name) => {
            begin(out, b"proofgoal")?;
            goal(out, *name)
        }
        Step::End => begin(out, b"end"),
    }
}

/// Writes a step as one line with its LF: its words, single spaces between them, integers in plain decimal without `+`.
///
/// `pol`, `sol` and `soli` stand before their items and literals, `del id` before the ids as they stand in the step; `rup`
/// and `red` before the terms, `>=`, the right side and `;`, behind which `red` has its names, each with `->` and its image. Behind
/// those stand `;` and `begin` where a block begins; `proofgoal` stands before its goal, and `end` alone.
///
/// The step's integers are at most 2^120 in size, its relation is `>=`, and the table has its variables, as is so of every
/// step that was read by the table; then the line reads back as the step and brings no name. Where a growth is refused,
/// nothing is written.
pub fn write_step(step: &Step, names: &Names, out: &mut Vec<u8>) -> Result<(), AllocError>
    requires { writable.IsStepWritable (length names.now) step.now }
    ensures line { OnOk result (IsStepWritten names.now out.old.items step.now out.new.items) }
    ensures err { OnErr result (out.new.items ≡ out.old.items) }
{
    let before = out.len();
    match step_text(step, names, out) {
        Ok(()) => Ok(()),
        Err(refused) => {
            out.truncate(before);
            Err(refused)
        }
    }
}

/// A step's line and its LF.
pub(crate) fn step_text(step: &Step, names: &Names, out: &mut Vec<u8>) -> Result<(), AllocError>
    requires { writable.IsStepWritable (length names.now) step.now }
    ensures ok { OnOk result (out.new.items ≡ out.old.items ++ writing.line_text (writing.step_words names.now step.now) ++ 10 ∷ []) }
    ensures proper { OnOk result (IsProper step.now) }
    ensures table { OnOk result (IsTable names.now) }
    ensures grows { Extends out.old.items out.new.items }
{
    // That no name stands twice in the table is known by its type; this makes it known here.
    names.reveal();
    step_words(out, names, step)?;
    out.push(b'\n')?;
    Ok(())
}

/// A hint of literals, if there is one.
fn hint(out: &mut Vec<u8>, names: &Names, hint: &Option<Seq<Lit>>) -> Result<(), AllocError>
    requires { writable.IsHintWritable (length names.now) hint.now }
    ensures ok { OnOk result (out.new.items ≡ out.old.items ++ writing.spaced (writing.hint_words names.now hint.now)) }
    ensures grows { Extends out.old.items out.new.items }
{
    match hint {
        None => Ok(()),
        Some(lits) => {
            word(out, b":")?;
            literals(out, names, lits.as_slice())
        }
    }
}

/// A lower bound.
fn lower(out: &mut Vec<u8>, bound: Lower) -> Result<(), AllocError>
    ensures ok { OnOk result (out.new.items ≡ out.old.items ++ writing.spaced (writing.lower_word bound ∷ [])) }
    ensures grows { Extends out.old.items out.new.items }
{
    match bound {
        Lower::MinusInf => word(out, b"-INF"),
        Lower::At(value) => number(out, value),
        Lower::Inf => word(out, b"INF"),
    }
}

/// An upper bound.
fn upper(out: &mut Vec<u8>, bound: Upper) -> Result<(), AllocError>
    ensures ok { OnOk result (out.new.items ≡ out.old.items ++ writing.spaced (writing.upper_word bound ∷ [])) }
    ensures grows { Extends out.old.items out.new.items }
{
    match bound {
        Upper::At(value) => number(out, value),
        Upper::Inf => word(out, b"INF"),
    }
}

/// The words of a conclusion behind the first.
#[tactic(auto, using(crate::proofs::WordsAppended::more_words))]
fn conclusion_words(
    out: &mut Vec<u8>,
    names: &Names,
    conclusion: &Conclusion,
) -> Result<(), AllocError>
    requires { writable.IsConclusionWritable (length names.now) conclusion.now }
    ensures ok { OnOk result (out.new.items ≡ out.old.items ++ writing.spaced (writing.conclusion_words names.now conclusion.now)) }
    ensures grows { Extends out.old.items out.new.items }
{
    match conclusion {
        Conclusion::Nothing => word(out, b"NONE"),
        Conclusion::Sat(lits) => {
            word(out, b"SAT")?;
            hint(out, names, lits)
        }
        Conclusion::Unsat => word(out, b"UNSAT"),
        Conclusion::Bounds(least, most, lits) => {
            word(out, b"BOUNDS")?;
            lower(out, *least)?;
            upper(out, *most)?;
            hint(out, names, lits)
        }
    }
}

/// The lines behind the steps.
pub(crate) fn end_lines(
    conclusion: &Conclusion,
    names: &Names,
    out: &mut Vec<u8>,
) -> Result<(), AllocError>
    requires { writable.IsConclusionWritable (length names.now) conclusion.now }
    ensures ok { OnOk result (out.new.items ≡ out.old.items ++ codes "output NONE\n" ++ codes "conclusion" ++ writing.spaced (writing.conclusion_words names.now conclusion.now) ++ codes "\nend pseudo-Boolean proof\n") }
    ensures table { OnOk result (IsTable names.now) }
    ensures grows { Extends out.old.items out.new.items }
{
    // That no name stands twice in the table is known by its type; this makes it known here.
    names.reveal();
    begin(out, b"output NONE\n")?;
    begin(out, b"conclusion")?;
    conclusion_words(out, names, conclusion)?;
    begin(out, b"\nend pseudo-Boolean proof\n")
}

/// Writes the lines behind the steps: `output NONE`, the conclusion, and `end pseudo-Boolean proof`, each of words with
/// single spaces between them. Behind `conclusion` stands `NONE`, `SAT` or `UNSAT`, or `BOUNDS` and the two bounds, integers
/// in plain decimal without `+`; then, where the conclusion has a hint of literals, `:` and the literals.
///
/// The conclusion's integers are at most 2^120 in size, and the table has its variables, as is so of every conclusion that
/// was read by the table; then its line reads back as the conclusion and brings no name. Where a growth is refused,
/// nothing is written.
pub fn write_end(
    conclusion: &Conclusion,
    names: &Names,
    out: &mut Vec<u8>,
) -> Result<(), AllocError>
    requires { writable.IsConclusionWritable (length names.now) conclusion.now }
    ensures lines { OnOk result (IsEndWritten names.now out.old.items conclusion.now out.new.items) }
    ensures err { OnErr result (out.new.items ≡ out.old.items) }
{
    let before = out.len();
    match end_lines(conclusion, names, out) {
        Ok(()) => Ok(()),
        Err(refused) => {
            out.truncate(before);
            Err(refused)
        }
    }
}
