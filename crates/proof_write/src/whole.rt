//! The text of a whole proof: the header, the count of the file's constraints, a line for each step, and the lines behind.
//!
//! A solver writes its proof into memory and has it checked before it answers. What it may count on is the law here: the
//! text spells just the steps and the conclusion that it was made of, so whoever reads it judges what was logged.

ghost use Rattle.std.specs.Prelude.{◌≡◌, ◌++◌, length, All, pos, OnOk, OnErr, IfOk};
ghost use Rattle.std.specs.List.{flat_map};
ghost use Rattle.proof_text.specs.ProofSpells.{SpellsProof};
ghost use Rattle.proof_text.specs.Sections.{AreNested};
ghost use Rattle.proof_text.specs.Steps.{IsProper};
ghost use Rattle.proof_text.specs.Writable.{IsConclusionWritable, IsStepWritable};
ghost use Rattle.proof_write.specs.Growth.{Extends};
ghost use Rattle.proof_write.specs.Whole.{first_lines, step_line, whole_text};

use super::write::{begin, end_lines, step_text};
use super::writer::number;
use linear::Names;
use proof_steps::{Conclusion, Step};
use proof_text::Section;
use std::alloc::{AllocError, Global};

/// The header and the count.
fn first(out: &mut Vec<u8>, count: u64) -> Result<(), AllocError>
    ensures ok { OnOk result (out.new.items ≡ out.old.items ++ first_lines count) }
    ensures grows { Extends out.old.items out.new.items }
{
    begin(out, b"pseudo-Boolean proof version 2.0\n")?;
    begin(out, b"f")?;
    number(out, i128::from(count))?;
    begin(out, b"\n")
}

/// Writes the first two lines of a proof: the header, and the line `f` and how many constraints the file has. Where a growth
/// is refused, nothing is written.
pub fn write_start(count: u64, out: &mut Vec<u8>) -> Result<(), AllocError>
    ensures lines { OnOk result (out.new.items ≡ out.old.items ++ first_lines count) }
    ensures err { OnErr result (out.new.items ≡ out.old.items) }
{
    let before = out.len();
    match first(out, count) {
        Ok(()) => Ok(()),
        Err(refused) => {
            out.truncate(before);
            Err(refused)
        }
    }
}

/// A line for each step.
fn step_lines(out: &mut Vec<u8>, names: &Names, steps: &[Step]) -> Result<(), AllocError>
    requires { All (IsStepWritable (length names.now)) steps.now }
    ensures ok { OnOk result (out.new.items ≡ out.old.items ++ flat_map (step_line names.now) steps.now) }
    ensures proper { OnOk result (All IsProper steps.now) }
    ensures grows { Extends out.old.items out.new.items }
{
    for step in steps {
        step_text(step, names, out)?;
    }
    Ok(())
}

/// The text of a whole proof: the header, the line `f` and how many constraints the file has, each step as by `write_step`,
/// and what `write_end` writes. It spells just these steps and this conclusion, of a file with these names.
///
/// The integers of steps and conclusion are at most 2^120 in size, their variables stand in the table, and each relation is
/// `>=`. The steps are well nested: each stands where it may, and every block is closed. Running out of memory is the only error.
pub fn write_proof(
    alloc: Global,
    names: &Names,
    count: u64,
    steps: &[Step],
    conclusion: &Conclusion,
) -> Result<Vec<u8>, AllocError>
    requires steps { All (IsStepWritable (length names.now)) steps.now }
    requires nested { AreNested Section.Step steps.now }
    requires conclusion { IsConclusionWritable (length names.now) conclusion.now }
    ensures text { IfOk result (λ text. text.items ≡ whole_text names.now count steps.now conclusion.now) }
    ensures spells { IfOk result (λ text. SpellsProof text.items names.now (pos count) steps.now conclusion.now) }
{
    let mut out = Vec::new(alloc);
    first(&mut out, count)?;
    step_lines(&mut out, names, steps)?;
    end_lines(conclusion, names, &mut out)?;
    Ok(out)
}
