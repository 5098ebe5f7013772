//! The walk over the lines of a proof: each line that counts is read at the section that is due, judged, and leads to
//! the next position. The first line that leads nowhere decides where judging stops, so nothing is read ahead.
//!
//! Where the lines come from is not known here: whoever has them hands on one after another, so that a text in memory and
//! one that comes in pieces are judged alike.

ghost use Rattle.std.specs.Prelude.{◌≡◌, [], IfOk, IfErr, OnOk, Some, List, length};
ghost use Rattle.proof_lines.specs.Lines.{Numbered};
ghost use Rattle.proof_lines.specs.LinesAhead.{numbered_of};
ghost use Rattle.proof_text.specs.Writable.{IsLineWritable};
ghost use Rattle.checker.specs.Stopped.{IsTruncated};
ghost use Rattle.checker.specs.StopsBy.{StopsBy};
ghost use Rattle.checker.specs.Walk.{IsOver, Reaches};
ghost use Rattle.checker.specs.WalkOf.{position_of, AcceptsOn, AdvancesOn, IsRefusal, IsStopOf, Reads};

use super::afterwards::Afterwards;
use super::stop::{Stop, judging, reading};
use kernel::{Accepted, Kernel};
use linear::Problem;
use proof_lines::NumberedLine;
use proof_steps::{Conclusion, Step};
use proof_text::{Line, ProofFault, ProofNames, Section, read_line};
use propagate::Propagator;
use std::alloc::Global;

/// A walk over a proof, at a position (`specs/Walk`): the section that is due, the names so far, the state of the kernel, and what
/// was concluded.
#[derive(Drop)]
pub(crate) struct Walk<'a, P: Propagator> {
    allocator: Global,
    section: Section,
    names: ProofNames<'a>,
    kernel: Kernel<'a, P>,
    concluded: Option<Accepted>,
}

impl<'a, P: Propagator> Walk<'a, P> {
    /// The position before the first line.
    pub(crate) fn begin(alloc: Global, problem: &'a Problem) -> Result<Self, Stop>
        ensures problem { IfOk result (λ walk. walk.kernel.problem ≡ problem.now) }
        ensures begins { IfOk result (λ walk. Reaches problem.now [] (position_of walk)) }
        ensures memory { IfErr result (λ stop. stop ≡ Stop.NoMemory) }
    {
        let kernel = Kernel::new(alloc, problem)?;
        Ok(Walk {
            allocator: alloc,
            section: Section::Header,
            names: ProofNames::new(alloc, problem.names()),
            kernel,
            concluded: None,
        })
    }

    /// Reads a line and judges what it says.
    pub(crate) fn take(&mut self, line: NumberedLine<'_>) -> Result<(), Stop>
        ensures problem { self.new.kernel.problem ≡ self.old.kernel.problem }
        ensures advances { OnOk result (AdvancesOn (numbered_of line.entry) self.old self.new) }
        ensures stop { IfErr result (IsStopOf (numbered_of line.entry) self.old) }
    {
        let said = self.read(line)?;
        self.accept(&said, line.number)?;
        self.section = self.section.behind(&said);
        Ok(())
    }

    /// What a line says at the section that is due. Behind the end that is nothing, whatever the line is.
    fn read(&mut self, line: NumberedLine<'_>) -> Result<Line, Stop>
        ensures kernel { self.new.kernel ≡ self.old.kernel }
        ensures reads { IfOk result (λ said. Reads (numbered_of line.entry) (position_of self.old) (position_of self.new) said) }
        ensures writable { IfOk result (λ said. IsLineWritable (length self.new.names) said) }
        ensures stop { IfErr result (IsStopOf (numbered_of line.entry) self.old) }
    {
        match read_line(self.allocator, self.section, line.text, &mut self.names) {
            Ok(said) => Ok(said),
            Err(fault) => Err(reading(line.number, fault)),
        }
    }

    /// Judges what the line of this number says.
    fn accept(&mut self, said: &Line, number: u64) -> Result<(), Stop>
        requires writable { IsLineWritable (length self.old.names) said.now }
        ensures problem { self.new.kernel.problem ≡ self.old.kernel.problem }
        ensures section { self.new.section ≡ self.old.section }
        ensures names { self.new.names ≡ self.old.names }
        ensures accepts { OnOk result (AcceptsOn self.old said.now self.new) }
        ensures stop { IfErr result (IsRefusal number self.old said.now) }
    {
        match said {
            Line::Header | Line::Output | Line::End => Ok(()),
            Line::Count(count) => self.take_count(*count, number),
            Line::Step(step) => self.step(step, number),
            Line::Conclusion(conclusion) => self.conclude(conclusion, number),
        }
    }

    /// The count is that of the file's constraints, an equality counted twice. Another one is a fault of the line, as the
    /// same words would be that are no number: the kernel has no part in it.
    fn take_count(&self, count: i128, number: u64) -> Result<(), Stop>
        ensures accepts { OnOk result (AcceptsOn self.now (Line.Count count) self.now) }
        ensures stop { IfErr result (IsRefusal number self.now (Line.Count count)) }
    {
        if count != i128::from(self.kernel.problem_ids()) {
            return Err(reading(number, ProofFault::BadCount));
        }
        Ok(())
    }

    /// Judges a step.
    fn step(&mut self, step: &Step, number: u64) -> Result<(), Stop>
        requires writable { IsLineWritable (length self.old.names) (Line.Step step.now) }
        ensures problem { self.new.kernel.problem ≡ self.old.kernel.problem }
        ensures section { self.new.section ≡ self.old.section }
        ensures names { self.new.names ≡ self.old.names }
        ensures accepts { OnOk result (AcceptsOn self.old (Line.Step step.now) self.new) }
        ensures stop { IfErr result (IsRefusal number self.old (Line.Step step.now)) }
    {
        match self.kernel.apply(step) {
            Ok(_) => Ok(()),
            Err(fault) => Err(judging(number, fault)),
        }
    }

    /// Judges the conclusion, and keeps what was accepted.
    fn conclude(&mut self, conclusion: &Conclusion, number: u64) -> Result<(), Stop>
        ensures kernel { self.new.kernel ≡ self.old.kernel }
        ensures section { self.new.section ≡ self.old.section }
        ensures names { self.new.names ≡ self.old.names }
        ensures accepts { OnOk result (AcceptsOn self.old (Line.Conclusion conclusion.now) self.new) }
        ensures stop { IfErr result (IsRefusal number self.old (Line.Conclusion conclusion.now)) }
    {
        match self.kernel.conclude(conclusion) {
            Ok(accepted) => {
                self.concluded = Some(accepted);
                Ok(())
            }
            Err(fault) => Err(judging(number, fault)),
        }
    }

    /// What was concluded, where no line is left; `last` is the number of the line on which the text ends. The text is
    /// too short where a section is still due.
    pub(crate) fn finish(self, last: u64, afterwards: Afterwards) -> Result<Accepted, Stop>
        requires reached { (read : List Numbered) × Reaches self.kernel.problem read (position_of self) }
        ensures finished { IfOk result (λ accepted. IsOver (position_of self.entry) × (self.entry.concluded ≡ Some accepted)) }
        ensures stop { IfErr result (StopsBy (IsTruncated (position_of self.entry) last)) }
    {
        let Walk {
            section,
            concluded,
            names,
            kernel,
            ..
        } = self;
        afterwards.end(names);
        afterwards.end(kernel);
        match section {
            Section::After => match concluded {
                Some(accepted) => Ok(accepted),
                None => unreachable!(),
            },
            _ => Err(reading(last, ProofFault::Truncated)),
        }
    }
}
