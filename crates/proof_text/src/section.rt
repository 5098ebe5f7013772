//! From section to section of a proof: which one is due behind a line.
//!
//! Subproofs nest two deep, a block and a goal of it, so the section alone says what an `end` closes. Whoever reads a proof
//! threads it from line to line, and a line in a wrong place is refused by the reader.

ghost use Rattle.std.specs.Prelude.{◌≡◌};
ghost use Rattle.proof_text.specs.Sections.{behind_end, behind_step, section_behind};

use super::line::{Line, Section};
use proof_steps::Step;

impl Section {
    /// The section that is due behind an `end` here: it closes the goal that is open, or else the block.
    fn behind_end(self) -> Section
        ensures { result ≡ behind_end self }
    {
        match self {
            Section::Goal => Section::Block,
            Section::Block => Section::Step,
            _ => self,
        }
    }

    /// The section that is due behind a step here.
    fn behind_step(self, step: &Step) -> Section
        ensures { result ≡ behind_step self step.now }
    {
        match step {
            Step::Pol(_)
            | Step::Rup(_)
            | Step::Red(_, _)
            | Step::Sol(_)
            | Step::Soli(_)
            | Step::Del(_) => self,
            Step::RedBegin(_, _) => Section::Block,
            Step::Goal(_) => Section::Goal,
            Step::End => self.behind_end(),
        }
    }

    /// The section that is due behind a line that said this here. A line that is no step ends its section; of the steps,
    /// `red .. begin` opens a block, `proofgoal` a goal, `end` closes one of them, and any other leaves the section as it is.
    pub fn behind(self, line: &Line) -> Section
        ensures { result ≡ section_behind self line.now }
    {
        match line {
            Line::Header => Section::Count,
            Line::Count(_) => Section::Step,
            Line::Step(step) => self.behind_step(step),
            Line::Output => Section::Conclusion,
            Line::Conclusion(_) => Section::End,
            Line::End => Section::After,
        }
    }
}
