//! The names of a proof from line to line.
//!
//! A line that is read adds its new names in order, and a line that is refused adds none. The table of what was added stays where it is: a
//! line adds to it in place, and takes its own names out again where one of its words cannot stand.

ghost use Rattle.std.specs.Prelude.{◌≡◌, ◌∷◌, ◌++◌, ◌≤◌, List, ℕ, Some, false, length, IfOk, IfErr, OnErr};
ghost use Rattle.linear.specs.Largest.{most_names};
ghost use Rattle.pb_text.specs.TokensOf.{texts_of};
ghost use Rattle.proof_text.specs.Rules as rules;
ghost use Rattle.proof_text.specs.Steps.{IsStep};
ghost use Rattle.proof_text.specs.Spells.{IsLine};
ghost use Rattle.proof_text.specs.Faults.{DeniesStep, DeniesLine};

use super::conclude::conclusion;
use super::fault::{ProofFault, Reading};
use super::keyword::Rule;
use super::line::{Line, Section};
use super::line_names::LineNames;
use super::step::step;
use linear::Names;
use pb_text::Tokens;
use proof_steps::Step;
use std::alloc::Global;
use std::marker::Model;

/// The names that the problem and the lines of its proof have so far, none twice; the variable of number `n` has the name at place `n`.
#[derive(Drop)]
pub struct ProofNames<'a> {
    line: LineNames<'a>,
}

impl<'a> Model for ProofNames<'a> {
    ghost Value = { List (List ℕ) };

    ghost view = { λ n. n.line.names };

    ghost invariant = { λ n. n.line.full ≡ false };
}

impl<'a> ProofNames<'a> {
    /// The names with which a proof begins, which are those of its problem.
    pub fn new(alloc: Global, file: &'a Names) -> Self
        ensures { result ≡ file.now }
    {
        ProofNames {
            line: LineNames::new(alloc, file),
        }
    }

    /// The names that its lines have added behind those of the problem.
    pub fn added(&self) -> &Names
        ensures { (file : List (List ℕ)) × (self.now ≡ file ++ result.now) }
    {
        self.line.added()
    }

    /// That they can be numbered, for a proof that needs it.
    pub(crate) fn reveal(&self)
        ensures { length self.now ≤ most_names }
    {
        let _ = self.line.added();
    }

    /// The step that the words behind the word of a rule say, its new names added.
    pub(crate) fn step_of_rule(
        &mut self,
        alloc: Global,
        rule: Rule,
        words: Tokens<'_>,
    ) -> Reading<Step>
        ensures step { (word : List ℕ) →
            rules.rule_of word ≡ Some rule →
            IfOk result (λ s. IsStep self.old (word ∷ texts_of words.entry) s self.new) }
        ensures err { OnErr result (self.new ≡ self.old) }
        ensures denies { (word : List ℕ) →
            rules.rule_of word ≡ Some rule →
            IfErr result (λ f. DeniesStep f self.old (word ∷ texts_of words.entry)) }
    {
        self.line.begin();
        let read = step(alloc, rule, words, &mut self.line);
        if let Err(fault) = read {
            self.line.undo();
            return Err(fault);
        }
        if self.line.is_full() {
            self.line.undo();
            return Err(ProofFault::TooManyIds);
        }
        self.reveal();
        read
    }

    /// The conclusion that the words of a line say, its new names added.
    pub(crate) fn conclusion_line(&mut self, alloc: Global, words: Tokens<'_>) -> Reading<Line>
        ensures line { IfOk result (λ l. IsLine Section.Conclusion self.old (texts_of words.entry) l self.new) }
        ensures err { OnErr result (self.new ≡ self.old) }
        ensures denies { IfErr result (λ f. DeniesLine f Section.Conclusion self.old (texts_of words.entry)) }
    {
        self.line.begin();
        match conclusion(alloc, words, &mut self.line) {
            Ok(conclusion) => {
                if self.line.is_full() {
                    self.line.undo();
                    return Err(ProofFault::TooManyIds);
                }
                self.reveal();
                Ok(Line::Conclusion(conclusion))
            }
            Err(fault) => {
                self.line.undo();
                Err(fault)
            }
        }
    }
}
