//! Tokens in plain sight: integers of a few digits, literals, relations and `;`, passed without a token being made of them.
//!
//! Nearly all of a file is such tokens, and one that is made of each, asked for its kind and taken apart again costs as much as the rest
//! of what reading does. What does not stand so plainly is left to the automaton, which also finds every fault of form; so these
//! are short cuts through the same steps, and change nothing of what is read.

ghost use Rattle.std.specs.Prelude.{◌≡◌, true, false, OnOk, IfOk, IfErr};
ghost use Rattle.opb_read.specs.Progress.{HoldsLimits, IsPassed, Reaches, Refuses, StopsAt};
ghost use Rattle.opb_read.specs.Reading.{progress_of};

use super::fault::OpbCode;
use super::reader::Reader;
use super::spot::Spot;
use linear::{MOST_CONSTRAINTS, Relation};
use pb_text::Symbol;
use std::alloc::Global;

impl<'a> Reader<'a> {
    /// Passes what stands next of such tokens.
    #[inline(always)]
    pub(crate) fn pass_plain_tokens(&mut self, alloc: Global) -> Result<(), OpbCode>
        requires { HoldsLimits (progress_of self.old) }
        ensures passed { OnOk result (Reaches (progress_of self.old) self.old.left (progress_of self.new) self.new.left) }
        ensures holds { OnOk result (HoldsLimits (progress_of self.new)) }
        ensures stops { IfErr result (λ code. StopsAt code (progress_of self.old) self.old.left self.new.left) }
    {
        while self.pass_plain(alloc)? {}
        Ok(())
    }

    /// Passes the token that stands next, where it is such a one and may stand there, and says whether it did.
    #[inline(always)]
    fn pass_plain(&mut self, alloc: Global) -> Result<bool, OpbCode>
        requires { HoldsLimits (progress_of self.old) }
        ensures passed { IfOk result (λ yes. yes ≡ true → IsPassed (progress_of self.old) self.old.left (progress_of self.new) self.new.left) }
        ensures same { IfOk result (λ yes. yes ≡ false → self.new ≡ self.old) }
        ensures stays { IfErr result (λ code. self.new.left ≡ self.old.left) }
        ensures refuses { IfErr result (λ code. Refuses code (progress_of self.old) self.old.left) }
    {
        match self.spot {
            Spot::Literal => Ok(self.pass_number() || self.pass_relation()),
            Spot::Coefficient | Spot::ObjectiveCoefficient => self.pass_literal(),
            Spot::RightSide => self.pass_semicolon(alloc),
            Spot::Start | Spot::ObjectiveMark | Spot::ObjectiveLiteral | Spot::Relation => Ok(
                self.pass_number(),
            ),
        }
    }

    /// Passes the number that stands next, where it is one of few digits and a number may stand there.
    #[inline(always)]
    fn pass_number(&mut self) -> bool
        requires { HoldsLimits (progress_of self.old) }
        ensures passed { result ≡ true → IsPassed (progress_of self.old) self.old.left (progress_of self.new) self.new.left }
        ensures same { result ≡ false → self.new ≡ self.old }
    {
        let next = match self.spot {
            Spot::Literal => Spot::Coefficient,
            Spot::Start if self.constraints.len() < MOST_CONSTRAINTS => Spot::Coefficient,
            Spot::ObjectiveMark | Spot::ObjectiveLiteral => Spot::ObjectiveCoefficient,
            Spot::Relation => Spot::RightSide,
            _ => return false,
        };
        let Some(number) = self.left.take_number() else {
            return false;
        };
        match next {
            Spot::RightSide => self.right = i128::from(number),
            _ => self.coefficient = i128::from(number),
        }
        self.spot = next;
        true
    }

    /// Passes the literal that stands next, where a literal may stand there, and says whether it did.
    #[inline(always)]
    fn pass_literal(&mut self) -> Result<bool, OpbCode>
        requires { HoldsLimits (progress_of self.old) }
        ensures passed { IfOk result (λ yes. yes ≡ true → IsPassed (progress_of self.old) self.old.left (progress_of self.new) self.new.left) }
        ensures same { IfOk result (λ yes. yes ≡ false → self.new ≡ self.old) }
        ensures stays { IfErr result (λ code. self.new.left ≡ self.old.left) }
        ensures refuses { IfErr result (λ code. Refuses code (progress_of self.old) self.old.left) }
    {
        let next = match self.spot {
            Spot::Coefficient => Spot::Literal,
            Spot::ObjectiveCoefficient => Spot::ObjectiveLiteral,
            _ => return Ok(false),
        };
        let mut left = self.left.again();
        let Some(read) = left.take_literal() else {
            return Ok(false);
        };
        self.add_term(read.literal, read.said)?;
        self.spot = next;
        self.left = left;
        Ok(true)
    }

    /// Passes the relation that stands next, behind the terms of a constraint, and says whether it did.
    #[inline(always)]
    fn pass_relation(&mut self) -> bool
        requires { HoldsLimits (progress_of self.old) }
        ensures passed { result ≡ true → IsPassed (progress_of self.old) self.old.left (progress_of self.new) self.new.left }
        ensures same { result ≡ false → self.new ≡ self.old }
    {
        let Spot::Literal = self.spot else {
            return false;
        };
        let mut left = self.left.again();
        let relation = match left.take_symbol() {
            Some(Symbol::AtLeast) => Relation::AtLeast,
            Some(Symbol::Equals) => Relation::Equal,
            _ => return false,
        };
        self.relation = relation;
        self.spot = Spot::Relation;
        self.left = left;
        true
    }

    /// Passes the `;` that stands next, behind the right side of a constraint, and says whether it did.
    #[inline(always)]
    fn pass_semicolon(&mut self, alloc: Global) -> Result<bool, OpbCode>
        requires { HoldsLimits (progress_of self.old) }
        ensures passed { IfOk result (λ yes. yes ≡ true → IsPassed (progress_of self.old) self.old.left (progress_of self.new) self.new.left) }
        ensures same { IfOk result (λ yes. yes ≡ false → self.new ≡ self.old) }
        ensures stays { IfErr result (λ code. self.new.left ≡ self.old.left) }
        ensures refuses { IfErr result (λ code. Refuses code (progress_of self.old) self.old.left) }
    {
        let Spot::RightSide = self.spot else {
            return Ok(false);
        };
        let mut left = self.left.again();
        let Some(Symbol::Semicolon) = left.take_symbol() else {
            return Ok(false);
        };
        self.close(alloc)?;
        self.spot = Spot::Start;
        self.left = left;
        Ok(true)
    }
}
