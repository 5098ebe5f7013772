//! The reader of a problem file: an automaton over its tokens.
//!
//! A linear OPB file (Roussel and Manquinho) is a regular language but for its numbers and its limits, so one loop over the
//! tokens reads it: the spot says which token may stand next and where it leads, and beside that stands what the token does to
//! the statement that is being read. What has come of the tokens so far is a `Progress`; each token that is passed is one `Step`
//! of it, and at a fault the token that has it stands next. So all that is to be known of a run is proved of lists of steps,
//! and the line of a fault is that of the next token. What stands in plain sight takes a short cut through the same steps
//! (`plain_tokens`).

ghost use Rattle.std.specs.Prelude.{◌≡◌, ◌+◌, ◌<◌, ◌≤◌, ◌∷◌, ◌++◌, Some, true, [], length, drop, unsigned_abs, if◌then◌else◌, IfOk, IfErr, OnOk, OnErr, MatchOption};
ghost use Rattle.linear.specs.Limits.{largest_integer, most_constraints, most_terms, most_variables};
ghost use Rattle.pb_text.specs.Lexeme.{lexemes};
ghost use Rattle.pb_text.specs.Number.{integer_value};
ghost use Rattle.pb_text.specs.Name.{is_name};
ghost use Rattle.pb_text.specs.Said.{Says, SaysName};
ghost use Rattle.pb_text.specs.Token.{lexeme_of};
ghost use Rattle.pb_text.specs.Word.{is_negated, name_of};
ghost use Rattle.opb_read.specs.Kinds.{begins_objective, relation_at, statements_of};
ghost use Rattle.opb_read.specs.Progress.{HoldsLimits, IsLargeCode, IsOneTooMany, Reaches, Refuses, Step, StopsAt, closed, start_of, with_coefficient, with_literal, with_relation, with_right, with_term, without_terms};
ghost use Rattle.opb_read.specs.Codes.{IsForm, IsTooManyOr};
ghost use Rattle.opb_read.specs.FaultCodes.{code_at};
ghost use Rattle.opb_read.specs.Reading.{progress_at, progress_of};
ghost use Rattle.opb_read.specs.Spots.{begun, next_spot};

use super::fault::OpbCode;
use super::mark::begins_objective;
use super::spot::Spot;
use super::variables::Variables;
use linear::{Constraints, LARGEST_INTEGER, MOST_CONSTRAINTS, MOST_TERMS, Relation, Seq, Term};
use pb_text::{Found, Kind, Literal, Lookahead, Said, Symbol, Token, Tokens, integer, literal_of};
use std::alloc::Global;

/// Where reading has come to. At a fault, the token that has it stands next.
#[derive(Drop)]
pub struct Reader<'a> {
    pub left: Tokens<'a>,
    /// The spot before the token that stands next.
    pub spot: Spot,
    pub variables: Variables,
    pub objective: Option<Seq<Term>>,
    pub constraints: Constraints,
    /// Where the terms of a statement are gathered until it is closed.
    pub terms: Vec<Term>,
    /// The coefficient that was read last.
    pub coefficient: i128,
    /// The relation that was read last.
    pub relation: Relation,
    /// The right side that was read last.
    pub right: i128,
}

impl<'a> Reader<'a> {
    /// A reader of the statements of a text.
    pub(crate) fn new(alloc: Global, text: &'a [u8]) -> Self
        ensures left { result.left ≡ statements_of (lexemes text.now) }
        ensures start { progress_of result ≡ start_of (lexemes text.now) }
    {
        let mut left = Tokens::new(text);
        let spot = pass_mark(&mut left);
        Reader {
            left,
            spot,
            variables: Variables::new(alloc),
            objective: None,
            constraints: Constraints::new(alloc),
            terms: Vec::new(alloc),
            coefficient: 0,
            relation: Relation::AtLeast,
            right: 0,
        }
    }

    /// Reads all statements.
    pub(crate) fn read(&mut self, alloc: Global) -> Result<(), OpbCode>
        requires { HoldsLimits (progress_of self.old) }
        ensures all { OnOk result (Reaches (progress_of self.old) self.old.left (progress_of self.new) []) }
        ensures closed { OnOk result (self.new.spot ≡ Spot.Start) }
        ensures stops { IfErr result (λ code. StopsAt code (progress_of self.old) self.old.left self.new.left) }
    {
        self.pass_all(alloc)?;
        match self.spot {
            Spot::Start => Ok(()),
            _ => Err(self.fault()),
        }
    }

    /// Passes all tokens that are left.
    #[inline(always)]
    fn pass_all(&mut self, alloc: Global) -> Result<(), OpbCode>
        requires { HoldsLimits (progress_of self.old) }
        ensures all { OnOk result (Reaches (progress_of self.old) self.old.left (progress_of self.new) []) }
        ensures left { OnOk result (self.new.left ≡ []) }
        ensures stops { IfErr result (λ code. StopsAt code (progress_of self.old) self.old.left self.new.left) }
    {
        loop {
            self.pass_plain_tokens(alloc)?;
            let Some(found) = self.left.peek() else {
                return Ok(());
            };
            self.pass(alloc, found)?;
        }
    }

    /// The fault of the token that stands next, or of the end of the text, where it may not stand.
    // Kept out of the loop that reads, which would make room for it at each token.
    #[inline(never)]
    fn fault(&self) -> OpbCode
        ensures form { IsForm result }
        ensures code { result ≡ code_at self.now.spot self.now.left }
    {
        self.spot.fault(&Lookahead::over(&self.left))
    }

    /// Passes the token that stands next.
    #[inline(always)]
    fn pass(&mut self, alloc: Global, found: Found<'a>) -> Result<(), OpbCode>
        requires next { self.old.left ≡ lexeme_of found.token ∷ drop 1 self.old.left }
        requires behind { found.behind ≡ drop 1 self.old.left }
        requires says { Says found.said found.token.text.now }
        requires holds { HoldsLimits (progress_of self.old) }
        ensures step { OnOk result (Step (progress_of self.old) (lexeme_of found.entry.token) (progress_of self.new)) }
        ensures left { OnOk result (self.new.left ≡ drop 1 self.old.left) }
        ensures stays { OnErr result (self.new.left ≡ self.old.left) }
        ensures refuses { IfErr result (λ code. Refuses code (progress_of self.old) self.old.left) }
    {
        let Found {
            token,
            said,
            behind,
        } = found;
        let Some(next) = self.spot.next(token.kind) else {
            return Err(self.fault());
        };
        if next.is_in_constraint() && self.constraints.len() >= MOST_CONSTRAINTS {
            return Err(OpbCode::TooMany);
        }
        self.take(alloc, token, said, next)?;
        self.spot = next;
        self.left = behind;
        Ok(())
    }

    /// What the token that stands next says, where it leads to this spot.
    #[inline(always)]
    fn take(
        &mut self,
        alloc: Global,
        token: Token<'a>,
        said: Said,
        next: Spot,
    ) -> Result<(), OpbCode>
        requires next { self.old.left ≡ lexeme_of token ∷ drop 1 self.old.left }
        requires says { Says said token.text.now }
        requires stands { next_spot self.old.spot token.kind ≡ Some next }
        requires holds { HoldsLimits (progress_of self.old) }
        requires room { length self.old.constraints + begun next ≤ most_constraints }
        ensures step { OnOk result (Step (progress_of self.old) (lexeme_of token.entry) (progress_at next self.new)) }
        ensures left { self.new.left ≡ self.old.left }
        ensures refuses { IfErr result (λ code. Refuses code (progress_of self.old) self.old.left) }
    {
        match next {
            Spot::Coefficient => self.take_coefficient(token, said),
            Spot::ObjectiveCoefficient => self.take_coefficient(token, said),
            Spot::Literal => self.take_literal(token, said),
            Spot::ObjectiveLiteral => self.take_literal(token, said),
            Spot::Relation => {
                self.take_relation(token.kind);
                Ok(())
            }
            Spot::RightSide => self.take_right(token, said),
            Spot::Start => self.close(alloc),
            // The mark alone leads there, and `new` has passed it.
            Spot::ObjectiveMark => Err(OpbCode::BadToken),
        }
    }
}

/// What each token says.
impl<'a> Reader<'a> {
    #[inline(always)]
    fn take_coefficient(&mut self, token: Token<'a>, said: Said) -> Result<(), OpbCode>
        requires integer { token.kind ≡ Kind.Integer }
        requires says { Says said token.text.now }
        ensures moves { OnOk result (progress_of self.new ≡ with_coefficient (progress_of self.old) token.entry.text.now) }
        ensures small { OnOk result (unsigned_abs (integer_value token.entry.text.now) ≤ largest_integer) }
        ensures left { self.new.left ≡ self.old.left }
        ensures large { IfErr result (IsLargeCode token.entry.text.now) }
    {
        self.coefficient = file_integer(token, said)?;
        Ok(())
    }

    #[inline(always)]
    fn take_right(&mut self, token: Token<'a>, said: Said) -> Result<(), OpbCode>
        requires integer { token.kind ≡ Kind.Integer }
        requires says { Says said token.text.now }
        ensures moves { OnOk result (progress_of self.new ≡ with_right (progress_of self.old) token.entry.text.now) }
        ensures small { OnOk result (unsigned_abs (integer_value token.entry.text.now) ≤ largest_integer) }
        ensures left { self.new.left ≡ self.old.left }
        ensures large { IfErr result (IsLargeCode token.entry.text.now) }
    {
        self.right = file_integer(token, said)?;
        Ok(())
    }

    #[inline(always)]
    fn take_relation(&mut self, kind: Kind)
        ensures moves { progress_of self.new ≡ with_relation (progress_of self.old) kind }
        ensures left { self.new.left ≡ self.old.left }
    {
        self.relation = match kind {
            Kind::Symbol(Symbol::Equals) => Relation::Equal,
            _ => Relation::AtLeast,
        };
    }

    #[inline(always)]
    fn take_literal(&mut self, token: Token<'a>, said: Said) -> Result<(), OpbCode>
        requires literal { token.kind ≡ Kind.Literal }
        requires says { Says said token.text.now }
        ensures moves { OnOk result (progress_of self.new ≡ with_term (progress_of self.old) token.entry.text.now) }
        ensures names { OnOk result (length self.new.variables ≤ most_variables) }
        ensures terms { OnOk result (length self.new.terms.items ≤ most_terms) }
        ensures left { self.new.left ≡ self.old.left }
        ensures refused { IfErr result (IsTooManyOr (IsOneTooMany (progress_of self.old) (is_negated token.entry.text.now) (name_of token.entry.text.now))) }
    {
        self.add_term(literal_of(token), said)
    }

    /// Adds the term of the last coefficient and a literal.
    #[inline(always)]
    pub(crate) fn add_term(&mut self, literal: Literal<'a>, said: Said) -> Result<(), OpbCode>
        requires name { is_name literal.name.now ≡ true }
        requires says { SaysName said literal.name.now }
        ensures moves { OnOk result (progress_of self.new ≡ with_literal (progress_of self.old) literal.entry.negated literal.entry.name.now) }
        ensures names { OnOk result (length self.new.variables ≤ most_variables) }
        ensures terms { OnOk result (length self.new.terms.items ≤ most_terms) }
        ensures left { self.new.left ≡ self.old.left }
        ensures refused { IfErr result (IsTooManyOr (IsOneTooMany (progress_of self.old) literal.entry.negated literal.entry.name.now)) }
    {
        if self.terms.len() >= MOST_TERMS {
            return Err(OpbCode::TooMany);
        }
        let var = self.variables.number(literal.name, said)?;
        let term = Term {
            coef: self.coefficient,
            var,
            negated: literal.negated,
        };
        if self.terms.push(term).is_err() {
            return Err(OpbCode::OutOfMemory);
        }
        Ok(())
    }

    /// The terms that were gathered, in memory of their own.
    fn own_terms(&mut self, alloc: Global) -> Result<Seq<Term>, OpbCode>
        ensures terms { IfOk result (λ ts. ts ≡ self.old.terms.items) }
        ensures moves { OnOk result (progress_of self.new ≡ without_terms (progress_of self.old)) }
        ensures left { self.new.left ≡ self.old.left }
        ensures refused { IfErr result (λ code. code ≡ OpbCode.OutOfMemory) }
    {
        let Ok(own) = Vec::from_slice(alloc, self.terms.as_slice()) else {
            return Err(OpbCode::OutOfMemory);
        };
        self.terms.clear();
        Ok(Seq::from_vec(own))
    }

    /// Closes the statement that stands open.
    pub(crate) fn close(&mut self, alloc: Global) -> Result<(), OpbCode>
        ensures moves { OnOk result (progress_at Spot.Start self.new ≡ closed self.old.spot (progress_of self.old)) }
        ensures left { self.new.left ≡ self.old.left }
        ensures refused { IfErr result (λ code. code ≡ OpbCode.OutOfMemory) }
    {
        let Spot::RightSide = self.spot else {
            self.objective = Some(self.own_terms(alloc)?);
            return Ok(());
        };
        let kept = self
            .constraints
            .push(self.terms.as_slice(), self.relation, self.right);
        if kept.is_err() {
            return Err(OpbCode::OutOfMemory);
        }
        self.terms.clear();
        Ok(())
    }
}

/// Passes the mark of an objective, if one stands next, and gives the spot behind it.
fn pass_mark(left: &mut Tokens<'_>) -> Spot
    ensures left { left.new ≡ statements_of left.old }
    ensures spot { result ≡ (if begins_objective left.old then Spot.ObjectiveMark else Spot.Start) }
{
    if !begins_objective(&Lookahead::over(left)) {
        return Spot::Start;
    }
    left.pass();
    left.pass();
    Spot::ObjectiveMark
}

/// The number of an integer token, where it is at most 2^90 in size; one of few digits was read while it was cut.
#[inline(always)]
fn file_integer(token: Token<'_>, said: Said) -> Result<i128, OpbCode>
    requires integer { token.kind ≡ Kind.Integer }
    requires says { Says said token.text.now }
    ensures value { IfOk result (λ n. n ≡ integer_value token.entry.text.now) }
    ensures small { OnOk result (unsigned_abs (integer_value token.entry.text.now) ≤ largest_integer) }
    ensures large { IfErr result (IsLargeCode token.entry.text.now) }
{
    if let Said::Number(number) = said {
        return Ok(i128::from(number));
    }
    let Ok(number) = integer(token) else {
        return Err(OpbCode::IntegerTooLarge);
    };
    if number.unsigned_abs() > LARGEST_INTEGER {
        return Err(OpbCode::IntegerTooLarge);
    }
    Ok(number)
}
