//! The names of a proof while one line is read.
//!
//! A line that is refused adds no name, and the first of its words that cannot stand gives its fault. So names go into
//! the table as they are met, by one look-up each, and a refused line takes its own out again from the end; and a name for
//! which no number is left is only remembered, since a later word may be the one that cannot stand.
//!
//! The names of the problem are lent and stay as they are, and those that the proof adds stand behind them in a table of their own: most
//! proofs add none, and a copy of the problem's names would cost as much as reading them did. The second table is owned here from line to
//! line (`proof_names`): were it borrowed, contracts could not say what became of it, since they lose the end of a borrow of something
//! that owns memory once a struct holds it.

ghost use Rattle.std.specs.Prelude.{◌≡◌, ◌<◌, ◌≤◌, ◌+◌, ◌++◌, ℕ, List, None, true, false, length, take, if◌then◌else◌, MatchOption, IfOk, IfSome, OnOk, OnErr};
ghost use Rattle.linear.specs.Largest.{most_names};
ghost use Rattle.linear.specs.ShortNames.{IsShort};
ghost use Rattle.linear.specs.Table.{has_name, place_of, with_name, IsFullFor, IsTable};
ghost use Rattle.pb_text.specs.Name.{is_name};
ghost use Rattle.pb_text.specs.Said.{SaysName};
ghost use Rattle.proof_text.specs.NamesMet.{NamesMet, met, but_last};

use linear::{Lit, MOST_NAMES, Names, Var};
use pb_text::{Literal, Said};
use std::alloc::{AllocError, Global};
use std::marker::Model;

/// The names so far.
#[derive(Drop)]
pub(crate) struct LineNames<'a> {
    /// Those of the problem.
    file: &'a Names,
    /// Those that the proof has added behind them.
    added: Names,
    /// How many it had added before the line.
    before: usize,
    full: bool,
}

impl<'a> Model for LineNames<'a> {
    ghost Value = { NamesMet };

    ghost view = { λ t. record {
      before = t.file.now ++ take t.before t.added;
      names = if t.full then but_last (t.file.now ++ t.added) else t.file.now ++ t.added;
      full = t.full;
    } };

    ghost invariant = { λ t. (t.before ≤ length t.added) × IsTable (t.file.now ++ t.added) × (t.full ≡ true → most_names ≤ length (t.file.now ++ t.added)) };
}

/// The variable of a name of the proof, by its number among those that the proof has added.
#[inline(always)]
fn behind(file: &Names, added: Var) -> Var
    requires { length file.now + added.0 < most_names }
    ensures { result.0 ≡ length file.now + added.0 }
{
    Var(file.len() as u32 + added.0)
}

/// The variable of a short name whose number is known, where its place is kept by its number.
#[inline(always)]
fn found_short(file: &Names, added: &Names, name: &[u8], number: usize) -> Option<Var>
    requires short { IsShort name.now number }
    requires table { IsTable (file.now ++ added.now) }
    ensures { IfSome result (λ v. (has_name (file.now ++ added.now) name.now ≡ true) × (v.0 ≡ place_of (file.now ++ added.now) name.now)) }
{
    if let Some(var) = file.find_short(name, number) {
        return Some(var);
    }
    let var = added.find_short(name, number)?;
    Some(behind(file, var))
}

/// The variable of a name, where it finds a number: that of the problem's or the proof's, or else the next one. A short name is not looked at
/// where its number is found.
#[inline(always)]
fn interned(
    file: &Names,
    added: &mut Names,
    name: &[u8],
    said: Said,
) -> Result<Option<Var>, AllocError>
    requires name { is_name name.now ≡ true }
    requires says { SaysName said name.now }
    requires table { IsTable (file.now ++ added.old) }
    ensures cases { IfOk result (λ found. MatchOption found (IsFullFor (file.now ++ added.old) most_names name.now) (λ v. v.0 ≡ place_of (file.now ++ added.old) name.now)) }
    ensures some { IfOk result (λ found. IfSome found (λ _. file.now ++ added.new ≡ with_name (file.now ++ added.old) name.now)) }
    ensures more { length added.old ≤ length added.new }
    ensures table { IsTable (file.now ++ added.new) }
    ensures none { IfOk result (λ found. found ≡ None → added.new ≡ added.old) }
    ensures err { OnErr result (added.new ≡ added.old) }
{
    if let Said::Short(number) = said {
        if let Some(var) = found_short(file, added, name, number) {
            return Ok(Some(var));
        }
    }
    if let Some(var) = file.find(name) {
        return Ok(Some(var));
    }
    match added.intern_within(name, MOST_NAMES - file.len())? {
        Some(var) => Ok(Some(behind(file, var))),
        None => Ok(None),
    }
}

impl<'a> LineNames<'a> {
    /// The names as a first line begins, which are those of the problem.
    pub(crate) fn new(alloc: Global, file: &'a Names) -> Self
        ensures { result ≡ record { before = file.now; names = file.now; full = false } }
    {
        file.reveal();
        LineNames {
            file,
            added: Names::new(alloc),
            before: 0,
            full: false,
        }
    }

    /// The same names, as a line begins.
    pub(crate) fn begin(&mut self)
        requires { self.old.full ≡ false }
        ensures { self.new ≡ record { before = self.old.names; names = self.old.names; full = false } }
    {
        self.before = self.added.len();
    }

    /// The literal that a word writes, and what was read of its name. A name that finds no number gets the greatest one, which counts for nothing.
    #[inline(always)]
    pub(crate) fn lit(&mut self, literal: Literal<'_>, said: Said) -> Result<Lit, AllocError>
        requires { SaysName said literal.name.now }
        ensures met { OnOk result (self.new ≡ met self.old literal.entry.name.now) }
        ensures variable { IfOk result (λ l. l.var.0 ≡ place_of self.new.names literal.entry.name.now) }
        ensures sign { IfOk result (λ l. l.negated ≡ literal.entry.negated) }
        ensures err { OnErr result (self.new ≡ self.old) }
    {
        let negated = literal.negated;
        let var = match interned(self.file, &mut self.added, literal.name, said)? {
            Some(var) => var,
            None => {
                self.full = true;
                Var(u32::MAX)
            }
        };
        Ok(Lit { var, negated })
    }

    /// Whether a name found no number.
    pub(crate) fn is_full(&self) -> bool
        ensures { result ≡ self.now.full }
    {
        self.full
    }

    /// The names that the proof has added, where each found a number.
    pub(crate) fn added(&self) -> &Names
        requires { self.now.full ≡ false }
        ensures names { (file : List (List ℕ)) × (self.now.names ≡ file ++ result.now) }
        ensures table { IsTable self.now.names }
    {
        &self.added
    }

    /// The names as the line began.
    pub(crate) fn undo(&mut self)
        ensures { self.new ≡ record { before = self.old.before; names = self.old.before; full = false } }
    {
        self.added.truncate(self.before);
        self.before = self.added.len();
        self.full = false;
    }
}
