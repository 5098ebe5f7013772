//! The variables of a text, no more than the limit: the bound is a fact of the type, so that no reader has to carry it.

ghost use Rattle.std.specs.Prelude.{◌≡◌, ◌≤◌, true, None, length, IfOk, IfSome, OnErr, MatchOption};
ghost use Rattle.linear.specs.Limits.{most_variables};
ghost use Rattle.linear.specs.Table.{place_of, with_name, IsFullFor, IsTable};
ghost use Rattle.pb_text.specs.Name.{is_name};
ghost use Rattle.pb_text.specs.Said.{SaysName};

use super::fault::OpbCode;
use linear::{MOST_VARIABLES, Names, Var};
use pb_text::Said;
use std::alloc::{AllocError, Global};
use std::marker::Model;

/// The variable of a name, where the table may have so many names; a short name is not looked at again.
#[inline(always)]
fn interned(names: &mut Names, name: &[u8], said: Said) -> Result<Option<Var>, AllocError>
    requires name { is_name name.now ≡ true }
    requires says { SaysName said name.now }
    ensures cases { IfOk result (λ found. MatchOption found
        (IsFullFor names.old most_variables name.now)
        (λ v. v.0 ≡ place_of names.old name.now)) }
    ensures some { IfOk result (λ found. IfSome found (λ _. names.new ≡ with_name names.old name.now)) }
    ensures few { length names.old ≤ most_variables → length names.new ≤ most_variables }
    ensures table { IsTable names.new }
    ensures none { IfOk result (λ found. found ≡ None → names.new ≡ names.old) }
    ensures err { OnErr result (names.new ≡ names.old) }
{
    match said {
        Said::Short(number) => names.intern_short(name, number, MOST_VARIABLES),
        _ => names.intern_within(name, MOST_VARIABLES),
    }
}

/// The names so far, in order of first occurrence.
#[derive(Drop)]
pub struct Variables {
    names: Names,
}

impl Model for Variables {
    ghost use Rattle.std.specs.Prelude.{ℕ, List, ◌≤◌, length};
    ghost use Rattle.linear.specs.Table.{IsTable};
    ghost use Rattle.linear.specs.Limits.{most_variables};

    ghost Value = { List (List ℕ) };

    ghost view = { λ v. v.names };

    ghost invariant = { λ v. (IsTable v.names) × (length v.names ≤ most_variables) };
}

impl Variables {
    ghost use Rattle.std.specs.Prelude.{◌≡◌, ◌<◌, ◌≤◌, true, [], length, IfOk, IfErr, OnOk, OnErr};
    ghost use Rattle.linear.specs.Limits.{most_variables};
    ghost use Rattle.linear.specs.Table.{place_of, with_name, IsTable};
    ghost use Rattle.pb_text.specs.Name.{is_name};
    ghost use Rattle.pb_text.specs.Said.{SaysName};
    ghost use Rattle.opb_read.specs.Codes.{IsTooManyOr};

    /// No variables yet.
    pub(crate) fn new(alloc: Global) -> Self
        ensures { result ≡ [] }
    {
        Variables {
            names: Names::new(alloc),
        }
    }

    /// The variable of a literal's name, a new one where the name is new.
    ///
    /// `TooMany` comes where the name would be one too many.
    #[inline(always)]
    pub(crate) fn number(&mut self, name: &[u8], said: Said) -> Result<Var, OpbCode>
        requires name { is_name name.now ≡ true }
        requires says { SaysName said name.now }
        ensures ok { OnOk result (self.new ≡ with_name self.old name.now) }
        ensures number { IfOk result (λ v. v.0 ≡ place_of self.old name.now) }
        ensures few { OnOk result (length self.new ≤ most_variables) }
        ensures err { OnErr result (self.new ≡ self.old) }
        ensures refused { IfErr result (IsTooManyOr (most_variables < length (with_name self.old name.now))) }
    {
        match interned(&mut self.names, name, said) {
            Ok(Some(var)) => Ok(var),
            Ok(None) => Err(OpbCode::TooMany),
            Err(_) => Err(OpbCode::OutOfMemory),
        }
    }

    /// The names, by the variables' numbers.
    pub(crate) fn into_names(self) -> Names
        ensures names { result ≡ self }
        ensures table { IsTable self }
        ensures few { length self ≤ most_variables }
    {
        self.names
    }
}
