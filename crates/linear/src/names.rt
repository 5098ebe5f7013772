//! Names of variables, numbered in order of first occurrence.
//!
//! Below the texts a variable is a number, and this table is all that knows its name; so the order is part of what a problem
//! is, and the table is a list in the contracts and a hash set in the code, with a short cut for names that are `x` and digits. A name
//! is kept once. A new one is hashed twice, to look it up and to put it in: the set takes a name only as one that is owned, and a
//! copy for each occurrence would cost more.

ghost use Rattle.std.specs.Prelude.{◌≡◌, ◌<◌, ◌≤◌, ◌↔◌, true, false, [], Some, None, length, take, slice_get, MatchOption, IfOk, IfSome, OnOk, OnErr, IsTrue};
ghost use Rattle.std.specs.Option.{option_copied};
ghost use Rattle.linear.specs.Largest.{most_names};
ghost use Rattle.linear.specs.ShortNames.{IsShort};
ghost use Rattle.linear.specs.Table.{has_name, place_of, with_name, IsFullFor, IsTable};
ghost use Rattle.pb_text.specs.Name.{is_name};

use super::short_names::ShortNames;
use super::term::Var;
use indexmap::IndexSet;
use std::alloc::{AllocError, Global};
use std::marker::Model;

/// An ordered table of names, none twice. A name is a letter or `_` and then one or more letters, digits,
/// `_ [ ] { } ^ -`; the variable of number `n` has the name at place `n`.
#[derive(Drop)]
pub struct Names {
    set: IndexSet<Vec<u8>>,
    short: ShortNames,
}

impl Model for Names {
    ghost use Rattle.std.specs.Prelude.{ℕ, List, map};
    ghost use Rattle.linear.specs.Table.{IsTable};
    ghost use Rattle.linear.specs.ShortNames.{AreShortPlaces};

    ghost Value = { List (List ℕ) };

    ghost view = { λ n. map (λ v. v.items) n.set.keys };

    ghost invariant = { λ n. IsTable (map (λ v. v.items) n.set.keys) × AreShortPlaces (map (λ v. v.items) n.set.keys) n.short };
}

impl Names {
    /// A table without names.
    pub fn new(alloc: Global) -> Self
        ensures { result ≡ [] }
    {
        Names {
            set: IndexSet::new(alloc),
            short: ShortNames::new(alloc),
        }
    }

    /// What holds of every table, for a proof that needs it where nothing else of the table is asked.
    pub fn reveal(&self)
        ensures { IsTable self.now }
    {
        let _ = &self.set;
    }

    /// How many names there are.
    pub fn len(&self) -> usize
        ensures len { result ≡ length self.now }
        ensures table { IsTable self.now }
    {
        self.set.len()
    }

    pub fn is_empty(&self) -> bool
        ensures { IsTrue result ↔ (self.now ≡ []) }
    {
        self.set.is_empty()
    }

    /// The name of a variable, if the table has one of that number.
    pub fn get(&self, var: Var) -> Option<&[u8]>
        ensures { option_copied result ≡ slice_get self.now (var.0) }
    {
        match self.set.get_index(var.0 as usize) {
            Some(name) => Some(name.as_slice()),
            None => None,
        }
    }

    /// The variable of a name, if the table has it.
    pub fn find(&self, name: &[u8]) -> Option<Var>
        ensures { MatchOption result
            (has_name self.now name.now ≡ false)
            (λ v. (has_name self.now name.now ≡ true) × (v.0 ≡ place_of self.now name.now)) }
    {
        if let Some(place) = self.short.find(name) {
            return Some(Var(place));
        }
        match self.set.get_index_of(name) {
            Some(place) => Some(Var(place as u32)),
            None => None,
        }
    }

    /// The variable of a name, which takes the next number where the table does not have it yet. Where memory runs out
    /// the table stays as it was.
    pub fn intern(&mut self, name: &[u8]) -> Result<Var, AllocError>
        requires spelled { is_name name.now ≡ true }
        requires room { length self.old < most_names }
        ensures ok { OnOk result (self.new ≡ with_name self.old name.now) }
        ensures number { IfOk result (λ v. v.0 ≡ place_of self.old name.now) }
        ensures err { OnErr result (self.new ≡ self.old) }
    {
        match self.find(name) {
            Some(var) => Ok(var),
            None => self.add(name),
        }
    }

    /// The variable of a name, as `intern` gives it, where the table may have so many names: `None` where the name is new
    /// and the table has them all. Where there is no variable, and where memory runs out, the table stays as it was.
    pub fn intern_within(&mut self, name: &[u8], most: usize) -> Result<Option<Var>, AllocError>
        requires spelled { is_name name.now ≡ true }
        requires room { most ≤ most_names }
        ensures cases { IfOk result (λ found. MatchOption found
            (IsFullFor self.old most name.now)
            (λ v. v.0 ≡ place_of self.old name.now)) }
        ensures some { IfOk result (λ found. IfSome found (λ _. self.new ≡ with_name self.old name.now)) }
        ensures few { length self.old ≤ most → length self.new ≤ most }
        ensures table { IsTable self.new }
        ensures none { IfOk result (λ found. found ≡ None → self.new ≡ self.old) }
        ensures err { OnErr result (self.new ≡ self.old) }
    {
        if let Some(var) = self.find(name) {
            return Ok(Some(var));
        }
        if self.set.len() >= most {
            return Ok(None);
        }
        let var = self.add(name)?;
        Ok(Some(var))
    }

    /// The variable of a short name whose number is known, as `intern_within` gives it: where the table has the name, its bytes
    /// are not looked at.
    #[inline(always)]
    pub fn intern_short(
        &mut self,
        name: &[u8],
        number: usize,
        most: usize,
    ) -> Result<Option<Var>, AllocError>
        requires spelled { is_name name.now ≡ true }
        requires short { IsShort name.now number }
        requires room { most ≤ most_names }
        ensures cases { IfOk result (λ found. MatchOption found
            (IsFullFor self.old most name.now)
            (λ v. v.0 ≡ place_of self.old name.now)) }
        ensures some { IfOk result (λ found. IfSome found (λ _. self.new ≡ with_name self.old name.now)) }
        ensures few { length self.old ≤ most → length self.new ≤ most }
        ensures table { IsTable self.new }
        ensures none { IfOk result (λ found. found ≡ None → self.new ≡ self.old) }
        ensures err { OnErr result (self.new ≡ self.old) }
    {
        if let Some(var) = self.find_short(name, number) {
            return Ok(Some(var));
        }
        self.intern_within(name, most)
    }

    /// The variable of a short name whose number is known, where its place is kept by its number; of another name the table may
    /// have it all the same.
    #[inline(always)]
    pub fn find_short(&self, name: &[u8], number: usize) -> Option<Var>
        requires { IsShort name.now number }
        ensures found { IfSome result (λ v. (has_name self.now name.now ≡ true) × (v.0 ≡ place_of self.now name.now)) }
        ensures table { IsTable self.now }
    {
        let _ = name;
        match self.short.place(number) {
            Some(place) => Some(Var(place)),
            None => None,
        }
    }

    /// The next variable, for a name that the table does not have.
    fn add(&mut self, name: &[u8]) -> Result<Var, AllocError>
        requires spelled { is_name name.now ≡ true }
        requires unknown { has_name self.old name.now ≡ false }
        requires room { length self.old < most_names }
        ensures ok { OnOk result (self.new ≡ with_name self.old name.now) }
        ensures number { IfOk result (λ v. v.0 ≡ place_of self.old name.now) }
        ensures err { OnErr result (self.new ≡ self.old) }
        ensures table { IsTable self.new }
    {
        let number = self.set.len();
        let own = Vec::from_slice(*self.set.allocator(), name)?;
        self.set.insert(own)?;
        self.short.keep(name, number as u32);
        Ok(Var(number as u32))
    }

    /// Takes the newest names away, so that `len` names are left, or all where there are no more.
    pub fn truncate(&mut self, len: usize)
        ensures { self.new ≡ take len self.old }
    {
        self.short.clear();
        self.set.truncate(len);
    }

    /// Another table of the same names.
    pub fn copy(&self, alloc: Global) -> Result<Names, AllocError>
        ensures { IfOk result (λ n. n ≡ self.now) }
    {
        let mut copy = Names::new(alloc);
        for name in self.set.as_slice() {
            copy.add(name.as_slice())?;
        }
        Ok(copy)
    }
}
