//! The normal constraints of a file, each found by what it is, and those that have a variable found by the variable.
//!
//! Two variables may change places where each constraint that has one of them becomes one of the file: so only these are
//! looked at, and what each becomes is looked up, however many constraints there are. A constraint that has neither stays
//! as it is.

ghost use Rattle.std.specs.Prelude.{◌≡◌, ◌↔◌, ◌+◌, ◌<◌, ◌≤◌, List, [], All, IfOk, IsTrue, OnOk, length, slice_index_or, unsigned_abs};
ghost use Rattle.normal_form.specs.Normal.{largest_sum};
ghost use Rattle.normal_form.specs.NormalOf.{size_sum};
ghost use Rattle.presolve.specs.Forms.{Adds, AreKeysOf, ArePlacesOf, HasExchange, HasExchangeAt, IsIndexed, NotesPlace, NotesTerms, constraint_of, constraints_of, places_at};
ghost use Rattle.presolve.specs.Standing.{IsFormOf};
ghost use Rattle.presolve.specs.Swapping.{IsSymmetric};
ghost use Rattle.presolve.specs.declared.form.Form.{Form};
ghost use Rattle.linear.specs.declared.constraint.Signed.{Signed};

use super::form::Form;
use super::weights::weights_of;
use indexmap::IndexSet;
use linear::{Problem, Relation, Signed, Var};
use normal_form::{Normal, NormalTerm, Normalizer};
use std::alloc::{AllocError, Global};

/// The normal constraints of a file, none twice, and for each variable the places of those that have it, and its greatest
/// weight in them.
#[derive(Drop)]
pub(crate) struct FileForms {
    keys: IndexSet<Form>,
    places: Vec<Vec<usize>>,
    weights: Vec<u64>,
}

/// Adds a normal constraint, if it is not there.
fn add(alloc: Global, keys: &mut IndexSet<Form>, normal: &Normal) -> Result<(), AllocError>
    ensures { OnOk result (Adds (λ n. n ≡ normal.now) keys.old.keys keys.new.keys) }
{
    keys.insert(Form::of(alloc, normal)?)?;
    Ok(())
}

/// Adds the normal constraints of a signed one.
fn add_forms(
    alloc: Global,
    normalizer: &mut Normalizer,
    keys: &mut IndexSet<Form>,
    constraint: &Signed,
) -> Result<(), AllocError>
    requires small { size_sum constraint.now.terms + unsigned_abs constraint.now.right ≤ largest_sum }
    ensures { OnOk result (Adds (IsFormOf constraint.now) keys.old.keys keys.new.keys) }
{
    match constraint.relation {
        Relation::AtLeast => add(alloc, keys, &normalizer.normalize_fitting(constraint)?)?,
        Relation::Equal => {
            let (at_least, at_most) = normalizer.both_fitting(constraint)?;
            add(alloc, keys, &at_least)?;
            add(alloc, keys, &at_most)?;
        }
    }
    Ok(())
}

/// The normal constraints of a problem's file.
fn keys_of(alloc: Global, problem: &Problem) -> Result<IndexSet<Form>, AllocError>
    ensures { IfOk result (λ set. AreKeysOf problem.now.constraints set.keys) }
{
    let mut normalizer = Normalizer::new(alloc);
    let mut keys = IndexSet::new(alloc);
    let constraints = problem.constraints();
    let mut constraint = Signed::new(alloc);
    for place in 0..constraints.len() {
        constraints.copy_to(place, &mut constraint)?;
        add_forms(alloc, &mut normalizer, &mut keys, &constraint)?;
    }
    Ok(keys)
}

/// Notes a place at a variable, where the table has it.
fn note_variable(places: &mut [Vec<usize>], variable: Var, place: usize) -> Result<(), AllocError>
    ensures { OnOk result (NotesPlace variable.0 place places.old places.new) }
{
    let number = variable.0 as usize;
    if number < places.len() {
        places[number].push(place)?;
    }
    Ok(())
}

/// Notes a place at the variables of terms.
fn note_terms(
    places: &mut [Vec<usize>],
    terms: &[NormalTerm],
    place: usize,
) -> Result<(), AllocError>
    ensures { OnOk result (NotesTerms terms.now place places.old places.new) }
{
    for term in terms {
        note_variable(places, term.var, place)?;
    }
    Ok(())
}

/// A table of so many variables with no places.
fn no_places(alloc: Global, count: usize) -> Result<Vec<Vec<usize>>, AllocError>
    ensures { IfOk result (λ table. (length table.items ≡ count) × All (λ places. places.items ≡ []) table.items) }
{
    let mut table = Vec::with_capacity(alloc, count)?;
    for _ in 0..count {
        table.push(Vec::new(alloc))?;
    }
    Ok(table)
}

/// For each of so many variables the places of the keys that have it.
fn places_of(alloc: Global, keys: &[Form], count: usize) -> Result<Vec<Vec<usize>>, AllocError>
    ensures { IfOk result (λ table. ArePlacesOf keys.now count table.items) }
{
    let mut table = no_places(alloc, count)?;
    for place in 0..keys.len() {
        note_terms(table.as_mut_slice(), keys[place].terms.as_slice(), place)?;
    }
    Ok(table)
}

impl FileForms {
    /// The normal constraints of a problem's file.
    pub(crate) fn of(alloc: Global, problem: &Problem) -> Result<FileForms, AllocError>
        ensures keys { IfOk result (λ forms. AreKeysOf problem.now.constraints forms.keys.keys) }
        ensures count { IfOk result (λ forms. length forms.places.items ≡ length problem.now.names) }
        ensures indexed { IfOk result IsIndexed }
    {
        let keys = keys_of(alloc, problem)?;
        let count = problem.names().len();
        let places = places_of(alloc, keys.as_slice(), count)?;
        let weights = weights_of(alloc, keys.as_slice(), count)?;
        Ok(FileForms {
            keys,
            places,
            weights,
        })
    }

    /// Whether the constraint at a place becomes one of the file where two variables change places.
    fn has_exchange(&self, alloc: Global, place: usize, x: Var, y: Var) -> Result<bool, AllocError>
        requires inside { place < length self.now.keys.keys }
        requires indexed { IsIndexed self.now }
        ensures { (d : Form) → IfOk result (λ yes. IsTrue yes ↔ HasExchange (x.0) (y.0) (constraints_of self.now.keys.keys) (constraint_of (slice_index_or self.now.keys.keys place d))) }
    {
        let form = &self.keys.as_slice()[place];
        if form.has_alike(x, y) {
            return Ok(true);
        }
        let image = form.exchange(alloc, x, y)?;
        Ok(self.keys.contains(&image))
    }

    /// Whether all constraints that have a variable become some of the file where two variables change places.
    fn all_exchange(&self, alloc: Global, variable: Var, x: Var, y: Var) -> Result<bool, AllocError>
        requires variable { variable.0 < length self.now.places.items }
        requires indexed { IsIndexed self.now }
        ensures { IfOk result (λ yes. IsTrue yes ↔ All (λ i. HasExchangeAt (x.0) (y.0) self.now.keys.keys i) (places_at self.now.places.items (variable.0))) }
    {
        for place in self.places[variable.0 as usize].as_slice() {
            if !self.has_exchange(alloc, *place, x, y)? {
                return Ok(false);
            }
        }
        Ok(true)
    }

    /// Whether each constraint becomes one of the file where two variables change places. A constraint that has neither
    /// stays as it is, and where the variables' weights differ none has to be looked at.
    pub(crate) fn is_symmetric(&self, alloc: Global, x: Var, y: Var) -> Result<bool, AllocError>
        requires first { x.0 < length self.now.places.items }
        requires second { y.0 < length self.now.places.items }
        requires indexed { IsIndexed self.now }
        ensures { (constraints : List Signed) → AreKeysOf constraints self.now.keys.keys → IfOk result (λ yes. IsTrue yes ↔ IsSymmetric constraints (x.0) (y.0)) }
    {
        if self.weights[x.0 as usize] != self.weights[y.0 as usize] {
            return Ok(false);
        }
        Ok(self.all_exchange(alloc, x, x, y)? && self.all_exchange(alloc, y, x, y)?)
    }
}
