//! The basis: the rows that are tight, and as many variables that are basic.
//!
//! Every variable lies between two bounds, so a basis is told by its kernel alone: which rows hold with equality, and which variables
//! take the values that make them do so. All other variables stand at a bound, all other rows have slack. The kernel is small where
//! the problem has many more rows and variables than are tight.

use std::alloc::{AllocError, Global};

/// Tight rows and basic variables, as many of the ones as of the others, and where each row and each variable stands among them. Rows,
/// variables and places are counted from 0.
#[derive(Debug, Drop)]
pub struct Basis {
    tight: Vec<usize>,
    basic: Vec<usize>,
    place_of_row: Vec<Option<usize>>,
    place_of_variable: Vec<Option<usize>>,
}

/// Puts a row or a variable at the end of its list, and notes its place.
fn append(
    list: &mut Vec<usize>,
    places: &mut Vec<Option<usize>>,
    item: usize,
) -> Result<(), AllocError> {
    let place = list.len();
    list.push(item)?;
    note(places, item, Some(place));
    Ok(())
}

/// Notes the place of a row or a variable.
fn note(places: &mut Vec<Option<usize>>, item: usize, place: Option<usize>) {
    if item < places.len() {
        places[item] = place;
    }
}

/// Puts another row or variable at a place, in the stead of the one that was there.
fn exchange(list: &mut Vec<usize>, places: &mut Vec<Option<usize>>, place: usize, item: usize) {
    if place < list.len() {
        note(places, list[place], None);
        list[place] = item;
        note(places, item, Some(place));
    }
}

/// Takes the one at a place out, and puts the last one there.
fn take_out(list: &mut Vec<usize>, places: &mut Vec<Option<usize>>, place: usize) {
    if place < list.len() {
        note(places, list[place], None);
        list.swap_remove(place);
    }
    if place < list.len() {
        note(places, list[place], Some(place));
    }
}

/// The place that is noted, if any.
fn place_in(places: &[Option<usize>], item: usize) -> Option<usize> {
    match places.get(item) {
        Some(place) => *place,
        None => None,
    }
}

impl Basis {
    /// The empty basis: all rows have slack, all variables stand at bounds.
    pub fn new(alloc: Global) -> Self {
        Basis {
            tight: Vec::new(alloc),
            basic: Vec::new(alloc),
            place_of_row: Vec::new(alloc),
            place_of_variable: Vec::new(alloc),
        }
    }

    /// Makes room for so many rows and variables, where there are fewer: of others it is not noted where they stand.
    ///
    /// `AllocError` comes where a growth was refused; the basis is as it was then, and some of the room may be there.
    pub fn widen(&mut self, rows: usize, variables: usize) -> Result<(), AllocError> {
        for _ in self.place_of_row.len()..rows {
            self.place_of_row.push(None)?;
        }
        for _ in self.place_of_variable.len()..variables {
            self.place_of_variable.push(None)?;
        }
        Ok(())
    }

    /// Makes it the empty basis.
    pub fn clear(&mut self) {
        self.tight.clear();
        self.basic.clear();
        for place in self.place_of_row.iter_mut() {
            *place = None;
        }
        for place in self.place_of_variable.iter_mut() {
            *place = None;
        }
    }

    /// How many rows are tight, which is how many variables are basic.
    pub fn len(&self) -> usize {
        self.basic.len()
    }

    /// The tight rows, place by place.
    pub fn tight(&self) -> &[usize] {
        self.tight.as_slice()
    }

    /// The basic variables, place by place.
    pub fn basic(&self) -> &[usize] {
        self.basic.as_slice()
    }

    /// The place of a row among the tight ones, if it is tight.
    pub fn place_of_row(&self, row: usize) -> Option<usize> {
        place_in(self.place_of_row.as_slice(), row)
    }

    /// The place of a variable among the basic ones, if it is basic.
    pub fn place_of_variable(&self, variable: usize) -> Option<usize> {
        place_in(self.place_of_variable.as_slice(), variable)
    }

    /// Whether a row is tight.
    pub fn is_tight(&self, row: usize) -> bool {
        self.place_of_row(row).is_some()
    }

    /// Whether a variable is basic.
    pub fn is_basic(&self, variable: usize) -> bool {
        self.place_of_variable(variable).is_some()
    }

    /// Makes another row tight, at the end.
    ///
    /// `AllocError` comes where a growth was refused, and then nothing changes.
    pub fn append_row(&mut self, row: usize) -> Result<(), AllocError> {
        append(&mut self.tight, &mut self.place_of_row, row)
    }

    /// Makes another variable basic, at the end.
    ///
    /// `AllocError` comes where a growth was refused, and then nothing changes.
    pub fn append_variable(&mut self, variable: usize) -> Result<(), AllocError> {
        append(&mut self.basic, &mut self.place_of_variable, variable)
    }

    /// Makes a row tight in the stead of the one at a place, if there is such a place.
    pub fn exchange_row(&mut self, place: usize, row: usize) {
        exchange(&mut self.tight, &mut self.place_of_row, place, row);
    }

    /// Makes a variable basic in the stead of the one at a place, if there is such a place.
    pub fn exchange_variable(&mut self, place: usize, variable: usize) {
        exchange(
            &mut self.basic,
            &mut self.place_of_variable,
            place,
            variable,
        );
    }

    /// Gives the row at a place slack, if there is such a place, and puts the last tight row there.
    pub fn take_out_row(&mut self, place: usize) {
        take_out(&mut self.tight, &mut self.place_of_row, place);
    }

    /// Puts the variable at a place to a bound, if there is such a place, and the last basic variable there.
    pub fn take_out_variable(&mut self, place: usize) {
        take_out(&mut self.basic, &mut self.place_of_variable, place);
    }
}
