//! Vectors of which few numbers are not 0, and which are summed up place by place.
//!
//! All numbers are kept, with a list of the places that were touched. So a vector costs what is touched of it, and not its length: it is kept from
//! call to call, and to clear it is to walk over that list.

use super::entry::Entry;
use super::fixed::Fixed;
use super::numbers::{Number, add_multiple, number_at, put_number};
use std::alloc::{AllocError, Global};

/// Numbers by place, 0 but where they are touched.
#[derive(Debug, Drop)]
pub struct Scattered<N> {
    numbers: Vec<N>,
    is_touched: Vec<bool>,
    touched: Vec<usize>,
}

impl<N: Number> Scattered<N> {
    /// A vector without places.
    pub fn new(alloc: Global) -> Self {
        Scattered {
            numbers: Vec::new(alloc),
            is_touched: Vec::new(alloc),
            touched: Vec::new(alloc),
        }
    }

    /// Gives it so many places, where it has fewer: the new ones hold 0.
    ///
    /// `AllocError` comes where a growth was refused; the numbers are as they were then, and some of the places may be there.
    pub fn widen(&mut self, count: usize) -> Result<(), AllocError> {
        for _ in self.numbers.len()..count {
            self.numbers.push(N::default())?;
        }
        for _ in self.is_touched.len()..count {
            self.is_touched.push(false)?;
        }
        Ok(())
    }

    /// Makes all numbers 0, and no place touched.
    pub fn clear(&mut self) {
        for place in &self.touched {
            put_number(self.numbers.as_mut_slice(), *place, N::default());
            if *place < self.is_touched.len() {
                self.is_touched[*place] = false;
            }
        }
        self.touched.clear();
    }

    /// The number at a place, 0 where there is no such place.
    pub fn value(&self, place: usize) -> N {
        number_at(self.numbers.as_slice(), place)
    }

    /// The numbers, place by place: for walks that look up many.
    pub fn numbers(&self) -> &[N] {
        self.numbers.as_slice()
    }

    /// The places that were touched since it was cleared, in the order in which they first were. Their numbers may be 0.
    pub fn touched(&self) -> &[usize] {
        self.touched.as_slice()
    }

    /// Notes that the number at a place changes.
    #[inline(always)]
    fn touch(&mut self, place: usize) -> Result<(), AllocError> {
        if place < self.is_touched.len() && !self.is_touched[place] {
            self.touched.push(place)?;
            self.is_touched[place] = true;
        }
        Ok(())
    }

    /// Puts a number at a place, if there is such a place.
    ///
    /// `AllocError` comes where a growth was refused: nothing changes then.
    pub fn set(&mut self, place: usize, number: N) -> Result<(), AllocError> {
        self.touch(place)?;
        put_number(self.numbers.as_mut_slice(), place, number);
        Ok(())
    }

    /// Adds another vector, times a factor. Entries at places that are not there are left out.
    ///
    /// `AllocError` comes where a growth was refused: no number changes then.
    pub fn add_multiple(&mut self, factor: Fixed, entries: &[Entry]) -> Result<(), AllocError> {
        // Two walks: numbers are added in one that has nothing else to look up.
        for entry in entries {
            self.touch(entry.place)?;
        }
        add_multiple(self.numbers.as_mut_slice(), factor, entries);
        Ok(())
    }
}
