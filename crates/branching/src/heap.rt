//! Variables in a binary heap, one of the highest score on top.
//!
//! A search asks for a free variable of the highest score at each decision, and scores rise at each conflict: a walk over all
//! variables for each choice would cost as much as the file is long, a heap costs its depth. A place that is out of the
//! tables is passed over, so nothing has to be promised of what is asked: a heap that was wrong would choose badly, and no more.

use std::alloc::{AllocError, Global};

/// Where a variable stands that is not in the heap.
const NOWHERE: usize = usize::MAX;

/// Variables by their numbers, each at most once; of two, the one with the higher score stands above, the first among equals.
#[derive(Drop)]
pub(crate) struct Heap {
    variables: Vec<u32>,
    /// Where each variable stands in the heap.
    places: Vec<usize>,
}

impl Heap {
    /// No variable.
    pub(crate) fn new(alloc: Global) -> Self {
        Heap {
            variables: Vec::new(alloc),
            places: Vec::new(alloc),
        }
    }

    /// How many variables are in the heap.
    pub(crate) fn len(&self) -> usize {
        self.variables.len()
    }

    /// Room for one variable more, which comes to stand last.
    pub(crate) fn grow(&mut self) -> Result<(), AllocError> {
        let Ok(number) = u32::try_from(self.places.len()) else {
            return Err(AllocError);
        };
        self.variables.push(number)?;
        self.places.push(self.variables.len() - 1)?;
        Ok(())
    }

    /// Whether the variable at a place goes before the one at another.
    fn goes_before(&self, place: usize, other: usize, scores: &[u64]) -> bool {
        let (Some(one), Some(two)) = (self.variables.get(place), self.variables.get(other)) else {
            return false;
        };
        let score = score_of(scores, *one);
        let against = score_of(scores, *two);
        score > against || (score == against && *one < *two)
    }

    /// Notes where the variable at a place stands.
    fn note(&mut self, place: usize) {
        if let Some(variable) = self.variables.get(place) {
            let number = *variable as usize;
            if number < self.places.len() {
                self.places[number] = place;
            }
        }
    }

    /// Has the variables at two places change them.
    fn exchange(&mut self, place: usize, other: usize) {
        let count = self.variables.len();
        if place < count && other < count {
            self.variables.swap(place, other);
            self.note(place);
            self.note(other);
        }
    }

    /// Moves the variable at a place up as far as it goes.
    fn rise(&mut self, place: usize, scores: &[u64]) {
        let mut place = place;
        while place > 0 {
            let above = (place - 1) / 2;
            if !self.goes_before(place, above, scores) {
                return;
            }
            self.exchange(place, above);
            place = above;
        }
    }

    /// The place below another one whose variable goes before the other's.
    fn first_below(&self, place: usize, scores: &[u64]) -> usize {
        let left = place.saturating_mul(2).saturating_add(1);
        let right = left.saturating_add(1);
        if self.goes_before(right, left, scores) {
            right
        } else {
            left
        }
    }

    /// Moves the variable on top down as far as it goes. A heap is never deeper than a place has bits.
    fn sink(&mut self, scores: &[u64]) {
        let mut place = 0;
        for _ in 0..usize::BITS {
            let below = self.first_below(place, scores);
            if !self.goes_before(below, place, scores) {
                return;
            }
            self.exchange(place, below);
            place = below;
        }
    }

    /// Puts a variable back, unless it is there.
    pub(crate) fn insert(&mut self, number: u32, scores: &[u64]) -> Result<(), AllocError> {
        if self.places.get(number as usize) != Some(&NOWHERE) {
            return Ok(());
        }
        self.variables.push(number)?;
        let last = self.variables.len() - 1;
        self.note(last);
        self.rise(last, scores);
        Ok(())
    }

    /// The score of a variable rose.
    pub(crate) fn raised(&mut self, number: u32, scores: &[u64]) {
        if let Some(place) = self.places.get(number as usize) {
            let place = *place;
            if place < self.variables.len() {
                self.rise(place, scores);
            }
        }
    }

    /// Takes the variable on top away.
    pub(crate) fn take(&mut self, scores: &[u64]) -> Option<u32> {
        let last = self.variables.len().checked_sub(1)?;
        self.exchange(0, last);
        let number = self.variables.pop()?;
        if (number as usize) < self.places.len() {
            self.places[number as usize] = NOWHERE;
        }
        self.sink(scores);
        Some(number)
    }
}

/// The score of a variable; 0 where none is kept.
fn score_of(scores: &[u64], number: u32) -> u64 {
    match scores.get(number as usize) {
        Some(score) => *score,
        None => 0,
    }
}
