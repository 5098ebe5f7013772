//! Which live constraint may be a duplicate of another one: for each fingerprint the newest constraint that has it.
//!
//! A symmetry makes each constraint that it touches another live one, and a proof may repeat a constraint as often as it likes: what is
//! the same is found here, without propagation and without a look at all that share a literal with it. No clause speaks of what is found:
//! whoever asks compares the two. So ids are entered when something is asked, and a proof that never asks pays nothing.

use normal_form::Normal;
use propagate::Id;
use std::alloc::{AllocError, Global};
use std::collections::HashMap;

/// What spreads the bits of a fingerprint: an odd number near 2^64 divided by the golden ratio.
const MULTIPLIER: u64 = 0x9e37_79b9_7f4a_7c15;

/// Ids of live constraints by fingerprint.
#[derive(Drop)]
pub(crate) struct Duplicates {
    newest: HashMap<u64, Id>,
    /// Live constraints with ids below this one were looked at.
    end: u64,
}

impl Duplicates {
    /// None is entered.
    pub(crate) fn new(alloc: Global) -> Self {
        Duplicates {
            newest: HashMap::new(alloc),
            end: 0,
        }
    }

    /// The first id that was not looked at.
    pub(crate) fn end(&self) -> u64 {
        self.end
    }

    /// Enters a constraint under the next id to be looked at, or behind that.
    pub(crate) fn enter(&mut self, constraint: &Normal, id: Id) -> Result<(), AllocError> {
        self.newest.insert(fingerprint(constraint), id)?;
        self.end = u64::from(id) + 1;
        Ok(())
    }

    /// All ids below one were looked at. Where memory runs out on the way, they are up to the last one that was entered.
    pub(crate) fn pass(&mut self, end: u64) {
        self.end = end;
    }

    /// Forgets a constraint that is taken out, where it is the newest one of its fingerprint that was entered.
    pub(crate) fn forget(&mut self, constraint: &Normal, id: Id) {
        if u64::from(id) >= self.end {
            return;
        }
        let print = fingerprint(constraint);
        if let Some(newest) = self.newest.get(&print) {
            if *newest == id {
                self.newest.remove(&print);
            }
        }
    }

    /// Ids from one on are given once more.
    pub(crate) fn go_back(&mut self, end: u64) {
        self.end = self.end.min(end);
    }

    /// The newest constraint with the fingerprint of another one.
    pub(crate) fn of(&self, constraint: &Normal) -> Option<Id> {
        let id = self.newest.get(&fingerprint(constraint))?;
        Some(*id)
    }
}

/// A number that equal constraints have in common, and others seldom.
fn fingerprint(constraint: &Normal) -> u64 {
    let mut print = low_half(constraint.degree());
    for place in 0..constraint.len() {
        let term = constraint.term(place);
        print = mixed(print, term.literal().code() as u64);
        print = mixed(print, low_half(term.coef));
    }
    print
}

/// The lower 64 bits of a number.
fn low_half(number: u128) -> u64 {
    (number % (1 << 64)) as u64
}

/// A fingerprint with one number more.
fn mixed(print: u64, number: u64) -> u64 {
    let product = (print ^ number).wrapping_mul(MULTIPLIER);
    product ^ (product >> 32)
}
