//! An assignment at one bit a variable. A proof may log thousands of solutions, each over all variables, and all of them are kept
//! until the best one is asked for: at a byte a variable they would be most of what a kernel holds.
//!
//! A word stands for its values by repeated halving, so it is made by doubling, from the last value to the first.

ghost use Rattle.std.specs.Prelude.{◌≡◌, ◌++◌, ◌<◌, ◌≤◌, ◌^◌, IfOk, OnOk, length};
ghost use Rattle.solutions.specs.Packed.{word_values};

use linear::Assignment;
use std::alloc::{AllocError, Global};
use std::marker::Model;

/// How many values stand in a word.
const WORD_VALUES: usize = 64;

/// An assignment at one bit a variable. The bits of the last word that no variable has are of no account.
#[derive(Drop)]
pub struct PackedAssignment {
    words: Vec<u64>,
    length: usize,
}

impl Model for PackedAssignment {
    ghost use Rattle.std.specs.Prelude.{Bool, List};
    ghost use Rattle.solutions.specs.Packed.{packed_values};

    ghost Value = { List Bool };

    ghost view = { λ p. packed_values p.words.items p.length };
}

impl PackedAssignment {
    /// Packs an assignment.
    pub fn pack(alloc: Global, assignment: &Assignment) -> Result<Self, AllocError>
        ensures { IfOk result (λ packed. packed ≡ assignment.now) }
    {
        let values = assignment.as_slice();
        let mut words = Vec::with_capacity(alloc, values.len().div_ceil(WORD_VALUES))?;
        for chunk in values.chunks(WORD_VALUES) {
            words.push(word_of(chunk))?;
        }
        Ok(PackedAssignment {
            words,
            length: values.len(),
        })
    }

    /// The assignment that was packed.
    pub fn unpack(&self, alloc: Global) -> Result<Assignment, AllocError>
        ensures { IfOk result (λ assignment. assignment ≡ self.now) }
    {
        let mut values = Vec::with_capacity(alloc, self.length)?;
        for word in self.words.as_slice() {
            let count = WORD_VALUES.min(self.length - values.len());
            append_values(*word, count, &mut values)?;
        }
        Ok(Assignment::from_vec(values))
    }
}

/// The word that stands for at most 64 values.
fn word_of(values: &[bool]) -> u64
    requires { length values.now ≤ 64 }
    ensures values { word_values (length values.now) result ≡ values.now }
    ensures small { result < 2 ^ length values.now }
{
    match values {
        [] => 0,
        [first, rest @ ..] => 2 * word_of(rest) + u64::from(*first),
    }
}

/// Appends the first values of a word to those of the words before.
fn append_values(word: u64, count: usize, values: &mut Vec<bool>) -> Result<(), AllocError>
    ensures { OnOk result (values.new.items ≡ values.old.items ++ word_values count word) }
{
    let mut rest = word;
    for _ in 0..count {
        values.push(rest % 2 == 1)?;
        rest /= 2;
    }
    Ok(())
}
