//! Arithmetic in fixed point, and vectors of such numbers.
//!
//! A linear program is solved in numbers that repeat exactly on every machine: `fixed` has them, and `sums` keeps products of them whole until it
//! rounds once. What both have in common is a number of a vector (`numbers`). A vector of which few numbers are not 0 is a list of entries
//! (`entry`), or `scattered` where it is summed up. `work` counts multiplications, which is how a solver of such programs knows what it spent.
//!
//! Advice is reckoned here and no answer: no clause says that a result is near the true one, but none overflows, divides by 0 or indexes out
//! of range.
#![tactic(auto)]

mod entry;
mod fixed;
mod numbers;
mod scattered;
mod sums;
mod work;

pub use entry::Entry;
pub use fixed::Fixed;
pub use numbers::{Number, add_multiple, number_at, put_number};
pub use scattered::Scattered;
pub use sums::Sum;
pub use work::Work;
