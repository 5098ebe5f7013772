//! The linear relaxation of a 0-1 problem, as an adviser that may be wrong.
//!
//! Where variables may take all values from 0 to 1, a dual simplex tells fast that constraints contradict each other, or that no solution is
//! better than the best one, and by which multiples the constraints sum up to one that is false (Farkas). Whoever asks forms that sum
//! exactly and judges it. So no clause says that an answer is right; what is proved is that every call returns, that no index is out of
//! range, and that no number overflows or is divided by 0.
//!
//! A step asks what is violated most, forms its row and looks for what enters (crate `tableau`); `pivot` then exchanges both, in the basis and its inverse
//! (crate `factorisation`), in the point and in the duals. `simplex` has the rounds of a call, `following` how it begins where domains
//! alone have changed, `ends` how it ends, `multipliers` what is handed out. Of `fractional` cuts are made, and `row_exchange` lets them go
//! again.
#![tactic(auto)]

mod ends;
mod following;
mod fractional;
mod multipliers;
mod pivot;
mod relaxation;
mod row_exchange;
mod simplex;

pub use fixed_point::Fixed;
pub use fractional::FractionalMultiplier;
pub use multipliers::{Multiplier, Row, Source, WholeMultiplier, whole_multipliers};
pub use relaxation::{End, Limits, Relaxation};
