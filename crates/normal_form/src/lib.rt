//! Normal constraints of cutting planes: each variable at most once, coefficients above 0, a degree. How a
//! signed constraint is put into that form, its negation, and where it holds.
#![tactic(auto)]

mod builder;
pub mod cases;
mod conversion;
mod degrees;
mod fault;
mod in_place;
pub mod laws;
mod merging;
mod negation;
mod normal;
mod opposites;
mod plain;
mod term;
mod terms;
mod truth;
mod wide_term;

pub use builder::NormalBuilder;
pub use conversion::{Normalizer, both, normalize, normalize_fitting};
pub use fault::CutFault;
pub use negation::{negate, negate_above_zero};
pub use normal::{LARGEST_SUM, Normal};
pub use term::NormalTerm;
pub use truth::{holds, is_contradiction};
