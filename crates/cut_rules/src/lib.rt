//! The rules of cutting planes (Cook, Coullard and Turán) on normal constraints.
#![tactic(auto)]

mod addition;
mod axioms;
pub mod cases;
mod changes;
mod division;
pub mod laws;
mod merging;
mod multiplication;
mod saturation;
mod weakening;

pub use addition::add;
pub use axioms::axiom;
pub use division::{divide, divide_in_place, divided_up};
pub use multiplication::{multiply, product_fits};
pub use saturation::{saturate, saturate_in_place};
pub use weakening::weaken;
