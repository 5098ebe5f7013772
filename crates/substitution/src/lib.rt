//! Substitutions of literals and truth values for variables, the witnesses of redundance steps, and covering.
#![tactic(auto)]

mod application;
mod becoming;
pub mod cases;
mod composition;
mod covering;
mod image;
pub mod laws;
mod lookup;
mod objective;
mod part;
mod substitution;

pub use application::apply;
pub use becoming::becomes_beyond;
pub use composition::compose;
pub use covering::covers;
pub use image::Image;
pub use objective::{NetObjective, objective_goal};
pub use substitution::Substitution;
