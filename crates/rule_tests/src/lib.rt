//! Tests of the crates `normal_form`, `cut_rules`, `substitution` and `propagate` by their public calls alone, with
//! ample memory. They show that calls succeed and what their answers are on constraints that are worked out by hand;
//! that all answers are right is proved in the crates themselves. They stand in a crate of their own since a crate
//! that has tests is proved once more for them.
#![tactic(auto)]

#[cfg(test)]
mod forms;
#[cfg(test)]
mod propagation;
#[cfg(test)]
mod rules;
#[cfg(test)]
mod substitutions;
#[cfg(test)]
mod support;
