//! Tests of the kernel and of verdicts, by public calls alone. They stand above the crates that they test, since a crate with
//! tests of its own is proved twice. What a contract says is not tested again: these show that calls succeed with ample
//! memory, and what becomes of whole texts.
#![tactic(auto)]

#[cfg(test)]
mod agreement;
#[cfg(test)]
mod answers;
#[cfg(test)]
mod blocks;
#[cfg(test)]
mod claims;
#[cfg(test)]
mod damaged;
#[cfg(test)]
mod kernels;
#[cfg(test)]
mod pieces;
#[cfg(test)]
mod redundance;
#[cfg(test)]
mod rows;
#[cfg(test)]
mod solution_steps;
#[cfg(test)]
mod subproofs;
#[cfg(test)]
mod verdicts;
