//! Tests of the crates `relaxation` and `bounding` by their public calls alone. No clause says that a relaxation's answer is right: so
//! 2,000 of them, made by a fixed rule, are judged here by whole numbers that are summed up exactly and by listing all assignments,
//! with no code in common; the bound of a large one is known, and of a small one the numbers by which its rows make up a variable. That an adviser hands out lines at all, and not always nothing, is shown on small problems.
#![tactic(auto)]

#[cfg(test)]
mod advice;
#[cfg(test)]
mod answers;
#[cfg(test)]
mod cut_rounds;
#[cfg(test)]
mod large;
#[cfg(test)]
mod made;
#[cfg(test)]
mod plain;
#[cfg(test)]
mod tableau_rows;
