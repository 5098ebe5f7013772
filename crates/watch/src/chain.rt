//! A chain of forced literals with the places of the constraints that force them.

/// A forced literal, and the place of a constraint that forces it.
#[derive(Clone, Copy, Debug, PartialEq, Eq)]
pub(crate) struct Step {
    pub(crate) literal: linear::Lit,
    pub(crate) place: usize,
}

/// A chain, and the place of a constraint that is falsified then, if there is one.
#[derive(Debug, Drop)]
pub(crate) struct Chain {
    pub(crate) steps: Vec<Step>,
    pub(crate) falsified: Option<usize>,
}
