//! How the tests ask: a line and the number of the fault that the reader gives it.

use linear::{Lit, Names, Var};
use proof_text::{ProofNames, Section, read_line, read_step};
use std::alloc::Global;

/// A line and the number of its fault, 0 where it has none.
#[derive(Clone, Copy, Debug)]
pub(crate) struct Case {
    pub(crate) line: &'static [u8],
    pub(crate) fault: u8,
}

/// The number of a line's fault among the steps.
pub(crate) fn fault_of(alloc: Global, line: &[u8]) -> u8 {
    let file = Names::new(alloc);
    let mut names = ProofNames::new(alloc, &file);
    match read_step(alloc, line, &mut names) {
        Ok(_) => 0,
        Err(fault) => fault.number(),
    }
}

/// The number of a line's fault at its section.
pub(crate) fn fault_at(alloc: Global, section: Section, line: &[u8]) -> u8 {
    let file = Names::new(alloc);
    let mut names = ProofNames::new(alloc, &file);
    match read_line(alloc, section, line, &mut names) {
        Ok(_) => 0,
        Err(fault) => fault.number(),
    }
}

pub(crate) fn lit(var: u32, negated: bool) -> Lit {
    Lit {
        var: Var(var),
        negated,
    }
}
