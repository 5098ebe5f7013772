//! The rules of choice that the solver is tried with: none, the conflicts', and one that answers a variable that is set wherever
//! there is one.

use linear::{Lit, Problem, Var};
use search::{Activity, Brancher, First, Progress, Value};
use std::alloc::{AllocError, Global};

/// Answers the first variable that is set.
#[derive(Drop)]
struct Stubborn;

impl Brancher for Stubborn {
    fn begin(&mut self, _problem: &Problem) {}

    fn pick(&mut self, values: &[Value]) -> Option<Lit> {
        for (place, value) in values.iter().enumerate() {
            if !matches!(value, Value::Free) {
                let number = u32::try_from(place).ok()?;
                return Some(Lit {
                    var: Var(number),
                    negated: false,
                });
            }
        }
        None
    }

    fn met(&mut self, _variables: &[Var]) {}

    fn conflict(&mut self, _variables: &[Var]) {}

    fn unassigned(&mut self, _literal: Lit) {}

    fn solution(&mut self, _literals: &[Lit]) {}

    fn restarted(&mut self) {}

    fn lean(&mut self, _literals: &[Lit]) {}

    fn prefer(&mut self, _literals: &[Lit]) {}

    fn progress(&mut self, _progress: Progress) {}
}

/// A rule of choice.
#[derive(Clone, Copy, Debug, PartialEq, Eq)]
pub(crate) enum Rule {
    First,
    Activity,
    Stubborn,
}

pub(crate) const RULES: [Rule; 3] = [Rule::First, Rule::Activity, Rule::Stubborn];

/// A brancher that chooses by a rule.
pub(crate) fn brancher(alloc: Global, rule: Rule) -> Result<Box<dyn Brancher>, AllocError> {
    Ok(match rule {
        Rule::First => Box::new(alloc, First)?,
        Rule::Activity => Box::new(alloc, Activity::new(alloc))?,
        Rule::Stubborn => Box::new(alloc, Stubborn)?,
    })
}
