//! The text of a plain problem, in the format of the competition.

use super::plain::{PlainConstraint, PlainProblem, PlainTerm};
use std::alloc::{AllocError, Global};

fn spell_terms(text: &mut String, terms: &[PlainTerm]) -> Result<(), AllocError> {
    for term in terms {
        let sign = if term.negated { "~" } else { "" };
        write!(text, "{} {sign}x{} ", term.coef, term.place)?;
    }
    Ok(())
}

fn spell_constraint(text: &mut String, constraint: &PlainConstraint) -> Result<(), AllocError> {
    spell_terms(text, constraint.terms.as_slice())?;
    let relation = if constraint.is_equality { "=" } else { ">=" };
    write!(text, "{relation} {} ;", constraint.right)?;
    text.push_str("\n")
}

/// The text of a problem, whose variables are x and their places.
pub(crate) fn text_of(alloc: Global, problem: &PlainProblem) -> Result<String, AllocError> {
    let mut text = String::new(alloc);
    if let Some(objective) = &problem.objective {
        text.push_str("min: ")?;
        spell_terms(&mut text, objective.as_slice())?;
        text.push_str(";\n")?;
    }
    for constraint in &problem.constraints {
        spell_constraint(&mut text, constraint)?;
    }
    Ok(text)
}
