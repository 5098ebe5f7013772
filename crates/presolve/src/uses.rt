//! Which literals stand somewhere, in a table by variable.
//!
//! A literal whose opposite stands nowhere can be made true without harm, and the constraints need be read only once to
//! know it of all literals. An objective is read as the constraint that asks for less of it: what must not be made false
//! for the sake of the objective stands there.

ghost use Rattle.std.specs.Prelude.{◌≡◌, ◌||◌, ◌+◌, ◌<◌, ◌≤◌, ℕ, Bool, not, pos, ◌≤ℤ◌, OnOk, length, unsigned_abs};
ghost use Rattle.normal_form.specs.Normal.{largest_sum, only, same_sign};
ghost use Rattle.normal_form.specs.NormalOf.{size_sum};
ghost use Rattle.presolve.specs.Fixing.{price};
ghost use Rattle.presolve.specs.Standing.{IsAbsent, StandsNowhere};
ghost use Rattle.presolve.specs.Uses.{side, stands, Notes, NotesForm};

use linear::{Problem, Relation, Seq, Signed, Term, Var};
use normal_form::{Normal, Normalizer};
use std::alloc::{AllocError, Global};

/// Which literals of a variable stand.
#[derive(Clone, Copy, Debug, PartialEq, Eq)]
pub(crate) struct Uses {
    pub(crate) plain: bool,
    pub(crate) negated: bool,
}

impl Uses {
    /// Neither literal stands.
    pub(crate) const NONE: Uses = Uses {
        plain: false,
        negated: false,
    };

    /// The same, where the literal of a sign stands too.
    fn with(self, negated: bool) -> Uses
        ensures { (s : Bool) → side result s ≡ side self s || same_sign s negated }
    {
        Uses {
            plain: self.plain || !negated,
            negated: self.negated || negated,
        }
    }
}

/// Notes a literal, where the table has its variable.
fn note(table: &mut [Uses], variable: Var, negated: bool)
    ensures { (v : ℕ) (s : Bool) → v < length table.old → stands table.new v s ≡ stands table.old v s || only v s (variable.0) negated }
{
    let place = variable.0 as usize;
    if place < table.len() {
        table[place] = table[place].with(negated);
    }
}

/// Notes the literals of a normal constraint.
fn note_form(table: &mut [Uses], form: &Normal)
    ensures { NotesForm form.now table.old table.new }
{
    for place in 0..form.len() {
        let term = form.term(place);
        note(table, term.var, term.negated);
    }
}

/// Notes the literals of the normal constraints of a signed one.
fn note_forms(
    normalizer: &mut Normalizer,
    table: &mut [Uses],
    constraint: &Signed,
) -> Result<(), AllocError>
    requires small { size_sum constraint.now.terms + unsigned_abs constraint.now.right ≤ largest_sum }
    ensures { OnOk result (Notes (λ v s. IsAbsent v s constraint.now) table.old table.new) }
{
    match constraint.relation {
        Relation::AtLeast => note_form(table, &normalizer.normalize_fitting(constraint)?),
        Relation::Equal => {
            let (at_least, at_most) = normalizer.both_fitting(constraint)?;
            note_form(table, &at_least);
            note_form(table, &at_most);
        }
    }
    Ok(())
}

/// Notes the literals of the normal constraints of a problem's file.
pub(crate) fn note_file(
    alloc: Global,
    table: &mut [Uses],
    problem: &Problem,
) -> Result<(), AllocError>
    ensures { OnOk result (Notes (λ v s. StandsNowhere problem.now.constraints v s) table.old table.new) }
{
    let mut normalizer = Normalizer::new(alloc);
    let constraints = problem.constraints();
    let mut constraint = Signed::new(alloc);
    for place in 0..constraints.len() {
        constraints.copy_to(place, &mut constraint)?;
        note_forms(&mut normalizer, table, &constraint)?;
    }
    Ok(())
}

/// Notes the literals whose falsehood would raise an objective.
pub(crate) fn note_objective(
    alloc: Global,
    table: &mut [Uses],
    objective: &[Term],
) -> Result<(), AllocError>
    requires small { size_sum objective.now ≤ largest_sum }
    ensures { OnOk result (Notes (λ v s. price objective.now v (not s) ≤ℤ pos 0) table.old table.new) }
{
    let terms = Vec::from_slice(alloc, objective)?;
    let equality = Signed {
        terms: Seq::from_vec(terms),
        relation: Relation::Equal,
        right: 0,
    };
    let (_, less) = Normalizer::new(alloc).both_fitting(&equality)?;
    note_form(table, &less);
    Ok(())
}
