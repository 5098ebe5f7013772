//! Normal constraints as keys of a set, so that one is found among those of a file without a look at all of them.

ghost use Rattle.std.specs.Prelude.{◌≡◌, Contains, IfOk, IfSome, IsTrue};
ghost use Rattle.normal_form.specs.Normal.{Rises};
ghost use Rattle.presolve.specs.Forms.{constraint_of, terms_exchanged};
ghost use Rattle.presolve.specs.Swapping.{IsExchange, exchanged};

use linear::Var;
use normal_form::{Normal, NormalTerm};
use std::alloc::{AllocError, Global};

/// A normal constraint: its terms in rising order of their variables, and its degree.
#[derive(Debug, Drop, PartialEq, Eq, Hash)]
pub(crate) struct Form {
    pub(crate) terms: Vec<NormalTerm>,
    pub(crate) degree: u128,
}

/// The terms of a normal constraint.
fn terms_of(alloc: Global, normal: &Normal) -> Result<Vec<NormalTerm>, AllocError>
    ensures { IfOk result (λ terms. terms.items ≡ normal.now.terms) }
{
    let mut terms = Vec::with_capacity(alloc, normal.len())?;
    for place in 0..normal.len() {
        terms.push(normal.term(place))?;
    }
    Ok(terms)
}

/// The variable that stands in the place of another one where two change places.
fn in_exchange(x: Var, y: Var, var: Var) -> Var
    ensures { result.0 ≡ exchanged (x.0) (y.0) (var.0) }
{
    if var == x {
        y
    } else if var == y {
        x
    } else {
        var
    }
}

/// The terms with each of two variables in the place of the other.
fn exchange(
    alloc: Global,
    terms: &[NormalTerm],
    x: Var,
    y: Var,
) -> Result<Vec<NormalTerm>, AllocError>
    ensures { IfOk result (λ made. made.items ≡ terms_exchanged (x.0) (y.0) terms.now) }
{
    let mut made = Vec::with_capacity(alloc, terms.len())?;
    for term in terms {
        made.push(NormalTerm {
            coef: term.coef,
            var: in_exchange(x, y, term.var),
            negated: term.negated,
        })?;
    }
    Ok(made)
}

impl Form {
    /// The term of a variable, sought by halving, since terms rise.
    fn term_of(&self, variable: Var) -> Option<NormalTerm>
        ensures { IfSome result (λ t. Contains self.now.terms.items t × (t.var.0 ≡ variable.0)) }
    {
        let mut low = 0;
        let mut high = self.terms.len();
        while low < high {
            let middle = low + (high - low) / 2;
            if self.terms[middle].var.0 < variable.0 {
                low = middle + 1;
            } else {
                high = middle;
            }
        }
        let term = *self.terms.get(low)?;
        if term.var == variable {
            Some(term)
        } else {
            None
        }
    }

    /// Whether two variables have terms that are alike: then it stays as it is where they change places, and nothing has to be
    /// copied to see that.
    pub(crate) fn has_alike(&self, x: Var, y: Var) -> bool
        requires { Rises 0 self.now.terms.items }
        ensures { IsTrue result → IsExchange (x.0) (y.0) (constraint_of self.now) (constraint_of self.now) }
    {
        let (Some(one), Some(other)) = (self.term_of(x), self.term_of(y)) else {
            return false;
        };
        one.coef == other.coef && one.negated == other.negated
    }

    /// A normal constraint as a key.
    pub(crate) fn of(alloc: Global, normal: &Normal) -> Result<Form, AllocError>
        ensures { IfOk result (λ form. constraint_of form ≡ normal.now) }
    {
        Ok(Form {
            terms: terms_of(alloc, normal)?,
            degree: normal.degree(),
        })
    }

    /// What it becomes where two variables change places.
    pub(crate) fn exchange(&self, alloc: Global, x: Var, y: Var) -> Result<Form, AllocError>
        requires { Rises 0 self.now.terms.items }
        ensures exchange { IfOk result (λ form. IsExchange (x.0) (y.0) (constraint_of self.now) (constraint_of form)) }
        ensures rises { IfOk result (λ form. Rises 0 form.terms.items) }
    {
        let mut terms = exchange(alloc, self.terms.as_slice(), x, y)?;
        terms.sort_by_key(|term| term.var.0)?;
        Ok(Form {
            terms,
            degree: self.degree,
        })
    }
}
