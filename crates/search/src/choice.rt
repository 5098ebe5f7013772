//! The choice of the literal that is decided next.
//!
//! A brancher is not believed: what it answers is looked up in the table of values, and replaced where the table does not have
//! its variable as a free one. So no decision ever stands beside its opposite, which is all that a search needs to know.

ghost use Rattle.std.specs.Prelude.{◌≡◌, ◌↔◌, ◌<◌, IfSome, IsTrue, None, length};
ghost use Rattle.search.specs.Values.{IsFree, NoneIsFree};

use branching::{Brancher, Value};
use linear::{Lit, Var};
use std::alloc::{AllocError, Global};

/// Whether a variable is free.
pub(crate) fn is_free(values: &[Value], variable: Var) -> bool
    ensures free { IsTrue result ↔ IsFree values.now (variable.0) }
    ensures inside { IsTrue result → variable.0 < length values.now }
{
    let place = variable.0 as usize;
    if place < values.len() {
        matches!(values[place], Value::Free)
    } else {
        false
    }
}

/// Some literals more that are free, as a brancher picks them, each once where it forgets what it has picked.
pub(crate) fn pick_more(
    alloc: Global,
    brancher: &mut Box<dyn Brancher>,
    values: &[Value],
    count: usize,
) -> Result<Vec<Lit>, AllocError> {
    let mut more = Vec::new(alloc);
    for _ in 0..count {
        match brancher.pick(values) {
            Some(literal) if is_free(values, literal.var) => more.push(literal)?,
            _ => return Ok(more),
        }
    }
    Ok(more)
}

/// The first free variable.
fn first_free(values: &[Value], count: u32) -> Option<Var>
    ensures free { IfSome result (λ v. IsFree values.now (v.0)) }
    ensures inside { IfSome result (λ v. v.0 < length values.now) }
    ensures none { result ≡ None → NoneIsFree values.now count }
{
    for number in 0..count {
        if is_free(values, Var(number)) {
            return Some(Var(number));
        }
    }
    None
}

/// The literal to be decided: the one that was picked, or else the first free variable set to false. None only where none of so many
/// variables is free.
pub(crate) fn choose(values: &[Value], count: u32, picked: Option<Lit>) -> Option<Lit>
    ensures free { IfSome result (λ l. IsFree values.now (l.var.0)) }
    ensures inside { IfSome result (λ l. l.var.0 < length values.now) }
    ensures none { result ≡ None → NoneIsFree values.now count }
{
    if let Some(literal) = picked {
        if is_free(values, literal.var) {
            return Some(literal);
        }
    }
    let var = first_free(values, count)?;
    Some(Lit { var, negated: true })
}
