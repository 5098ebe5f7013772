//! Putting the marks of a sum in order: each variable with a coefficient once, and no other.
//!
//! A variable is marked each time its coefficient becomes other than 0, so one that cancels and comes back is marked again and again, and
//! one that has cancelled stays marked. What goes over all marks tidies them first, so it costs what is in the sum, and what was added
//! since the last time, and not all that was ever added. Few marks are sorted; where there are many, all variables are asked in their
//! order, which costs less for each.

ghost use Rattle.std.specs.Prelude.{◌≡◌, ◌+◌, ◌<◌, ◌≤◌, ◌++◌, ◌∷◌, [], IsTrue, OnErr, OnOk, length, vec_capacity, vec_len};
ghost use Rattle.std.specs.List.{filter};
ghost use Rattle.linear.specs.Largest.{most_names};
ghost use Rattle.accumulate.specs.Nets.{AreTidy, IsMarked, is_live};

use linear::MOST_NAMES;
use std::alloc::AllocError;

/// Whether a variable has a coefficient.
fn is_live(nets: &Vec<i128>, var: u32) -> bool
    ensures { result ≡ is_live nets.now.items var }
{
    let place = var as usize;
    place < nets.len() && nets[place] != 0
}

/// So many variables are asked as soon as one mark is sorted.
const ASKED_FOR_ONE: usize = 16;

/// Whether it costs less to ask all variables than to sort the marks.
fn are_many(touched: &Vec<u32>, nets: &Vec<i128>) -> bool
    ensures { IsTrue result → length nets.now.items ≤ most_names }
{
    nets.len() <= MOST_NAMES && nets.len() / ASKED_FOR_ONE < touched.len()
}

/// Marks a variable behind those before it, if it has a coefficient.
fn mark_live(touched: &mut Vec<u32>, nets: &Vec<i128>, var: u32)
    requires place { var < length nets.now.items }
    requires room { vec_len touched.old + 1 ≤ vec_capacity touched.old }
    ensures marks { touched.new.items ≡ touched.old.items ++ filter (is_live nets.now.items) (var ∷ []) }
    ensures more { vec_len touched.new ≤ vec_len touched.old + 1 }
    ensures room { vec_capacity touched.new ≡ vec_capacity touched.old }
{
    if is_live(nets, var) {
        touched.push_reserved(var);
    }
}

/// Marks all variables with a coefficient anew, each of which is asked. Where there is no memory for that, the marks stay as they are.
fn mark_anew(touched: &mut Vec<u32>, nets: &Vec<i128>) -> Result<(), AllocError>
    requires names { length nets.now.items ≤ most_names }
    ensures tidy { OnOk result (AreTidy touched.new.items nets.now.items) }
    ensures unchanged { OnErr result (touched.new.items ≡ touched.old.items) }
{
    touched.reserve(nets.len())?;
    touched.clear();
    for place in 0..nets.len() {
        mark_live(touched, nets, place as u32);
    }
    Ok(())
}

/// Puts the marks in order. Where there is no memory for that, those without a coefficient are gone, and the others stand as they stood.
fn sort_marks(touched: &mut Vec<u32>, nets: &Vec<i128>) -> Result<(), AllocError>
    requires marks { IsMarked touched.old.items nets.now.items }
    ensures marks { IsMarked touched.new.items nets.now.items }
    ensures tidy { OnOk result (AreTidy touched.new.items nets.now.items) }
{
    touched.retain(|var| is_live(nets, *var));
    touched.sort()?;
    touched.dedup();
    Ok(())
}

/// Puts the marks in order. Where there is no memory for that, each variable with a coefficient is marked still.
pub(crate) fn tidy(touched: &mut Vec<u32>, nets: &Vec<i128>) -> Result<(), AllocError>
    requires marks { IsMarked touched.old.items nets.now.items }
    ensures marks { IsMarked touched.new.items nets.now.items }
    ensures tidy { OnOk result (AreTidy touched.new.items nets.now.items) }
{
    if are_many(touched, nets) {
        mark_anew(touched, nets)
    } else {
        sort_marks(touched, nets)
    }
}
