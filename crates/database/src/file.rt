//! The constraints of a problem's file as the first live ones: one of a `>=`, and two of an equality, the `>=` direction
//! first. They take the ids 1, 2, .. in order.

ghost use Rattle.std.specs.Prelude.{◌+◌, ◌≤◌, IfOk, OnOk, unsigned_abs};
ghost use Rattle.linear.specs.Limits.{IsWithin};
ghost use Rattle.normal_form.specs.Normal.{largest_sum};
ghost use Rattle.normal_form.specs.NormalOf.{size_sum};
ghost use Rattle.proof_rules.specs.State.{id_limit};
ghost use Rattle.database.specs.File.{AreOfFile, AddsForms};

use super::database::Database;
use linear::{Problem, Relation, Signed};
use normal_form::Normalizer;
use propagate::Propagator;
use std::alloc::{AllocError, Global};

/// The constraints of a problem's file under their ids.
pub fn constraints_of_file<P: Propagator>(
    alloc: Global,
    problem: &Problem,
) -> Result<Database<P>, AllocError>
    ensures file { IfOk result (AreOfFile problem.now.constraints) }
    ensures within { IsWithin problem.now }
{
    let mut database = Database::empty(alloc);
    let mut normalizer = Normalizer::new(alloc);
    let constraints = problem.constraints();
    let mut constraint = Signed::new(alloc);
    for place in 0..constraints.len() {
        constraints.copy_to(place, &mut constraint)?;
        push_forms(&mut normalizer, &mut database, &constraint)?;
    }
    Ok(database)
}

/// Adds the normal constraints of one constraint.
fn push_forms<P: Propagator>(
    normalizer: &mut Normalizer,
    database: &mut Database<P>,
    constraint: &Signed,
) -> Result<(), AllocError>
    requires small { size_sum constraint.now.terms + unsigned_abs constraint.now.right ≤ largest_sum }
    requires room { database.old.next + 2 ≤ id_limit }
    ensures { OnOk result (AddsForms constraint.now database.old database.new) }
{
    match constraint.relation {
        Relation::AtLeast => {
            database.push(normalizer.normalize_fitting(constraint)?)?;
        }
        Relation::Equal => {
            let (at_least, at_most) = normalizer.both_fitting(constraint)?;
            database.push(at_least)?;
            database.push(at_most)?;
        }
    }
    Ok(())
}
