//! Cubes: constraints that ask for all their literals.
//!
//! The negation of a clause is one. It forces each of its literals, whatever else is assigned, and once all are true it says nothing
//! more. So beside others it need not stand at a place: its literals are assigned as given ones are, and when they are backtracked,
//! nothing of it is left. To enter it would cost a copy and an entry for each literal, and as much to take it off again.

ghost use Rattle.std.specs.Prelude.{◌≡◌, ◌<◌, ◌≤◌, ◌∷◌, [], All, IfOk, IsTrue, length, slice_index_or};
ghost use Rattle.normal_form.specs.declared.term.NormalTerm.{NormalTerm};
ghost use Rattle.normal_form.specs.Normal.{variable_bound};
ghost use Rattle.propagate.specs.Chain.{IsConflict};
ghost use Rattle.propagate.specs.Passes.{literal_of};
ghost use Rattle.propagate.specs.Slack.{IsFalsified};
ghost use Rattle.watch.specs.Cubes.{AreCubesEnd, IsAllAssigned, IsCube, IsCubeEnd, IsGivenBy, IsTermEnd};

use ledger::Ledger;
use normal_form::Normal;
use std::alloc::{AllocError, Global};

/// Whether each of some constraints is a cube.
pub(crate) fn are_cubes(constraints: &[Normal]) -> bool
    ensures { IsTrue result → All IsCube constraints.now }
{
    for constraint in constraints {
        if constraint.sum() != constraint.degree() {
            return false;
        }
    }
    true
}

/// Assigns the literal of a cube's term, unless its opposite is; whether that is, and the cube falsified.
fn give_term(ledger: &mut Ledger, cube: &Normal, index: usize) -> bool
    requires cube { IsCube cube.now }
    requires index { index < length cube.now.terms }
    requires variables { variable_bound cube.now.terms ≤ ledger.old.variables }
    ensures variables { ledger.new.variables ≡ ledger.old.variables }
    ensures given { IsGivenBy (cube.now ∷ []) ledger.old ledger.new }
    ensures end { IsTermEnd ledger.new.assigned cube.now index result }
{
    let literal = cube.term(index).literal();
    if ledger.leaves_free(literal) {
        ledger.assign(literal, None);
        return false;
    }
    ledger.assigns(literal.opposite())
}

/// A literal whose opposite watches fewer clauses than this is given before the others.
const FEW: usize = 4;

/// Assigns the literal of a cube's term where its opposite watches few clauses, unless its opposite is assigned; whether that is so, and the cube
/// falsified.
fn give_short(ledger: &mut Ledger, cube: &Normal, index: usize) -> bool
    requires cube { IsCube cube.now }
    requires index { index < length cube.now.terms }
    requires variables { variable_bound cube.now.terms ≤ ledger.old.variables }
    ensures variables { ledger.new.variables ≡ ledger.old.variables }
    ensures given { IsGivenBy (cube.now ∷ []) ledger.old ledger.new }
    ensures falsified { IsTrue result → IsFalsified ledger.new.assigned cube.now }
{
    let fallen = cube.term(index).literal().opposite();
    if ledger.watch_count(fallen) < FEW {
        return give_term(ledger, cube, index);
    }
    false
}

/// Assigns the literals of a cube whose opposites watch few clauses, up to one whose opposite is assigned; whether there is one, and the cube
/// falsified.
fn give_short_ones(ledger: &mut Ledger, cube: &Normal) -> bool
    requires cube { IsCube cube.now }
    requires variables { variable_bound cube.now.terms ≤ ledger.old.variables }
    ensures variables { ledger.new.variables ≡ ledger.old.variables }
    ensures given { IsGivenBy (cube.now ∷ []) ledger.old ledger.new }
    ensures falsified { IsTrue result → IsFalsified ledger.new.assigned cube.now }
{
    for index in 0..cube.len() {
        if give_short(ledger, cube, index) {
            return true;
        }
    }
    false
}

/// Assigns the literals of a cube, up to one whose opposite is; whether there is one, and the cube falsified. Those whose opposites watch few
/// clauses come first, and are propagated first: so when the clauses of the others are looked at, it is known that these are false, and none
/// of them watches a clause only to fall next.
fn give_cube(ledger: &mut Ledger, cube: &Normal) -> bool
    requires cube { IsCube cube.now }
    requires variables { variable_bound cube.now.terms ≤ ledger.old.variables }
    ensures given { IsGivenBy (cube.now ∷ []) ledger.old ledger.new }
    ensures end { IsCubeEnd ledger.new.assigned cube.now result }
{
    if give_short_ones(ledger, cube) {
        return true;
    }
    for index in 0..cube.len() {
        if give_term(ledger, cube, index) {
            return true;
        }
    }
    false
}

/// Assigns the literals of cubes, up to a cube that is falsified; whether there is one.
pub(crate) fn give_cubes(
    alloc: Global,
    ledger: &mut Ledger,
    cubes: &[Normal],
) -> Result<bool, AllocError>
    requires { All IsCube cubes.now }
    ensures given { IsGivenBy cubes.now ledger.old ledger.new }
    ensures end { IfOk result (AreCubesEnd ledger.new.assigned cubes.now) }
{
    for cube in cubes {
        ledger.widen(alloc, cube.variable_count())?;
        if give_cube(ledger, cube) {
            return Ok(true);
        }
    }
    Ok(false)
}
