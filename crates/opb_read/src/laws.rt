//! Laws about what a text spells and where its fault stands, as contracts of functions that do nothing: what a reader of the
//! definitions would otherwise have to believe.

ghost use Rattle.std.specs.Prelude.{◌≡◌, ◌≢◌, ◌↔◌, ℕ, List, Some};
ghost use Rattle.pb_text.specs.Lexeme.{Lexeme};
ghost use Rattle.linear.specs.declared.constraint.Signed.{Signed};
ghost use Rattle.linear.specs.declared.term.Term.{Term};
ghost use Rattle.linear.specs.Opb.{Opb};
ghost use Rattle.opb_read.specs.Forms.{constraint_of, objective_of};
ghost use Rattle.opb_read.specs.Spells.{Spells};
ghost use Rattle.opb_read.specs.Written.{WritesConstraint, WritesSum};
ghost use Rattle.opb_read.specs.FaultLine.{IsFaultAt};

use super::fault::OpbCode;

/// A text spells at most one problem.
#[tactic(auto, using(crate::proofs::Spelled::one_problem))]
pub fn one_problem()
    ensures { (text : List ℕ) (p q : Opb) → Spells text p → Spells text q → p ≡ q }
{}

/// A piece gives a constraint exactly where it is written as that constraint: term by term an integer and a literal, then
/// the relation and the right side.
pub fn constraints_as_written()
    ensures { (names : List (List ℕ)) (piece : List Lexeme) (c : Signed) →
        (constraint_of names piece ≡ Some c) ↔ WritesConstraint names c piece }
{}

/// A piece gives the sum of an objective exactly where it is written as that sum.
pub fn objectives_as_written()
    ensures { (names : List (List ℕ)) (piece : List Lexeme) (terms : List Term) →
        (objective_of names piece ≡ Some terms) ↔ WritesSum names terms piece }
{}

/// Two faults of one text stand on one line, whatever their codes, out of memory aside: what the contract of `read` says of
/// where a fault stands fixes its line.
pub fn one_fault_line()
    ensures { (text : List ℕ) (c d : OpbCode) (k l : ℕ) → c ≢ OpbCode.OutOfMemory → d ≢ OpbCode.OutOfMemory → IsFaultAt text c k → IsFaultAt text d l → k ≡ l }
{}
