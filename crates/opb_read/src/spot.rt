//! The spots of a statement, and which fault a token is that cannot stand in its place.
//!
//! Linear OPB files (Roussel and Manquinho) are a regular language but for the numbers, so a reader is always at one of eight
//! spots, and the spot decides what may stand next. What may not is told apart so that a user learns what is wrong: a
//! form of the format's wider family (a product, `<=`, `max:`, a weight, a constant) is no mere slip. The table of faults
//! stands in `specs/FaultCodes`, row by row; here it is one match on the spot and the kind, and the start of a statement.

use super::fault::OpbCode;
use super::mark::begins_mark;
use pb_text::{Kind, Lookahead, Symbol};

/// A spot within a statement.
#[derive(Clone, Copy)]
pub enum Spot {
    /// Before a statement that is no objective.
    Start,
    /// Behind `min :`.
    ObjectiveMark,
    /// Behind a coefficient of the objective.
    ObjectiveCoefficient,
    /// Behind a literal of the objective.
    ObjectiveLiteral,
    /// Behind a coefficient of a constraint.
    Coefficient,
    /// Behind a literal of a constraint.
    Literal,
    /// Behind the relation of a constraint.
    Relation,
    /// Behind the right side of a constraint.
    RightSide,
}

impl Spot {
    ghost use Rattle.std.specs.Prelude.{◌≡◌, Some, if◌then◌else◌};
    ghost use Rattle.opb_read.specs.Spots.{begun, next_spot};
    ghost use Rattle.opb_read.specs.Codes.{IsForm};
    ghost use Rattle.opb_read.specs.FaultCodes.{code_at, code_at_start, code_of_kind_at_start, other_code};

    /// Where a token of this kind leads, if it may stand at this spot.
    pub(crate) fn next(self, kind: Kind) -> Option<Spot>
        ensures { result ≡ next_spot self kind }
    {
        match (self, kind) {
            (Spot::Start | Spot::Literal, Kind::Integer) => Some(Spot::Coefficient),
            (Spot::Start | Spot::Literal, Kind::Symbol(Symbol::AtLeast | Symbol::Equals)) => Some(
                Spot::Relation,
            ),
            (Spot::Coefficient, Kind::Literal) => Some(Spot::Literal),
            (Spot::Relation, Kind::Integer) => Some(Spot::RightSide),
            (Spot::ObjectiveMark | Spot::ObjectiveLiteral, Kind::Integer) => Some(
                Spot::ObjectiveCoefficient,
            ),
            (Spot::ObjectiveCoefficient, Kind::Literal) => Some(Spot::ObjectiveLiteral),
            (
                Spot::RightSide | Spot::ObjectiveMark | Spot::ObjectiveLiteral,
                Kind::Symbol(Symbol::Semicolon),
            ) => Some(Spot::Start),
            _ => None,
        }
    }

    /// Whether a constraint is begun and not closed at this spot.
    pub(crate) fn is_in_constraint(self) -> bool
        ensures { begun self ≡ (if result then 1 else 0) }
    {
        match self {
            Spot::Coefficient | Spot::Literal | Spot::Relation | Spot::RightSide => true,
            Spot::Start
            | Spot::ObjectiveMark
            | Spot::ObjectiveCoefficient
            | Spot::ObjectiveLiteral => false,
        }
    }

    /// The fault of the token that stands next, or of the end of the text, where it may not stand at this spot.
    pub(crate) fn fault(self, left: &Lookahead<'_>) -> OpbCode
        ensures form { IsForm result }
        ensures code { result ≡ code_at self left.now }
    {
        match (self, left.kind()) {
            (Spot::Start, _) => Spot::fault_at_start(left),
            (Spot::RightSide, _) => OpbCode::NoSemicolon,
            (Spot::Literal, Some(Kind::Symbol(Symbol::Semicolon))) => OpbCode::NoRelation,
            (Spot::Literal, Some(Kind::Symbol(Symbol::AtMost)))
            | (Spot::Literal | Spot::ObjectiveLiteral, Some(Kind::Literal))
            | (Spot::ObjectiveCoefficient, Some(Kind::Integer | Kind::Symbol(Symbol::Semicolon))) =>
                OpbCode::UnsupportedForm,
            (_, kind) => Spot::other_fault(kind),
        }
    }

    /// The fault of a token that begins no statement.
    fn fault_at_start(left: &Lookahead<'_>) -> OpbCode
        ensures form { IsForm result }
        ensures code { result ≡ code_at_start left.now }
    {
        let Some(token) = left.next() else {
            return OpbCode::NoSemicolon;
        };
        if begins_mark(left, b"min") {
            OpbCode::ObjectiveLate
        } else if begins_mark(left, b"max") || begins_mark(left, b"soft") {
            OpbCode::UnsupportedForm
        } else if token.text.first() == Some(&b'[') {
            OpbCode::UnsupportedForm
        } else {
            Spot::fault_of_kind_at_start(token.kind)
        }
    }

    /// The same, by the token's kind alone.
    fn fault_of_kind_at_start(kind: Kind) -> OpbCode
        ensures form { IsForm result }
        ensures code { result ≡ code_of_kind_at_start (Some kind) }
    {
        match kind {
            Kind::Symbol(Symbol::AtMost) => OpbCode::UnsupportedForm,
            Kind::Symbol(Symbol::Semicolon) => OpbCode::NoRelation,
            _ => Spot::other_fault(Some(kind)),
        }
    }

    /// The fault of a token, or of the end, that no row of the table names.
    fn other_fault(kind: Option<Kind>) -> OpbCode
        ensures form { IsForm result }
        ensures code { result ≡ other_code kind }
    {
        match kind {
            None => OpbCode::NoSemicolon,
            Some(Kind::Misspelt) => OpbCode::BadName,
            Some(_) => OpbCode::BadToken,
        }
    }
}
