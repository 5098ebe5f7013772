//! The two literals by which a clause is watched.

ghost use Rattle.std.specs.Prelude.{◌≡◌, ◌⊎◌, MatchOption};
ghost use Rattle.ledger.specs.Watched.{pair_of};

use linear::Lit;

/// Two literals of one clause.
#[derive(Clone, Copy, Debug, PartialEq, Eq)]
pub(crate) struct Pair {
    pub(crate) first: Lit,
    pub(crate) second: Lit,
}

impl Pair {
    /// The first two of a list, where there are two.
    pub(crate) fn of(literals: &[Lit]) -> Option<Pair>
        ensures { result ≡ pair_of literals.now }
    {
        if literals.len() < 2 {
            return None;
        }
        Some(Pair {
            first: literals[0],
            second: literals[1],
        })
    }

    /// The one beside a literal, where that is one of the two.
    pub(crate) fn beside(self, literal: Lit) -> Option<Lit>
        ensures { MatchOption result ((self.first ≡ literal → ⊥) × (self.second ≡ literal → ⊥))
            (λ other. ((self.first ≡ literal) × (self.second ≡ other)) ⊎ ((self.second ≡ literal) × (self.first ≡ other))) }
    {
        if self.first == literal {
            Some(self.second)
        } else if self.second == literal {
            Some(self.first)
        } else {
            None
        }
    }
}
