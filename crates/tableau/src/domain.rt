//! What values a variable may take, and the bounds at which it stands: each is 0 or 1.

use fixed_point::Fixed;

/// The values that a variable may take.
#[derive(Clone, Copy, Debug, PartialEq, Eq)]
pub enum Domain {
    /// All from 0 to 1.
    Free,
    /// 0 alone.
    False,
    /// 1 alone.
    True,
}

/// A bound of a variable.
#[derive(Clone, Copy, Debug, PartialEq, Eq)]
pub enum Bound {
    /// The one that it may not be below.
    Lower,
    /// The one that it may not be above.
    Upper,
}

impl Bound {
    /// Whether what has this entry grows where the variable moves off the bound.
    pub(crate) fn lets_grow(self, entry: Fixed) -> bool {
        match self {
            Bound::Lower => !entry.is_negative(),
            Bound::Upper => entry.is_negative(),
        }
    }

    /// What it costs to move off the bound, for each unit.
    pub(crate) fn cost_of_moving(self, reduced_cost: Fixed) -> Fixed {
        match self {
            Bound::Lower => reduced_cost,
            Bound::Upper => reduced_cost.negated(),
        }
    }
}

impl Domain {
    /// The least value.
    pub fn lower(self) -> Fixed {
        match self {
            Domain::Free | Domain::False => Fixed::ZERO,
            Domain::True => Fixed::ONE,
        }
    }

    /// The greatest value.
    pub fn upper(self) -> Fixed {
        match self {
            Domain::Free | Domain::True => Fixed::ONE,
            Domain::False => Fixed::ZERO,
        }
    }

    /// The bound at which a variable of a reduced cost is best.
    pub fn better_bound(self, reduced_cost: Fixed) -> Fixed {
        if reduced_cost.is_negative() {
            self.upper()
        } else {
            self.lower()
        }
    }

    /// Whether more than one value may be taken.
    pub fn is_free(self) -> bool {
        self == Domain::Free
    }
}

/// The domain of a variable; one that is not there is free.
pub fn domain_of(domains: &[Domain], variable: usize) -> Domain {
    match domains.get(variable) {
        Some(domain) => *domain,
        None => Domain::Free,
    }
}
