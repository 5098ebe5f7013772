//! Pricing: what is violated most, and so leaves.
//!
//! A row is violated by what its activity lacks, a basic variable by what it is outside its domain. Rows are scaled to norms
//! from 1 to 2 and the domains have length 1, so that both compare as they are. The greatest one over its norm is repaired (`norms`).

use super::domain::{Domain, domain_of};
use super::norms::Norms;
use super::point::Point;
use basis::Basis;
use fixed_point::{Fixed, Number, Sum};

/// Violations up to this are not repaired, in units of `2^-32`.
pub const TOLERANCE: i64 = 1 << 20;

/// What leaves its violation behind.
#[derive(Clone, Copy, Debug, PartialEq, Eq)]
pub enum Leaving {
    /// A row that is violated: it becomes tight.
    Row(usize),
    /// The basic variable of a place that is below its lower bound: it is put there.
    Below(usize),
    /// The basic variable of a place that is above its upper bound: it is put there.
    Above(usize),
}

/// What is violated, and by how much.
#[derive(Clone, Copy, Debug)]
pub struct Violation {
    /// What leaves where it is repaired.
    pub leaving: Leaving,
    /// What the row lacks, or by how much the variable is outside its domain; above 0.
    pub size: Fixed,
    /// The norm of what leaves.
    pub norm: Fixed,
}

impl Violation {
    /// Whether it is greater than another one, each over its norm.
    fn is_worse_than(self, other: Violation) -> bool {
        let ours = Sum::ZERO.plus_product(self.size, other.norm);
        let theirs = Sum::ZERO.plus_product(other.size, self.norm);
        theirs.minus(ours).is_negative()
    }

    /// The worse one of it, if it is above what is tolerated, and another one.
    fn or_worse(self, known: Option<Violation>) -> Option<Violation> {
        if self.size.units() <= TOLERANCE {
            return known;
        }
        match known {
            Some(violation) if !self.is_worse_than(violation) => known,
            _ => Some(self),
        }
    }
}

/// The worst violation of a basic variable.
fn worst_variable(
    point: &Point,
    basis: &Basis,
    norms: &Norms,
    domains: &[Domain],
) -> Option<Violation> {
    let mut worst = None;
    for (place, variable) in basis.basic().iter().enumerate() {
        let value = point.value(*variable);
        let domain = domain_of(domains, *variable);
        let norm = norms.of_variable(*variable);
        let below = Violation {
            leaving: Leaving::Below(place),
            size: domain.lower().minus(value),
            norm,
        };
        let above = Violation {
            leaving: Leaving::Above(place),
            size: value.minus(domain.upper()),
            norm,
        };
        worst = above.or_worse(below.or_worse(worst));
    }
    worst
}

/// The worst violation, if any is above what is tolerated.
pub fn worst_violation(
    point: &Point,
    basis: &Basis,
    norms: &Norms,
    domains: &[Domain],
) -> Option<Violation> {
    let mut worst = worst_variable(point, basis, norms, domains);
    for (row, activity) in point.activities().iter().enumerate() {
        if activity.is_negative() && !basis.is_tight(row) {
            let found = Violation {
                leaving: Leaving::Row(row),
                size: activity.negated(),
                norm: norms.of_row(row),
            };
            worst = found.or_worse(worst);
        }
    }
    worst
}
