//! How large a constraint is that a conflict taught.

/// How many literals a constraint has, and of how many levels those are that were set where it was learned.
#[derive(Clone, Copy, Debug, PartialEq, Eq)]
pub struct Size {
    pub literals: usize,
    pub levels: u32,
}

impl Size {
    /// That of the clause that so many decisions do not all hold: each of them is of a level of its own.
    pub fn of_decisions(count: usize) -> Size {
        Size {
            literals: count,
            levels: u32::try_from(count).unwrap_or(u32::MAX),
        }
    }
}
