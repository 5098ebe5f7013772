//! How many of the first terms of a constraint, by decreasing coefficient, were seen not to be free.
//!
//! What a constraint forces are its terms of large coefficients: after a look the literals of all terms before some index are assigned, or
//! their opposites are. That stays so until a literal is backtracked, so the next look goes on behind them, and a wide constraint whose literals
//! fall one after another is not passed from its first term on each time (as RoundingSat does; Devriendt, Watched propagation of 0-1
//! integer linear constraints, 2020). A literal that is backtracked ends a round. What was noted in an earlier round counts
//! for nothing, so no note is gone to then.

ghost use Rattle.std.specs.Prelude.{◌≡◌, ◌≤◌, ℕ, [], slice_index_or};

use std::alloc::{AllocError, Global};
use std::marker::Model;

/// What was noted of one constraint, and in which round.
#[derive(Clone, Copy)]
struct Note {
    count: u32,
    round: u32,
}

/// A note for each place below a number, and the round.
#[derive(Drop)]
pub(crate) struct Passed {
    notes: Vec<Note>,
    round: u32,
}

impl Model for Passed {
    ghost use Rattle.std.specs.Prelude.{◌≤◌, ℕ, All, List, map};
    ghost use Rattle.ledger.specs.Passed.{count_in};

    ghost Value = { List ℕ };

    ghost view = { λ p. map (count_in p.round) p.notes.items };

    ghost invariant = { λ p. All (λ n. n.round ≤ p.round) p.notes.items };
}

impl Passed {
    /// No place.
    pub(crate) fn new(alloc: Global) -> Self
        ensures { result ≡ [] }
    {
        Passed {
            notes: Vec::new(alloc),
            round: 0,
        }
    }

    /// How many terms were passed at a place: none, where nothing was noted in this round.
    pub(crate) fn get(&self, place: usize) -> usize
        ensures { result ≡ slice_index_or self.now place 0 }
    {
        match self.notes.get(place) {
            Some(note) => {
                if note.round == self.round {
                    note.count as usize
                } else {
                    0
                }
            }
            None => 0,
        }
    }

    /// Notes how many terms were passed at a place, or fewer: where there is no room for a note, nothing was passed.
    pub(crate) fn set(&mut self, place: usize, count: usize)
        ensures others { (k : ℕ) → (k ≡ place → ⊥) → slice_index_or self.new k 0 ≡ slice_index_or self.old k 0 }
        ensures most { slice_index_or self.new place 0 ≤ count }
    {
        if place < self.notes.len() {
            self.notes[place] = Note {
                count: count.min(u32::MAX as usize) as u32,
                round: self.round,
            };
        }
    }

    /// Makes room for the places below a number.
    pub(crate) fn widen(&mut self, count: usize) -> Result<(), AllocError>
        ensures { (k : ℕ) → slice_index_or self.new k 0 ≡ slice_index_or self.old k 0 }
    {
        for _ in self.notes.len()..count {
            self.notes.push(Note { count: 0, round: 0 })?;
        }
        Ok(())
    }

    /// A literal was backtracked: nothing counts as passed.
    pub(crate) fn forget(&mut self)
        ensures { (k : ℕ) → slice_index_or self.new k 0 ≡ 0 }
    {
        match self.round.checked_add(1) {
            Some(round) => self.round = round,
            None => {
                self.notes.clear();
                self.round = 0;
            }
        }
    }
}
