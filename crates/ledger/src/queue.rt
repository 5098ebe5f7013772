//! Places of constraints that are still to be looked at.
//!
//! There is room for all places at once, so that a place is added without memory. A walk may still run out of memory as a literal
//! comes; what it did until then is backtracked without any, by the same steps backwards.
//!
//! A place that is known to be falsified comes before all others, also where it waits already: a walk ends there, and what
//! else waits is not forced in vain.

ghost use Rattle.std.specs.Prelude.{◌≡◌, ◌↔◌, ◌+◌, ◌-◌, ◌<◌, ◌≤◌, ◌∷◌, [], ℕ, All, IfSome, IsTrue, OnOk, OnErr, MatchOption, Contains, length};
ghost use Rattle.std.specs.VecDeque.{deque_capacity};

use std::alloc::{AllocError, Global};
use std::collections::VecDeque;
use std::marker::Model;

/// Places below a number, first come, first served, each once, but for one that comes before them.
#[derive(Drop)]
pub struct Queue {
    /// It may wait among the others, too.
    first: Option<usize>,
    places: VecDeque<usize>,
    waiting: Vec<bool>,
}

impl Model for Queue {
    ghost use Rattle.std.specs.Prelude.{◌≤◌, ◌<◌, ℕ, List, IfSome, length};
    ghost use Rattle.std.specs.VecDeque.{deque_capacity};
    ghost use Rattle.ledger.specs.Waiting.{IsQueue, with_first};

    ghost Value = { List ℕ × ℕ };

    ghost view = { λ q. (with_first q.first q.places.items, length q.waiting.items) };

    ghost invariant = { λ q. IsQueue q.places.items q.waiting.items
        × (length q.waiting.items ≤ deque_capacity q.places) × IfSome q.first (λ k. k < length q.waiting.items) };
}

impl Queue {
    /// Nothing waits, and there is no place.
    pub fn new(alloc: Global) -> Self
        ensures { result ≡ ([], 0) }
    {
        Queue {
            first: None,
            places: VecDeque::new(alloc),
            waiting: Vec::new(alloc),
        }
    }

    /// What holds of every queue, for a proof that needs it where nothing else of the queue is asked: at most one more
    /// waits than there are places, and each of them is one.
    pub fn reveal(&self)
        ensures few { length self.now.0 ≤ self.now.1 + 1 }
        ensures below { All (λ k. k < self.now.1) self.now.0 }
    {
        let _ = &self.places;
    }

    /// Whether nothing waits.
    pub fn is_empty(&self) -> bool
        ensures { IsTrue result ↔ (self.now.0 ≡ []) }
    {
        self.first.is_none() && self.places.is_empty()
    }

    /// Adds a place, unless it waits already.
    pub fn add(&mut self, place: usize)
        requires { place < self.old.1 }
        ensures count { self.new.1 ≡ self.old.1 }
        ensures there { Contains self.new.0 place }
        ensures kept { (k : ℕ) → Contains self.old.0 k → Contains self.new.0 k }
    {
        if !self.waiting[place] {
            self.places.push_back_reserved(place);
            self.waiting[place] = true;
        }
    }

    /// Adds a place before all others, where none stands there, and else as any other.
    pub(crate) fn add_first(&mut self, place: usize)
        requires { place < self.old.1 }
        ensures count { self.new.1 ≡ self.old.1 }
        ensures there { Contains self.new.0 place }
        ensures kept { (k : ℕ) → Contains self.old.0 k → Contains self.new.0 k }
    {
        match self.first {
            None => self.first = Some(place),
            Some(_) => self.add(place),
        }
    }

    /// Takes the first place away.
    pub fn take(&mut self) -> Option<usize>
        ensures count { self.new.1 ≡ self.old.1 }
        ensures value { MatchOption result ((self.old.0 ≡ []) × (self.new.0 ≡ [])) (λ k. self.old.0 ≡ k ∷ self.new.0) }
        ensures below { IfSome result (λ k. k < self.old.1) }
        ensures few { length self.old.0 ≤ self.old.1 + 1 }
    {
        match self.first {
            None => {
                let place = self.places.pop_front()?;
                self.waiting[place] = false;
                Some(place)
            }
            Some(place) => {
                self.first = None;
                Some(place)
            }
        }
    }

    /// Makes room for one place more, which does not wait.
    pub fn grow(&mut self) -> Result<(), AllocError>
        ensures ok { OnOk result (self.new ≡ (self.old.0, self.old.1 + 1)) }
        ensures err { OnErr result (self.new ≡ self.old) }
    {
        make_room(&mut self.places, self.waiting.len() + 1)?;
        self.waiting.push(false)?;
        Ok(())
    }

    /// Takes back the room for the last place, which does not wait.
    pub fn shrink(&mut self)
        requires below { All (λ k. k + 1 < self.old.1) self.old.0 }
        ensures { self.new ≡ (self.old.0, self.old.1 - 1) }
    {
        self.waiting.pop();
    }

    /// Nothing waits, and there are this many places.
    pub fn clear(&mut self, count: usize)
        requires { count ≤ self.old.1 }
        ensures { self.new ≡ ([], count) }
    {
        while let Some(_) = self.take() {}
        self.waiting.truncate(count);
    }
}

/// Makes room for so many places, and where there is none for as many again: a ring that grew by one place would be made anew for each.
fn make_room(places: &mut VecDeque<usize>, count: usize) -> Result<(), AllocError>
    ensures items { places.new.items ≡ places.old.items }
    ensures more { deque_capacity places.old ≤ deque_capacity places.new }
    ensures ok { OnOk result (count ≤ deque_capacity places.new) }
{
    if places.capacity() < count {
        return places.reserve(count.saturating_add(count));
    }
    Ok(())
}
