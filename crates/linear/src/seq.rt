//! A list that owns its elements, seen by contracts as just that list. It stands for the `Vec` fields of the
//! public types, whose capacity no contract speaks of.

ghost use Rattle.std.specs.Prelude.{◌≡◌, ◌↔◌, ◌++◌, ◌∷◌, [], IsTrue, OnErr, OnOk, length};

use std::alloc::AllocError;
use std::marker::Model;

/// A list of values, made from a `Vec` and giving it back without taking memory.
#[derive(Clone, Debug, Drop)]
pub struct Seq<T> {
    items: Vec<T>,
}

impl<T> Model for Seq<T> {
    ghost use Rattle.std.specs.Prelude.{List};

    ghost Value = { List T };

    ghost view = { λ s. s.items.items };
}

impl<T> Seq<T> {
    /// The list of a vector's elements. Much room that it does not use is given back, since lists are kept for long; little room
    /// stays, since what gives back a few bytes leaves a hole that is too small for the next list of that length.
    pub fn from_vec(mut items: Vec<T>) -> Self
        ensures { result ≡ items.items }
    {
        let unused = items.capacity().saturating_sub(items.len());
        if unused > items.len() / 8 {
            items.shrink_to_fit();
        }
        Seq::short_lived(items)
    }

    /// The same with all the room that the vector has: for a list that is soon gone, of which giving back would be half the cost.
    pub fn short_lived(items: Vec<T>) -> Self
        ensures { result ≡ items.items }
    {
        Seq { items }
    }

    /// The elements as a vector.
    pub fn into_vec(self) -> Vec<T>
        ensures { result.items ≡ self }
    {
        self.items
    }

    /// The elements, in order.
    pub fn as_slice(&self) -> &[T]
        ensures { result.now ≡ self.now }
    {
        self.items.as_slice()
    }

    pub fn len(&self) -> usize
        ensures { result ≡ length self.now }
    {
        self.items.len()
    }

    pub fn is_empty(&self) -> bool
        ensures { IsTrue result ↔ (self.now ≡ []) }
    {
        self.items.is_empty()
    }
}

impl<T: Drop> Seq<T> {
    /// Puts an element at the end. Where memory runs out the list stays as it was.
    #[inline(always)]
    pub fn push(&mut self, item: T) -> Result<(), AllocError>
        ensures ok { OnOk result (self.new ≡ self.old ++ item ∷ []) }
        ensures err { OnErr result (self.new ≡ self.old) }
    {
        self.items.push(item)?;
        Ok(())
    }

    /// Takes all elements away. The memory stays.
    pub fn clear(&mut self)
        ensures { self.new ≡ [] }
    {
        self.items.clear();
    }
}
