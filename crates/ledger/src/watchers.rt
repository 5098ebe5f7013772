//! Clauses, each watched by two of its literals.
//!
//! A clause is falsified, or forces a literal, only where all its literals but one are false. So it is looked at when one of two open
//! literals falls, and then another open one is sought to watch it (Moskewicz, Madigan, Zhao, Zhang and Malik: Chaff, 2001), from
//! where the last search in the clause ended (`starts`): a literal that stands in many clauses costs those that it watches. Where
//! literals are backtracked nothing is mended. A row may have places that its literal does not watch any more: they are dropped when
//! it falls. The literals of each clause stand in a list of their own, those that watch it first (`watched_first`, `arena`).
//!
//! A row is gone through only as far as to the first clause that is falsified, since a walk ends there: the literal then counts as one that
//! was not propagated, and what its row would tell is not asked for before it is propagated anew. For that all literals
//! that are assigned are asked, also those behind it: so of many copies of a clause whose literals all fall at once one is looked at.

ghost use Rattle.std.specs.Prelude.{◌≡◌, ◌↔◌, ◌+◌, ◌-◌, ◌<◌, ◌≤◌, ◌⊎◌, ◌++◌, ◌∷◌, [], ℕ, false, true, Contains, IfOk, IsTrue};
ghost use Rattle.std.specs.Prelude.{MatchOption, None, OnErr, OnOk, Some, length, slice_index_or, slice_set, take};
ghost use Rattle.std.specs.List.{swap_remove};
ghost use Rattle.linear.specs.declared.term.Lit.{Lit};
ghost use Rattle.normal_form.specs.Normal.{NormalConstraint, variable_bound};
ghost use Rattle.linear.specs.Literal.{opposite};
ghost use Rattle.propagate.specs.Literals.{lists};
ghost use Rattle.trail.specs.Trails.{on_trail};
ghost use Rattle.ledger.specs.declared.pair.Pair.{Pair};
ghost use Rattle.ledger.specs.Falls.{IsBeside, IsFalling, IsFound, IsNearer, IsOneOf, IsPassed, IsRowEnd};
ghost use Rattle.linear.specs.Literal.{code};
ghost use Rattle.ledger.specs.Watched.{AreLiteralsOf, AreSameKinds, AreWatched, EndsWith, IsOpen, IsPairOf, IsPairWithin, StandsIn, exchanged};

use super::arena::Arena;
use super::finding::{Finding, Move, Progress};
use super::narrow::narrow;
use super::pair::Pair;
use super::queue::Queue;
use super::replacing::open_beside;
use super::starts::Starts;
use linear::Lit;
use normal_form::Normal;
use occurrences::Table;
use std::alloc::{AllocError, Global};
use std::marker::Model;
use trail::Assignment;

/// Rows of places by literal, and the literals of the clause of each place, where it is watched: the two that watch it first.
#[derive(Drop)]
pub(crate) struct Watchers {
    rows: Table<u32>,
    literals: Arena,
}

impl Model for Watchers {
    ghost use Rattle.std.specs.Prelude.{map};
    ghost use Rattle.ledger.specs.Watched.{Watching, pair_of};

    ghost Value = { Watching };

    ghost view = { λ w. record { rows = w.rows; pairs = map pair_of w.literals; literals = w.literals } };
}

impl Watchers {
    /// No place, and no rows.
    pub(crate) fn new(alloc: Global) -> Self
        ensures { result ≡ record { rows = []; pairs = []; literals = [] } }
    {
        Watchers {
            rows: Table::new(alloc),
            literals: Arena::new(alloc),
        }
    }

    /// Empty rows for the numbers below a bound that have none.
    pub(crate) fn widen(&mut self, alloc: Global, bound: usize) -> Result<(), AllocError>
        ensures pairs { self.new.pairs ≡ self.old.pairs }
        ensures literals { self.new.literals ≡ self.old.literals }
        ensures kept { (k : ℕ) → slice_index_or self.new.rows k [] ≡ slice_index_or self.old.rows k [] }
        ensures longer { length self.old.rows ≤ length self.new.rows }
        ensures ok { OnOk result (bound ≤ length self.new.rows) }
    {
        self.rows.widen(alloc, bound)
    }

    /// How many entries the row of a literal has.
    pub(crate) fn count(&self, literal: Lit) -> usize {
        self.rows.row_or_none(literal.code()).len()
    }

    /// How many places there are, watched or not.
    pub(crate) fn len(&self) -> usize
        ensures { result ≡ length self.now.pairs }
    {
        self.literals.len()
    }

    /// The literals that watch the clause of a place, if it is watched.
    pub(crate) fn pair(&self, place: usize) -> Option<Pair>
        ensures { result ≡ slice_index_or self.now.pairs place None }
    {
        Pair::of(self.literals.row(place))
    }

    /// Puts a place into the row of a literal.
    #[inline(always)]
    fn put(&mut self, literal: Lit, place: usize) -> Result<(), AllocError>
        requires { code literal < length self.old.rows }
        ensures pairs { self.new.pairs ≡ self.old.pairs }
        ensures literals { self.new.literals ≡ self.old.literals }
        ensures ok { OnOk result (self.new.rows ≡ slice_set self.old.rows (code literal)
            (slice_index_or self.old.rows (code literal) [] ++ place ∷ [])) }
        ensures err { OnErr result (self.new.rows ≡ self.old.rows) }
    {
        self.rows.push(literal.code(), narrow(place)?)
    }

    /// Whether the row of a literal ends with a place.
    fn ends_with(&self, literal: Lit, place: usize) -> bool
        requires { code literal < length self.now.rows }
        ensures { IsTrue result ↔ EndsWith self.now.rows literal place }
    {
        let row = self.rows.row(literal.code());
        let Some(last) = row.len().checked_sub(1) else {
            return false;
        };
        row[last] as usize == place
    }

    /// Puts a place into the row of a literal that does not end with it: where clauses come and go at one place, as those of questions do,
    /// what they left in a row serves the next one.
    fn put_once(&mut self, literal: Lit, place: usize) -> Result<(), AllocError>
        requires { code literal < length self.old.rows }
        ensures pairs { self.new.pairs ≡ self.old.pairs }
        ensures literals { self.new.literals ≡ self.old.literals }
        ensures length { length self.new.rows ≡ length self.old.rows }
        ensures kept { (l : Lit) (k : ℕ) → StandsIn self.old.rows l k → StandsIn self.new.rows l k }
        ensures there { OnOk result (StandsIn self.new.rows literal place) }
        ensures still { EndsWith self.old.rows literal place → self.new.rows ≡ self.old.rows }
    {
        if self.ends_with(literal, place) {
            return Ok(());
        }
        self.put(literal, place)
    }

    /// Has a clause watched by two of its literals, at the next place.
    pub(crate) fn watch(&mut self, clause: &Normal, pair: Pair) -> Result<(), AllocError>
        requires pair { IsPairOf clause.now pair }
        requires first { code pair.first < length self.old.rows }
        requires second { code pair.second < length self.old.rows }
        ensures ok { OnOk result (self.new.pairs ≡ self.old.pairs ++ Some pair ∷ []) }
        ensures err { OnErr result (self.new.pairs ≡ self.old.pairs) }
        ensures listed { OnOk result (AreLiteralsOf clause.now (slice_index_or self.new.literals (length self.old.pairs) [])) }
        ensures others { (k : ℕ) → k < length self.old.pairs
            → slice_index_or self.new.literals k [] ≡ slice_index_or self.old.literals k [] }
        ensures length { length self.new.rows ≡ length self.old.rows }
        ensures kept { (l : Lit) (k : ℕ) → StandsIn self.old.rows l k → StandsIn self.new.rows l k }
        ensures first_there { OnOk result (StandsIn self.new.rows pair.first (length self.old.pairs)) }
        ensures second_there { OnOk result (StandsIn self.new.rows pair.second (length self.old.pairs)) }
    {
        let place = self.literals.len();
        self.put_once(pair.first, place)?;
        self.put_once(pair.second, place)?;
        self.literals.push(clause, pair)
    }

    /// Leaves the next place unwatched.
    pub(crate) fn skip(&mut self) -> Result<(), AllocError>
        ensures ok { OnOk result (self.new.pairs ≡ self.old.pairs ++ None ∷ []) }
        ensures err { OnErr result (self.new.pairs ≡ self.old.pairs) }
        ensures others { (k : ℕ) → slice_index_or self.new.literals k [] ≡ slice_index_or self.old.literals k [] }
        ensures rows { self.new.rows ≡ self.old.rows }
    {
        self.literals.push_none()
    }

    /// Takes the last place off. What stands in rows stays there.
    pub(crate) fn detach(&mut self)
        ensures pairs { self.new.pairs ≡ take (length self.old.pairs - 1) self.old.pairs }
        ensures others { (k : ℕ) → k + 1 < length self.old.pairs
            → slice_index_or self.new.literals k [] ≡ slice_index_or self.old.literals k [] }
        ensures rows { self.new.rows ≡ self.old.rows }
    {
        self.literals.pop();
    }

    /// The clause of a place is not watched any more. What stands in rows stays there.
    pub(crate) fn forget(&mut self, place: usize)
        requires { place < length self.old.pairs }
        ensures pairs { self.new.pairs ≡ slice_set self.old.pairs place None }
        ensures others { (k : ℕ) → (k ≡ place → ⊥)
            → slice_index_or self.new.literals k [] ≡ slice_index_or self.old.literals k [] }
        ensures rows { self.new.rows ≡ self.old.rows }
    {
        self.literals.clear(place);
    }

    /// The literal that watches the clause of a place beside one that falls, where that one does.
    fn beside(&self, place: usize, fallen: Lit) -> Option<Lit>
        ensures none { MatchOption result ((p : Pair) → slice_index_or self.now.pairs place None ≡ Some p → IsOneOf p fallen → ⊥)
            (IsBeside (slice_index_or self.now.pairs place None) fallen) }
    {
        self.pair(place)?.beside(fallen)
    }

    /// What is found of the clause at a place when a literal falls. A place with two literals has a clause, so the slots stand here for
    /// the contract alone.
    fn look(
        &self,
        _slots: &[Option<Normal>],
        trail: &Assignment,
        starts: &mut Starts,
        fallen: Lit,
        place: usize,
    ) -> Finding
        requires watched { AreWatched _slots.now trail.now.0 trail.now.1 self.now }
        requires within { (k : ℕ) (n : NormalConstraint) → slice_index_or _slots.now k None ≡ Some n
            → variable_bound n.terms ≤ trail.now.1 }
        requires unset { lists trail.now.0 fallen ≡ false }
        requires unfallen { IsOpen trail.now.0 fallen }
        requires falls { lists (on_trail trail.now) (opposite fallen) ≡ true }
        ensures { IsFound _slots.now trail.now self.now place fallen result }
    {
        let Some(other) = self.beside(place, fallen) else {
            return Finding::Elsewhere;
        };
        if trail.has_propagated(other) {
            return Finding::Satisfied;
        }
        let others = Pair {
            first: fallen,
            second: other,
        };
        let fell = trail.assigns(other.opposite());
        let literals = self.literals.row(place);
        match open_beside(literals, trail, others, starts, place) {
            Some(index) => {
                let literal = literals[index];
                if fell && trail.assigns(literal.opposite()) {
                    return Finding::Falsified;
                }
                Finding::Moved(Move {
                    index,
                    pair: Pair {
                        first: literal,
                        second: other,
                    },
                })
            }
            None if fell => Finding::Falsified,
            None => Finding::Last,
        }
    }

    /// Drops the entry at an index of a literal's row.
    fn drop_entry(&mut self, literal: Lit, index: usize)
        requires row { code literal < length self.old.rows }
        requires index { index < length (slice_index_or self.old.rows (code literal) []) }
        ensures pairs { self.new.pairs ≡ self.old.pairs }
        ensures literals { self.new.literals ≡ self.old.literals }
        ensures rows { self.new.rows ≡ slice_set self.old.rows (code literal) (swap_remove
            (slice_index_or self.old.rows (code literal) []) index
            (slice_index_or (slice_index_or self.old.rows (code literal) []) index 0)) }
    {
        self.rows.swap_remove(literal.code(), index);
    }

    /// Has the clause of a place watched by two of its literals, the first of which changes places with one that fell.
    fn rewatch(&mut self, place: usize, to: Move, fallen: Lit)
        requires place { place < length self.old.literals }
        requires rest { 2 ≤ to.index }
        requires below { to.index < length (slice_index_or self.old.literals place []) }
        ensures pairs { self.new.pairs ≡ slice_set self.old.pairs place (Some to.pair) }
        ensures literals { self.new.literals ≡ slice_set self.old.literals place
            (exchanged (slice_index_or self.old.literals place []) to.index fallen to.pair) }
        ensures rows { self.new.rows ≡ self.old.rows }
    {
        self.literals.set(place, to.index, fallen);
        self.literals.set(place, 0, to.pair.first);
        self.literals.set(place, 1, to.pair.second);
    }

    /// Looks at the clause of an entry of a literal that falls.
    fn pass(
        &mut self,
        slots: &[Option<Normal>],
        trail: &Assignment,
        starts: &mut Starts,
        fallen: Lit,
        index: usize,
        queue: &mut Queue,
    ) -> Result<Progress, AllocError>
        requires falling { IsFalling slots.now trail.now.0 trail.now.1 fallen self.old queue.old.0 index }
        requires within { (k : ℕ) (n : NormalConstraint) → slice_index_or slots.now k None ≡ Some n
            → variable_bound n.terms ≤ trail.now.1 }
        requires variable { fallen.var.0 < trail.now.1 }
        requires unset { lists trail.now.0 fallen ≡ false }
        requires unfallen { IsOpen trail.now.0 fallen }
        requires falls { lists (on_trail trail.now) (opposite fallen) ≡ true }
        requires index { index < length (slice_index_or self.old.rows (code fallen) []) }
        requires count { queue.old.1 ≡ length self.old.pairs }
        ensures passed { IfOk result (IsPassed slots.now trail.now fallen self.new queue.new.0) }
        ensures watched { OnErr result (AreWatched slots.now trail.now.0 trail.now.1 self.new) }
        ensures kinds { AreSameKinds self.old.pairs self.new.pairs }
        ensures less { IfOk result (IsNearer (slice_index_or self.old.rows (code fallen) []) index
            (slice_index_or self.new.rows (code fallen) [])) }
        ensures count { queue.new.1 ≡ queue.old.1 }
        ensures kept { (k : ℕ) → Contains queue.old.0 k → Contains queue.new.0 k }
    {
        let place = self.rows.row(fallen.code())[index] as usize;
        match self.look(slots, trail, starts, fallen, place) {
            Finding::Satisfied => Ok(Progress::At(index + 1)),
            Finding::Falsified => Ok(Progress::Falsified(place)),
            Finding::Last => {
                queue.add(place);
                Ok(Progress::At(index + 1))
            }
            Finding::Elsewhere => {
                self.drop_entry(fallen, index);
                Ok(Progress::At(index))
            }
            Finding::Moved(to) => {
                self.put(to.pair.first, place)?;
                self.rewatch(place, to, fallen);
                self.drop_entry(fallen, index);
                Ok(Progress::At(index))
            }
        }
    }

    /// A literal falls: what it watches is watched by another open literal from then on, or waits. Where a clause is falsified, whose
    /// place is returned, or memory ends, some of it.
    pub(crate) fn fall(
        &mut self,
        slots: &[Option<Normal>],
        trail: &Assignment,
        starts: &mut Starts,
        fallen: Lit,
        queue: &mut Queue,
    ) -> Result<Option<usize>, AllocError>
        requires watched { AreWatched slots.now trail.now.0 trail.now.1 self.old }
        requires within { (k : ℕ) (n : NormalConstraint) → slice_index_or slots.now k None ≡ Some n
            → variable_bound n.terms ≤ trail.now.1 }
        requires variable { fallen.var.0 < trail.now.1 }
        requires unset { lists trail.now.0 fallen ≡ false }
        requires unfallen { IsOpen trail.now.0 fallen }
        requires falls { lists (on_trail trail.now) (opposite fallen) ≡ true }
        requires count { queue.old.1 ≡ length self.old.pairs }
        ensures watched { AreWatched slots.now trail.now.0 trail.now.1 self.new }
        ensures end { IfOk result (IsRowEnd slots.now trail.now fallen self.new queue.new.0) }
        ensures kinds { AreSameKinds self.old.pairs self.new.pairs }
        ensures count { queue.new.1 ≡ queue.old.1 }
        ensures kept { (k : ℕ) → Contains queue.old.0 k → Contains queue.new.0 k }
    {
        let mut index = 0;
        while index < self.rows.row(fallen.code()).len() {
            match self.pass(slots, trail, starts, fallen, index, queue)? {
                Progress::At(next) => index = next,
                Progress::Falsified(place) => return Ok(Some(place)),
            }
        }
        Ok(None)
    }

    /// Queues the places that a literal watches whose clauses may force it.
    pub(crate) fn queue_last(&self, trail: &Assignment, literal: Lit, queue: &mut Queue)
        requires within { (k : ℕ) (p : Pair) → slice_index_or self.now.pairs k None ≡ Some p → IsPairWithin trail.now.1 p }
        requires count { queue.old.1 ≡ length self.now.pairs }
        requires row { code literal < length self.now.rows }
        ensures queued { (k : ℕ) (p : Pair) → StandsIn self.now.rows literal k → slice_index_or self.now.pairs k None ≡ Some p
            → (l : Lit) → IsBeside (Some p) literal l → IsOpen trail.now.0 l ⊎ Contains queue.new.0 k }
        ensures count { queue.new.1 ≡ queue.old.1 }
        ensures kept { (k : ℕ) → Contains queue.old.0 k → Contains queue.new.0 k }
    {
        for place in self.rows.row(literal.code()) {
            self.queue_at(trail, literal, *place as usize, queue);
        }
    }

    /// Queues a place where the literal that watches it beside another one is made false.
    fn queue_at(&self, trail: &Assignment, literal: Lit, place: usize, queue: &mut Queue)
        requires within { (k : ℕ) (p : Pair) → slice_index_or self.now.pairs k None ≡ Some p → IsPairWithin trail.now.1 p }
        requires count { queue.old.1 ≡ length self.now.pairs }
        ensures queued { (p : Pair) → slice_index_or self.now.pairs place None ≡ Some p
            → (l : Lit) → IsBeside (Some p) literal l → IsOpen trail.now.0 l ⊎ Contains queue.new.0 place }
        ensures count { queue.new.1 ≡ queue.old.1 }
        ensures kept { (k : ℕ) → Contains queue.old.0 k → Contains queue.new.0 k }
    {
        let Some(partner) = self.beside(place, literal) else {
            return;
        };
        if trail.has_propagated(partner.opposite()) {
            queue.add(place);
        }
    }
}
