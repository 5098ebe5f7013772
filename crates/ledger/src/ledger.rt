//! Constraints by place, the places of their literals, the literals that are taken as true, and what these leave
//! open.
//!
//! A literal is assigned first, and propagated later: what the counters and the clauses tell is so of the literals that were
//! propagated, which are the first ones. To propagate a literal changes the counter of each counted constraint that has its opposite, and so
//! does to take it back. Of clauses, those that its opposite watches are looked at, as far as to one that is falsified; when a literal
//! went, those that it watches itself are asked for by their two literals alone. A constraint that is taken out leaves its place and its entries behind: counted on, they cost little until the places are made anew, and searching the lists
//! for them would cost more. What a place says then is nothing.
//!
//! That constraints which do not wait force nothing is no fact of this type: taking literals back breaks it midway.
//! It is stated between the functions of a walk, in the crate above.

ghost use Rattle.std.specs.Prelude.{◌≡◌, ◌+◌, ◌-◌, ◌<◌, ◌≤◌, ◌++◌, ◌∷◌};
ghost use Rattle.std.specs.Prelude.{◌⊎◌, [], ℕ, List, false, true, All, Contains, IfOk, IfSome, IsSome};
ghost use Rattle.std.specs.Prelude.{Some, None, IsTrue, MatchOption, OnOk, OnErr, ◌↔◌, length, take, slice_index_or};
ghost use Rattle.std.specs.Prelude.{slice_set};
ghost use Rattle.std.specs.Option.{option_copied};
ghost use Rattle.linear.specs.declared.term.Lit.{Lit};
ghost use Rattle.linear.specs.Largest.{most_names};
ghost use Rattle.normal_form.specs.Normal.{Rises, variable_bound};
ghost use Rattle.linear.specs.Literal.{opposite};
ghost use Rattle.propagate.specs.Literals.{IsConsistent, IsOnce, lists, coefficient_of};
ghost use Rattle.propagate.specs.Slack.{IsFalsified};
ghost use Rattle.propagate.specs.Walk.{IsQuiet};
ghost use Rattle.ledger.specs.Forcing.{IsForcedOn};
ghost use Rattle.ledger.specs.Hints.{IsHint, IsHintWithin};
ghost use Rattle.ledger.specs.Entered.{AreEntriesOf, all_of};
ghost use Rattle.ledger.specs.Ledgers.{AreReasons, HasSlack, IsPropagation, IsReason, constraint_at, open_sum, shown};
ghost use Rattle.ledger.specs.Watched.{IsOpen, IsPairOf, Tell};

use super::choosing::latest_pair;
use super::counting::{enter_counted, fill_up, number_at, set_nought};
use super::entries::Entries;
use super::forcing::force_terms;
use super::hint::{Hint, hint_of};
use super::lowering::{lower, queue_below, raise};
use super::measures::{largest, open_sum};
use super::orders::Orders;
use super::pair::Pair;
use super::queue::Queue;
use super::starts::Starts;
use super::watchers::Watchers;
use linear::Lit;
use normal_form::{Normal, NormalTerm};
use occurrences::{ClauseIndex, EntryTable, leave};
use std::alloc::{AllocError, Global};
use std::marker::Model;
use trail::Assignment;

/// Constraints by place, and a trail with the place of the constraint that forced each literal.
#[derive(Drop)]
pub struct Ledger {
    slots: Vec<Option<Normal>>,
    /// The places of the terms of each constraint by decreasing coefficient, and how many are passed.
    orders: Orders,
    /// Where literals stand in constraints that are counted.
    table: EntryTable,
    /// The counters of the places up to the last one that is counted, and their limits: a ledger of clauses alone has none.
    counters: Vec<u128>,
    limits: Vec<u128>,
    /// Where literals stand in clauses that are watched, as far as was asked for.
    clauses: ClauseIndex,
    watchers: Watchers,
    /// Where the search for another literal that watches a clause goes on.
    starts: Starts,
    trail: Assignment,
    reasons: Vec<Option<usize>>,
}

impl Model for Ledger {
    ghost use Rattle.std.specs.Prelude.{◌≤◌, vec_capacity};
    ghost use Rattle.ledger.specs.Ledgers.{State, IsLedger, AreReasons, shown};
    ghost use Rattle.ledger.specs.Orders.{AreOrders};
    ghost use Rattle.trail.specs.Trails.{on_trail};
    ghost use Rattle.ledger.specs.Watched.{AreWatched};

    ghost Value = { State };

    ghost view = { λ e. record {
      slots = e.slots.items;
      assigned = on_trail e.trail;
      propagated = e.trail.0;
      reasons = e.reasons.items;
      variables = e.trail.1;
      listed = e.clauses.count;
    } };

    ghost invariant = { λ e. IsLedger e.slots.items e.trail.0 e.trail.1 e.table e.clauses e.counters.items e.limits.items e.watchers.pairs
        × AreReasons (shown e.slots.items) (on_trail e.trail) e.reasons.items × (e.trail.1 ≤ vec_capacity e.reasons)
        × AreWatched e.slots.items e.trail.0 e.trail.1 e.watchers × AreOrders e.slots.items (on_trail e.trail) e.orders };
}

impl Ledger {
    /// No constraint, and no variables.
    pub fn new(alloc: Global) -> Ledger
        ensures { result ≡ record { slots = []; assigned = []; propagated = []; reasons = []; variables = 0; listed = 0 } }
    {
        Ledger {
            slots: Vec::new(alloc),
            table: EntryTable::new(alloc),
            counters: Vec::new(alloc),
            limits: Vec::new(alloc),
            clauses: ClauseIndex::new(alloc),
            watchers: Watchers::new(alloc),
            trail: Assignment::new(alloc),
            reasons: Vec::new(alloc),
            orders: Orders::new(alloc),
            starts: Starts::new(alloc),
        }
    }

    /// What holds of every ledger, for a proof that needs it where nothing else of the ledger is asked.
    pub fn reveal(&self)
        ensures reasons { AreReasons (shown self.now.slots) self.now.assigned self.now.reasons }
        ensures few { length self.now.assigned ≤ self.now.variables }
        ensures once { IsOnce self.now.assigned }
        ensures consistent { IsConsistent self.now.assigned }
        ensures variables { (l : Lit) → lists self.now.assigned l ≡ true → l.var.0 < self.now.variables }
        ensures propagated { (pending : List Lit) × (self.now.assigned ≡ self.now.propagated ++ pending) }
    {
        self.trail.reveal();
    }

    /// Takes a free literal as true, forced by the constraint of a place or given. It is still to be propagated.
    pub fn assign(&mut self, literal: Lit, reason: Option<usize>)
        requires variable { literal.var.0 < self.old.variables }
        requires unset { lists self.old.assigned literal ≡ false }
        requires opposite_unset { lists self.old.assigned (opposite literal) ≡ false }
        requires reason { IsReason (shown self.old.slots) self.old.assigned literal reason }
        ensures { self.new ≡ record self.old { assigned = self.old.assigned ++ literal ∷ []; reasons = self.old.reasons ++ reason ∷ [] } }
    {
        self.trail.push(literal);
        self.reasons.push_reserved(reason);
    }

    /// Takes all literals as true that the constraint at a place forces, where its slack is this. They are still to be propagated.
    pub fn force(&mut self, place: usize, slack: u128)
        requires place { place < length self.old.slots }
        requires slack { HasSlack (shown self.old.slots) self.old.assigned place slack }
        ensures same { self.new ≡ record self.old { assigned = self.new.assigned; reasons = self.new.reasons } }
        ensures forced { IsForcedOn (constraint_at (shown self.old.slots) place) place self.old.assigned self.old.reasons
            self.new.assigned self.new.reasons }
        ensures quiet { IsQuiet self.new.assigned (constraint_at (shown self.old.slots) place) }
    {
        let Some(constraint) = &self.slots[place] else {
            return;
        };
        let passed = force_terms(
            constraint,
            self.orders.order(place),
            self.orders.passed(place),
            slack,
            place,
            &mut self.trail,
            &mut self.reasons,
        );
        self.orders.pass(place, passed);
    }

    /// Whether all literals that are taken as true were propagated.
    pub fn is_propagated(&self) -> bool
        ensures { IsTrue result ↔ (self.now.propagated ≡ self.now.assigned) }
    {
        self.trail.is_propagated()
    }

    /// Propagates the next literal: queues what may be falsified or force something then. Where a clause is falsified, whose place is
    /// returned, or memory ends, the literal is still to be propagated.
    pub fn propagate_next(&mut self, queue: &mut Queue) -> Result<Option<usize>, AllocError>
        requires pending { self.old.propagated ≡ self.old.assigned → ⊥ }
        requires queue { queue.old.1 ≡ length self.old.slots }
        ensures same { self.new ≡ record self.old { propagated = self.new.propagated } }
        ensures err { OnErr result (self.new.propagated ≡ self.old.propagated) }
        ensures count { queue.new.1 ≡ queue.old.1 }
        ensures kept { (k : ℕ) → Contains queue.old.0 k → Contains queue.new.0 k }
        ensures end { IfOk result (IsPropagation self.old self.new queue.new.0) }
    {
        let fallen = self.trail.next().opposite();
        let falsified = self.watchers.fall(
            self.slots.as_slice(),
            &self.trail,
            &mut self.starts,
            fallen,
            queue,
        )?;
        if falsified.is_some() {
            return Ok(falsified);
        }
        self.trail.advance();
        self.trail.reveal();
        lower(
            self.slots.as_slice(),
            &mut self.counters,
            self.limits.as_slice(),
            queue,
            self.table.row(fallen.code()),
        );
        Ok(None)
    }

    /// Takes the last literal back, if there is one.
    pub fn unassign_last(&mut self) -> Option<Lit>
        ensures slots { self.new.slots ≡ self.old.slots }
        ensures variables { self.new.variables ≡ self.old.variables }
        ensures assigned { MatchOption result ((self.old.assigned ≡ []) × (self.new.assigned ≡ []))
            (λ l. self.old.assigned ≡ self.new.assigned ++ l ∷ []) }
        ensures propagated { self.new.propagated ≡ take (length self.new.assigned) self.old.propagated }
        ensures unset { IfSome result (λ l. lists self.new.assigned l ≡ false) }
        ensures opposite_unset { IfSome result (λ l. IsOpen self.new.assigned l) }
        ensures variable { IfSome result (λ l. l.var.0 < self.old.variables) }
        ensures reasons { self.new.reasons ≡ take (length self.new.assigned) self.old.reasons }
    {
        let counted = self.trail.is_propagated();
        let literal = self.trail.pop()?;
        self.reasons.pop();
        self.orders.forget_passed();
        if counted {
            raise(
                &mut self.counters,
                self.table.row(literal.opposite().code()),
            );
        }
        Some(literal)
    }

    /// Queues the constraints with a literal, which is not made false, that may be falsified or force something.
    pub fn queue_places(&self, literal: Lit, queue: &mut Queue)
        requires variable { literal.var.0 < self.now.variables }
        requires unfallen { IsOpen self.now.propagated literal }
        requires queue { queue.old.1 ≡ length self.now.slots }
        ensures count { queue.new.1 ≡ queue.old.1 }
        ensures kept { (k : ℕ) → Contains queue.old.0 k → Contains queue.new.0 k }
        ensures queued { (k : ℕ) → 0 < coefficient_of (constraint_at (shown self.now.slots) k) literal
            → IsQuiet self.now.propagated (constraint_at (shown self.now.slots) k) ⊎ Contains queue.new.0 k }
    {
        queue_below(
            self.counters.as_slice(),
            self.limits.as_slice(),
            queue,
            self.table.row(literal.code()),
        );
        self.trail.reveal();
        self.watchers.queue_last(&self.trail, literal, queue);
    }

    /// How many clauses a literal watches, or watched and was not asked about since. It is a measure for the order of work, so no clause speaks of it.
    pub fn watch_count(&self, literal: Lit) -> usize {
        self.watchers.count(literal)
    }

    /// What is open in the constraint of a place: it is counted, or added up where it is watched.
    fn open(&self, place: usize, constraint: &Normal) -> u128
        requires { slice_index_or self.now.slots place None ≡ Some constraint.now }
        ensures { result ≡ open_sum self.now.propagated constraint.now }
    {
        match self.watchers.pair(place) {
            None => number_at(self.counters.as_slice(), place),
            Some(_) => open_sum(constraint, &self.trail),
        }
    }

    /// What the two literals tell of the constraint at a place, where it is watched by two.
    pub fn hint(&self, place: usize) -> Hint
        requires { place < length self.now.slots }
        ensures value { IsHint self.now.propagated (constraint_at (shown self.now.slots) place) result }
        ensures within { IsHintWithin self.now.variables result }
    {
        let Some(_) = &self.slots[place] else {
            return Hint::Quiet;
        };
        self.trail.reveal();
        match self.watchers.pair(place) {
            None => Hint::Unknown,
            Some(pair) => hint_of(&self.trail, pair),
        }
    }

    /// What the literals of the constraint at a place that are not made false have more than its degree, or `None`
    /// where it is falsified.
    pub fn slack(&self, place: usize) -> Option<u128>
        requires { place < length self.now.slots }
        ensures { MatchOption result (IsFalsified self.now.propagated (constraint_at (shown self.now.slots) place))
            (HasSlack (shown self.now.slots) self.now.propagated place) }
    {
        match &self.slots[place] {
            None => Some(0),
            Some(constraint) => self
                .open(place, constraint)
                .checked_sub(constraint.degree()),
        }
    }

    /// How many terms the constraint at a place has.
    pub fn term_count(&self, place: usize) -> usize
        requires { place < length self.now.slots }
        ensures value { result ≡ length (constraint_at (shown self.now.slots) place).terms }
        ensures rises { Rises 0 (constraint_at (shown self.now.slots) place).terms }
    {
        match &self.slots[place] {
            None => 0,
            Some(constraint) => constraint.len(),
        }
    }

    /// A term of the constraint at a place.
    pub fn term(&self, place: usize, index: usize) -> NormalTerm
        requires place { place < length self.now.slots }
        requires index { index < length (constraint_at (shown self.now.slots) place).terms }
        ensures value { result ≡ slice_index_or (constraint_at (shown self.now.slots) place).terms index result }
        ensures rises { Rises 0 (constraint_at (shown self.now.slots) place).terms }
        ensures variable { result.var.0 < self.now.variables }
    {
        match &self.slots[place] {
            None => unreachable!(),
            Some(constraint) => constraint.term(index),
        }
    }

    /// How many literals are taken as true: no more than variables.
    pub fn len(&self) -> usize
        ensures value { result ≡ length self.now.assigned }
        ensures few { length self.now.assigned ≤ self.now.variables }
        ensures reasons { AreReasons (shown self.now.slots) self.now.assigned self.now.reasons }
    {
        self.trail.len()
    }

    /// The literals that are taken as true, in order: none twice, and none beside its opposite.
    pub fn literals(&self) -> &[Lit]
        ensures assigned { result.now ≡ self.now.assigned }
        ensures once { IsOnce self.now.assigned }
        ensures consistent { IsConsistent self.now.assigned }
        ensures variables { (l : Lit) → lists self.now.assigned l ≡ true → l.var.0 < self.now.variables }
    {
        self.trail.assigned()
    }

    /// How many variables there is room for.
    pub fn variable_count(&self) -> usize
        ensures { result ≡ self.now.variables }
    {
        self.trail.count()
    }

    /// Whether a literal is taken as true.
    pub fn assigns(&self, literal: Lit) -> bool
        requires { literal.var.0 < self.now.variables }
        ensures { result ≡ lists self.now.assigned literal }
    {
        self.trail.assigns(literal)
    }

    /// Whether neither a literal nor its opposite is taken as true.
    pub fn leaves_free(&self, literal: Lit) -> bool
        requires { literal.var.0 < self.now.variables }
        ensures { IsTrue result ↔ (lists self.now.assigned literal ≡ false)
            × (lists self.now.assigned (opposite literal) ≡ false) }
    {
        self.trail.leaves_free(literal)
    }

    /// Where the literal of a variable stands on the trail, if one is there.
    pub fn position(&self, variable: usize) -> usize
        requires { variable < self.now.variables }
        ensures { (k : ℕ) (d : Lit) → k < length self.now.assigned
            → (slice_index_or self.now.assigned k d).var.0 ≡ variable → k ≡ result }
    {
        self.trail.position(variable)
    }

    /// The place of the constraint that forced the literal at an index of the trail.
    pub fn reason(&self, index: usize) -> Option<usize>
        requires { index < length self.now.assigned }
        ensures { result ≡ slice_index_or self.now.reasons index None }
    {
        self.reasons[index]
    }

    /// The constraint of a place, if there is one.
    pub fn get(&self, place: usize) -> Option<&Normal>
        requires { place < length self.now.slots }
        ensures { option_copied result ≡ slice_index_or self.now.slots place None }
    {
        self.slots[place].as_ref()
    }

    /// Lists the clauses that wait to be listed, for `entries`.
    pub fn list_clauses(&mut self) -> Result<(), AllocError>
        ensures same { self.new ≡ record self.old { listed = self.new.listed } }
        ensures ok { OnOk result (self.new.listed ≡ length self.old.slots) }
    {
        while self.clauses.count() < self.slots.len() {
            self.list_next()?;
        }
        Ok(())
    }

    /// Lists the clause of the next place, if one is watched there.
    fn list_next(&mut self) -> Result<(), AllocError>
        requires { self.old.listed < length self.old.slots }
        ensures same { self.new ≡ record self.old { listed = self.new.listed } }
        ensures ok { OnOk result (self.new.listed ≡ self.old.listed + 1) }
    {
        let place = self.clauses.count();
        let Some(constraint) = &self.slots[place] else {
            self.clauses.pass_over();
            return Ok(());
        };
        if self.watchers.pair(place).is_none() {
            self.clauses.pass_over();
            return Ok(());
        }
        self.clauses.enter(constraint)?;
        Ok(())
    }

    /// Where a literal stands, places that say nothing among them. All clauses are listed by then.
    pub fn entries(&self, literal: Lit) -> Entries<'_>
        requires { self.now.listed ≡ length self.now.slots }
        ensures value { AreEntriesOf self.now.slots literal (all_of result) }
        ensures places { All (λ e. e.place < length self.now.slots) (all_of result) }
    {
        let number = literal.code();
        Entries {
            counted: self.table.row(number),
            watched: self.clauses.row(number),
        }
    }

    /// Takes the constraint of a place out, if there is one, where it is no literal's reason. The place stays.
    pub fn take_out(&mut self, place: usize) -> Option<Normal>
        requires place { place < length self.old.slots }
        requires reasons { (k : ℕ) → k < length self.old.assigned → slice_index_or self.old.reasons k None ≡ Some place
            → ⊥ }
        ensures value { result ≡ slice_index_or self.old.slots place None }
        ensures slots { self.new ≡ record self.old { slots = slice_set self.old.slots place None } }
    {
        set_nought(&mut self.limits, place);
        self.orders.take_out(place);
        self.watchers.forget(place);
        self.slots[place].take()
    }

    /// How many places there are.
    pub fn count(&self) -> usize
        ensures { result ≡ length self.now.slots }
    {
        self.slots.len()
    }

    /// Makes room for the variables below a number.
    pub fn widen(&mut self, alloc: Global, variables: usize) -> Result<(), AllocError>
        requires { variables ≤ most_names }
        ensures slots { self.new.slots ≡ self.old.slots }
        ensures assigned { self.new.assigned ≡ self.old.assigned }
        ensures propagated { self.new.propagated ≡ self.old.propagated }
        ensures reasons { self.new.reasons ≡ self.old.reasons }
        ensures more { self.old.variables ≤ self.new.variables }
        ensures ok { OnOk result (variables ≤ self.new.variables) }
    {
        if variables <= self.trail.count() {
            return Ok(());
        }
        self.table.widen(variables * 2)?;
        self.clauses.widen(variables * 2)?;
        self.watchers.widen(alloc, variables * 2)?;
        self.reasons
            .reserve(variables.saturating_sub(self.reasons.len()))?;
        self.trail.widen(variables)
    }

    /// Moves the constraint of a slot to the next place, to be counted.
    fn attach_counted(&mut self, slot: &mut Option<Normal>) -> Result<(), AllocError>
        requires there { IsSome slot.old }
        requires variables { IfSome slot.old (λ n. variable_bound n.terms ≤ self.old.variables) }
        ensures ok { OnOk result (self.new ≡ record self.old { slots = self.old.slots ++ slot.old ∷ [] }) }
        ensures moved { OnOk result (slot.new ≡ None) }
        ensures err { OnErr result (self.new ≡ self.old) }
        ensures kept { OnErr result (slot.new ≡ slot.old) }
    {
        let Some(constraint) = slot.as_ref() else {
            unreachable!()
        };
        self.slots.reserve(1)?;
        fill_up(&mut self.counters, &mut self.limits, self.slots.len())?;
        self.orders.give(self.slots.len(), constraint)?;
        let open = open_sum(constraint, &self.trail);
        let limit = constraint.degree() + largest(constraint);
        enter_counted(&mut self.table, &mut self.watchers, constraint)?;
        self.counters.push_reserved(open);
        self.limits.push_reserved(limit);
        self.slots.push_reserved(slot.take());
        Ok(())
    }

    /// Moves the clause of a slot to the next place, to be watched by two literals that tell of it under each beginning of the trail.
    fn attach_watched(&mut self, slot: &mut Option<Normal>, pair: Pair) -> Result<(), AllocError>
        requires there { IsSome slot.old }
        requires variables { IfSome slot.old (λ n. variable_bound n.terms ≤ self.old.variables) }
        requires pair { IfSome slot.old (λ n. IsPairOf n pair) }
        requires tell { IfSome slot.old (λ n. (h : ℕ) → Tell (take h self.old.propagated) n pair) }
        ensures ok { OnOk result (self.new ≡ record self.old { slots = self.old.slots ++ slot.old ∷ [] }) }
        ensures moved { OnOk result (slot.new ≡ None) }
        ensures err { OnErr result (self.new ≡ self.old) }
        ensures kept { OnErr result (slot.new ≡ slot.old) }
    {
        let Some(constraint) = slot.as_ref() else {
            unreachable!()
        };
        self.slots.reserve(1)?;
        let place = self.slots.len();
        self.orders.give(place, constraint)?;
        self.starts.widen(place + 1)?;
        self.watchers.watch(constraint, pair)?;
        self.slots.push_reserved(slot.take());
        Ok(())
    }

    /// Leaves the next place empty.
    fn skip(&mut self) -> Result<(), AllocError>
        ensures ok { OnOk result (self.new ≡ record self.old { slots = self.old.slots ++ None ∷ [] }) }
        ensures err { OnErr result (self.new ≡ self.old) }
    {
        self.slots.reserve(1)?;
        self.watchers.skip()?;
        self.slots.push_reserved(None);
        Ok(())
    }

    /// Moves what is in a slot to the next place, which stays empty where nothing is. Where memory ends it stays where it is.
    pub fn attach(&mut self, slot: &mut Option<Normal>) -> Result<(), AllocError>
        requires { IfSome slot.old (λ n. variable_bound n.terms ≤ self.old.variables) }
        ensures ok { OnOk result (self.new ≡ record self.old { slots = self.old.slots ++ slot.old ∷ [] }) }
        ensures moved { OnOk result (slot.new ≡ None) }
        ensures err { OnErr result (self.new ≡ self.old) }
        ensures kept { OnErr result (slot.new ≡ slot.old) }
    {
        let Some(constraint) = slot.as_ref() else {
            return self.skip();
        };
        match latest_pair(constraint, &self.trail) {
            None => self.attach_counted(slot),
            Some(pair) => self.attach_watched(slot, pair),
        }
    }

    /// Takes the constraint of the last place off, and the place.
    pub fn detach(&mut self)
        requires live { IsSome (slice_index_or self.old.slots (length self.old.slots - 1) None) }
        requires reasons { (k place : ℕ) → k < length self.old.assigned
            → slice_index_or self.old.reasons k None ≡ Some place → place + 1 < length self.old.slots }
        ensures { self.new ≡ record self.old { slots = take (length self.old.slots - 1) self.old.slots; listed = self.new.listed } }
    {
        match self.slots.pop() {
            Some(Some(constraint)) => {
                let count = constraint.len();
                let place = self.slots.len();
                match self.watchers.pair(place) {
                    None => {
                        leave(&mut self.table, &constraint, count);
                        self.clauses.leave_out(place);
                    }
                    Some(_) => self.clauses.leave(place, &constraint),
                }
                self.watchers.detach();
                self.orders.take_out(place);
                self.counters.truncate(place);
                self.limits.truncate(place);
            }
            _ => unreachable!(),
        }
    }
}
