//! Another literal of a clause, which is to watch it in place of one that falls.

ghost use Rattle.std.specs.Prelude.{◌≡◌, ◌↔◌, ◌<◌, ◌≤◌, ◌⊎◌, false, IfSome, IsTrue, MatchOption, None, length, slice_index_or};
ghost use Rattle.linear.specs.declared.term.Lit.{Lit};
ghost use Rattle.trail.specs.Trails.{on_trail};
ghost use Rattle.ledger.specs.Watched.{AreFalseWithin, AreRestFalse, AreWithin, IsApart, IsFalseBeside, IsOpen, IsOpenAt};

use super::pair::Pair;
use super::starts::Starts;
use linear::Lit;
use trail::Assignment;

/// Whether a literal is none of two others.
fn is_apart(literal: Lit, others: Pair) -> bool
    ensures { IsTrue result ↔ IsApart others literal }
{
    literal != others.first && literal != others.second
}

/// Whether the literal at an index is open and none of two others.
fn is_open_at(literals: &[Lit], trail: &Assignment, index: usize, others: Pair) -> bool
    requires index { index < length literals.now }
    requires within { AreWithin trail.now.1 literals.now }
    ensures yes { IsTrue result → (d : Lit) → IsOpen trail.now.0 (slice_index_or literals.now index d) }
    ensures apart { IsTrue result → (d : Lit) → IsApart others (slice_index_or literals.now index d) }
    ensures no { result ≡ false → (d : Lit) → IsFalseBeside trail.now.0 others (slice_index_or literals.now index d) }
{
    let literal = literals[index];
    !trail.has_propagated(literal.opposite()) && is_apart(literal, others)
}

/// Looks through the literals of a clause from an index to another for one that none makes false, beside two others; whether there is one. On the way the
/// first literal is kept, unless one is, that only literals make false which are still to be propagated.
fn open_in(
    literals: &[Lit],
    trail: &Assignment,
    others: Pair,
    from: usize,
    to: usize,
    falling: &mut Option<usize>,
) -> Option<usize>
    requires from { 2 ≤ from }
    requires to { to ≤ length literals.now }
    requires within { AreWithin trail.now.1 literals.now }
    ensures open { IfSome result (IsOpenAt (on_trail trail.now) literals.now others) }
    ensures all { result ≡ None → AreFalseWithin (on_trail trail.now) literals.now others from to }
    ensures none { result ≡ None → falling.new ≡ None → (falling.old ≡ None) × AreFalseWithin trail.now.0 literals.now others from to }
    ensures falling { IfSome falling.old (IsOpenAt trail.now.0 literals.now others) → IfSome falling.new (IsOpenAt trail.now.0 literals.now others) }
{
    for index in from..to {
        let literal = literals[index];
        if !trail.assigns(literal.opposite()) {
            if is_apart(literal, others) {
                return Some(index);
            }
        } else if falling.is_none() && is_open_at(literals, trail, index, others) {
            *falling = Some(index);
        }
    }
    None
}

/// The index of an open literal behind the two that watch a clause, which are these, if there is one: best one that no literal makes
/// false which is still to be propagated, since it would soon be sought anew. It is sought from behind the one found last, round about.
pub(crate) fn open_beside(
    literals: &[Lit],
    trail: &Assignment,
    others: Pair,
    starts: &mut Starts,
    place: usize,
) -> Option<usize>
    requires two { 2 ≤ length literals.now }
    requires within { AreWithin trail.now.1 literals.now }
    ensures value { MatchOption result (AreRestFalse trail.now.0 literals.now others) (IsOpenAt trail.now.0 literals.now others) }
    ensures last { IfSome result (λ k. ((d : Lit) → IsOpen (on_trail trail.now) (slice_index_or literals.now k d))
        ⊎ AreRestFalse (on_trail trail.now) literals.now others) }
{
    let start = starts.get(place).min(literals.len() - 2) + 2;
    let mut falling = None;
    let mut found = open_in(literals, trail, others, start, literals.len(), &mut falling);
    if found.is_none() {
        found = open_in(literals, trail, others, 2, start, &mut falling);
    }
    let chosen = found.or(falling);
    if let Some(index) = chosen {
        starts.set(place, index - 1);
    }
    chosen
}
