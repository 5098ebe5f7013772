//! Addition of two constraints, the rule by which cutting planes (Cook, Coullard and Turán) derives what resolution
//! cannot, such as that three pigeons do not fit into two holes.
//!
//! `c x + d ~x` is `(c - d) x + d` where c is at least d: the lesser coefficient goes from both literals, and what it
//! is worth whatever the assignment goes from the degree.

ghost use Rattle.std.specs.Prelude.{◌≡◌, IfOk, OnOk, IsErrOf};
ghost use Rattle.linear.specs.Valuation.{Valuation};
ghost use Rattle.normal_form.specs.Normal.{NormalConstraint, IsNormal, Fits, Holds, Rises};
ghost use Rattle.cut_rules.specs.Rules.{IsSum, IsTooLarge};
ghost use Rattle.cut_rules.specs.Steps.{SumBalances};

use super::merging::merge;
use normal_form::{CutFault, Normal, NormalBuilder};
use std::alloc::Global;

/// The sum of two constraints, of their merged terms. What cancels goes from both of two opposite literals, so
/// the coefficient sum falls by twice as much.
fn with_degree(merged: NormalBuilder, left: &Normal, right: &Normal) -> Result<Normal, CutFault>
    requires balance { SumBalances left.now.terms right.now.terms merged }
    requires rises { Rises 0 merged }
    ensures sum { IfOk result (IsSum left.now right.now) }
    ensures normal { IfOk result IsNormal }
    ensures keeps { IfOk result (λ r. (a : Valuation) → Holds a left.now → Holds a right.now → Holds a r) }
    ensures too_large { IsErrOf result CutFault.TooLarge → (r : NormalConstraint) × IsTooLarge (IsSum left.now right.now) r }
    ensures within { OnOk result ((r : NormalConstraint) → IsSum left.now right.now r → Fits r) }
    ensures factor { IsErrOf result CutFault.BadFactor → ⊥ }
{
    let cancelled = (left.sum() + right.sum() - merged.capped_sum()) / 2;
    let degree = (left.degree() + right.degree()).saturating_sub(cancelled);
    merged.finish(degree)
}

/// The sum of two constraints: coefficients and degrees add, and what opposite literals have in common goes from
/// both and from the degree; a degree below 0 becomes 0. `TooLarge` comes exactly where the coefficient sum or
/// the degree of the result is above `2^120`; what cancels does not count.
pub fn add(alloc: Global, left: &Normal, right: &Normal) -> Result<Normal, CutFault>
    ensures sum { IfOk result (IsSum left.now right.now) }
    ensures normal { IfOk result IsNormal }
    ensures keeps { IfOk result (λ r. (a : Valuation) → Holds a left.now → Holds a right.now → Holds a r) }
    ensures too_large { IsErrOf result CutFault.TooLarge → (r : NormalConstraint) × IsTooLarge (IsSum left.now right.now) r }
    ensures within { OnOk result ((r : NormalConstraint) → IsSum left.now right.now r → Fits r) }
    ensures factor { IsErrOf result CutFault.BadFactor → ⊥ }
{
    with_degree(merge(alloc, left, right)?, left, right)
}
