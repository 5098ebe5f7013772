//! Whether a constraint bites under all that stands on a trail: the closure of the decisions to which a search goes back.
//!
//! The trail of a conflict may say less than propagation over what is live by now. So whoever goes back asks the propagator what the
//! decisions that are left extend to, brings the trail in step with that, and then asks here.

ghost use Rattle.std.specs.Prelude.{◌↔◌, IsTrue, map};
ghost use Rattle.analysis.specs.Biting.{Bites};

use super::biting::bites;
use super::search_trail::SearchTrail;
use normal_form::Normal;

/// Whether a constraint has negative slack, or forces a literal, under all literals of a trail.
pub fn bites_under(constraint: &Normal, trail: &SearchTrail) -> bool
    ensures { IsTrue result ↔ Bites (map (λ e. e.literal) trail.now.entries) constraint.now }
{
    bites(constraint, trail, trail.open_decisions())
}
