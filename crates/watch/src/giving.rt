//! A given literal, taken as true on top of those that are there.
//!
//! It may be there already, since the constraints force it, and is then not listed twice. It has no reason. The walk that
//! follows propagates it.

ghost use Rattle.std.specs.Prelude.{◌≡◌, ◌<◌, ◌∷◌, [], false, true};
ghost use Rattle.linear.specs.Literal.{opposite};
ghost use Rattle.propagate.specs.Literals.{lists};
ghost use Rattle.watch.specs.Givens.{IsGiven, IsPushed};

use ledger::Ledger;
use linear::Lit;

/// Takes a literal as true, unless it is there. Its opposite is not.
pub(crate) fn give(ledger: &mut Ledger, literal: Lit)
    requires variable { literal.var.0 < ledger.old.variables }
    requires free { lists ledger.old.assigned (opposite literal) ≡ false }
    ensures given { IsGiven ledger.old ledger.new (literal ∷ []) }
    ensures propagated { ledger.new.propagated ≡ ledger.old.propagated }
    ensures there { lists ledger.new.assigned literal ≡ true }
    ensures pushed { lists ledger.old.assigned literal ≡ false → IsPushed ledger.old ledger.new literal }
{
    if ledger.assigns(literal) {
        return;
    }
    ledger.assign(literal, None);
}
