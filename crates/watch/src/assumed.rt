//! What assuming literals one after another comes to.

ghost use Rattle.std.specs.Prelude.{◌≡◌, ◌↔◌, IsTrue};

/// All are there and all is propagated, or a constraint is falsified, or the opposite of a literal is there.
#[derive(Clone, Copy, Debug)]
pub(crate) enum Assumed {
    Whole,
    Falsified(usize),
    Clash,
}

impl Assumed {
    /// Whether all are there, and all is propagated.
    pub(crate) fn is_whole(self) -> bool
        ensures { IsTrue result ↔ (self ≡ Assumed.Whole) }
    {
        match self {
            Assumed::Whole => true,
            Assumed::Falsified(_) | Assumed::Clash => false,
        }
    }
}
