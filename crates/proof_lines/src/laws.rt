//! What holds of the lines of a text, whatever the code does: the contract of a function that does nothing.

ghost use Rattle.std.specs.Prelude.{◌≡◌, ◌+◌, ◌∷◌, ◌++◌, ℕ, List};
ghost use Rattle.proof_lines.specs.Lines.{breaks, counting_from};

/// The lines of two texts with an LF between them are those of the one and then those of the other, numbered on: so a text
/// may be read in pieces, however it is cut.
pub fn lines_of_two_texts()
    ensures { (number : ℕ) → (a b : List ℕ)
        → counting_from number (a ++ 10 ∷ b) ≡ counting_from number a ++ counting_from (number + 1 + breaks a) b }
{}
