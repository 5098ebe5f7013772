//! Laws of the definitions of what lines say and of proofs, each the contract of a function that does nothing.
//!
//! What is accepted is claimed of the proof that a text spells, so "the proof" must be one: were a line to say two things, a
//! checker could judge one of them while a reader of its verdict believes the other. In the format each line has one reading
//! by construction (an integer before `*` belongs to it, names and images alternate, no space or closing `;` changes
//! a line), and here that is a theorem about the definitions alone, whatever the code does.

ghost use Rattle.std.specs.Prelude.{◌≡◌, ◌+◌, ◌∷◌, ◌++◌, ℕ, ℤ, List};
ghost use Rattle.proof_steps.specs.declared.step.Step.{Step};
ghost use Rattle.proof_steps.specs.declared.conclusion.Conclusion.{Conclusion};
ghost use Rattle.proof_text.specs.declared.line.Line.{Line};
ghost use Rattle.proof_text.specs.declared.line.Section.{Section};
ghost use Rattle.proof_lines.specs.Lines.{Numbered};
ghost use Rattle.proof_text.specs.Sections.{AreNested, LineStands};
ghost use Rattle.proof_text.specs.Spells.{IsLine};
ghost use Rattle.proof_text.specs.ProofSpells.{AreSteps, SpellsProof};

/// A line says one thing at its section, and leaves one table of names.
pub fn one_line()
    ensures { (section : Section) → (old ws : List (List ℕ)) → (line other : Line) → (new later : List (List ℕ))
        → IsLine section old ws line new → IsLine section old ws other later → (line ≡ other) × (new ≡ later) }
{}

/// Lines spell one list of steps from a section on, and leave one table of names.
pub fn one_list_of_steps()
    ensures { (section : Section) → (old : List (List ℕ)) → (lines : List Numbered) → (steps others : List Step) → (new later : List (List ℕ))
        → AreSteps section old lines steps new → AreSteps section old lines others later → (steps ≡ others) × (new ≡ later) }
{}

/// A text spells one proof at most: one count, one list of steps and one conclusion.
pub fn one_proof()
    ensures { (text : List ℕ) → (file : List (List ℕ)) → (count other : ℤ) → (steps others : List Step) → (c d : Conclusion)
        → SpellsProof text file count steps c → SpellsProof text file other others d
        → (count ≡ other) × (steps ≡ others) × (c ≡ d) }
{}

/// A line says what may stand at its section: `proofgoal` in a block alone, `end` in a block or a goal, `pol` and `rup` there
/// too, and anything else outside.
pub fn lines_stand_in_their_places()
    ensures { (section : Section) → (old ws : List (List ℕ)) → (line : Line) → (new : List (List ℕ))
        → IsLine section old ws line new → LineStands section line }
{}

/// The steps of a text are well nested: each may stand where it stands, and no block is left open. So whoever judges them in
/// their order never meets a step that wants a block where none is open, or none where one is.
pub fn steps_are_nested()
    ensures lines { (section : Section) → (old : List (List ℕ)) → (lines : List Numbered) → (steps : List Step) → (new : List (List ℕ))
        → AreSteps section old lines steps new → AreNested section steps }
    ensures proof { (text : List ℕ) → (file : List (List ℕ)) → (count : ℤ) → (steps : List Step) → (c : Conclusion)
        → SpellsProof text file count steps c → AreNested Section.Step steps }
{}
