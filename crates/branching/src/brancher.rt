//! Who chooses the literals that a search decides.
//!
//! A brancher advises and no more: whatever it answers, the steps that are logged are legal, since an answer that is no
//! free variable's literal is replaced. So it has no contract but that its calls return, anybody may write one, and it is
//! handed in as a `Box<dyn Brancher>`. It is told of what rules of choice live on: what an analysis met, what was learned, what is
//! no more assigned, solutions, restarts, and to what the linear relaxation leads; and how far the search has come.

ghost use Rattle.std.specs.Prelude.{◌≡◌, None};

use super::progress::Progress;
use linear::{Lit, Problem, Var};
use propagate::Value;

/// A rule of choice.
pub trait Brancher: Drop {
    /// A search of this problem begins.
    fn begin(&mut self, problem: &Problem);

    /// The literal to be taken as true next, where `values` has the value of each variable of the file by its number. None
    /// leaves the choice to the search; so does a literal of a variable that is not free.
    fn pick(&mut self, values: &[Value]) -> Option<Lit>;

    /// The analysis of a conflict came by these variables: those of each constraint that was added up in it, of what was added
    /// of it, as often as one was.
    fn met(&mut self, variables: &[Var]);

    /// A conflict was learned from: these variables occur in what was learned.
    fn conflict(&mut self, variables: &[Var]);

    /// This literal is no more decided or forced, since the search went back; or it was picked and is not decided after all.
    fn unassigned(&mut self, literal: Lit);

    /// A solution was found, by these literals, which is better than those before.
    fn solution(&mut self, literals: &[Lit]);

    /// The search began anew: no decision is open.
    fn restarted(&mut self);

    /// The linear relaxation of the problem has a best point under what stands, which leads to these literals: each of a variable that was
    /// free.
    fn lean(&mut self, literals: &[Lit]);

    /// These literals are to be decided next, the first of them that is free first, until there is a conflict or others are preferred: so a dive
    /// goes along the best points of the relaxation.
    fn prefer(&mut self, literals: &[Lit]);

    /// So far the search has come: it is told with each solution that is better than those before, and every so many conflicts. Nothing
    /// is asked; a line may be printed.
    fn progress(&mut self, progress: Progress);
}

/// Leaves every choice to the search, which takes the first free variable and sets it to false.
#[derive(Clone, Copy, Debug, PartialEq, Eq)]
pub struct First;

impl Brancher for First {
    fn begin(&mut self, _problem: &Problem) {}

    /// Always none.
    fn pick(&mut self, _values: &[Value]) -> Option<Lit>
        ensures { result ≡ None }
    {
        None
    }

    fn met(&mut self, _variables: &[Var]) {}

    fn conflict(&mut self, _variables: &[Var]) {}

    fn unassigned(&mut self, _literal: Lit) {}

    fn solution(&mut self, _literals: &[Lit]) {}

    fn restarted(&mut self) {}

    fn lean(&mut self, _literals: &[Lit]) {}

    fn prefer(&mut self, _literals: &[Lit]) {}

    fn progress(&mut self, _progress: Progress) {}
}
