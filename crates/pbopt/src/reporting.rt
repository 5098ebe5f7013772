//! A rule of choice that also says how far the search has come, on standard error, where that is wanted.
//!
//! Who waits wants to know whether it goes on: from how many conflicts the search has learned, and how far apart the best solution and the
//! bound are. What is printed is for looking at: where it cannot be printed the search goes on all the same.

use linear::{Integer, Lit, Problem, Var};
use search::{Activity, Brancher, Progress, Value};
use std::fmt;

/// Chooses by the conflicts, and prints a line with each solution, and every so many conflicts, where there is a place for lines.
#[derive(Drop)]
pub(crate) struct Reporting {
    rules: Activity,
    lines: Option<HostRuntime>,
}

/// A number that may not be known.
#[derive(Clone, Copy, Debug)]
struct Known(Option<Integer>);

impl fmt::Display for Known {
    fn fmt<W: fmt::Write>(&self, f: &mut fmt::Formatter<W>) -> fmt::Result {
        match self.0 {
            Some(number) => write!(f, "{number}"),
            None => write!(f, "-"),
        }
    }
}

impl Reporting {
    /// The same choices, and lines where there is a place for them.
    pub(crate) fn new(rules: Activity, lines: Option<HostRuntime>) -> Self {
        Reporting { rules, lines }
    }
}

impl Brancher for Reporting {
    fn begin(&mut self, problem: &Problem) {
        self.rules.begin(problem);
    }

    fn pick(&mut self, values: &[Value]) -> Option<Lit> {
        self.rules.pick(values)
    }

    fn met(&mut self, variables: &[Var]) {
        self.rules.met(variables);
    }

    fn conflict(&mut self, variables: &[Var]) {
        self.rules.conflict(variables);
    }

    fn unassigned(&mut self, literal: Lit) {
        self.rules.unassigned(literal);
    }

    fn solution(&mut self, literals: &[Lit]) {
        self.rules.solution(literals);
    }

    fn restarted(&mut self) {
        self.rules.restarted();
    }

    fn lean(&mut self, literals: &[Lit]) {
        self.rules.lean(literals);
    }

    fn prefer(&mut self, literals: &[Lit]) {
        self.rules.prefer(literals);
    }

    fn progress(&mut self, progress: Progress) {
        let Some(rt) = &self.lines else {
            return;
        };
        let Progress {
            conflicts,
            restarts,
            kept,
            best,
            bound,
        } = progress;
        let _ = eprintln!(rt;
            "c conflicts {conflicts} restarts {restarts} kept {kept} best {} bound {}",
            Known(best),
            Known(bound)
        );
    }
}
