//! Rows of tables: a problem, the steps of a proof, what it concludes, and what is printed. A row names its problem: a table
//! of names is quick to prove, and one of texts is not.

use super::answers::answers;
use std::process::Abort;
use std::test::Fail;

/// A problem, the steps of a proof, each ended by LF, what it concludes, and what is printed.
#[derive(Clone, Copy)]
pub(crate) struct Row {
    pub(crate) problem: Problem,
    pub(crate) steps: &'static str,
    pub(crate) conclusion: &'static str,
    pub(crate) printed: &'static str,
}

pub(crate) const PIGEONS_IN_HOLES: &str =
    "1 x1 1 x2 >= 1 ; 1 x3 1 x4 >= 1 ; 1 x5 1 x6 >= 1 ; -1 x1 -1 x3 -1 x5 >= -1 ; -1 x2 -1 x4 -1 x6 >= -1 ;";

/// The problems of the rows.
#[derive(Clone, Copy)]
pub(crate) enum Problem {
    Pigeons,
    First,
    Either,
    NotBoth,
    SecondAlone,
    SecondEitherWay,
    Weighted,
    TwoOfThree,
    /// Its literals are forced against the order of its constraints.
    Chain,
    Price,
    Cheaper,
    Equal,
    Reward,
    Contradiction,
    /// An objective, a contradiction, and a constraint without terms.
    Optimising,
    Triangle,
    /// Four of one price, and a fifth that takes the first along.
    FourAndOne,
    /// Two of three are true and two are false, which no assignment meets.
    Majorities,
    /// Four of one price, of which three are wanted, or a fifth in the place of all.
    Tickets,
}

impl Problem {
    fn text(self) -> &'static str {
        match self {
            Problem::Pigeons => PIGEONS_IN_HOLES,
            Problem::First => "1 x1 >= 1 ;",
            Problem::Either => "1 x1 1 x2 >= 1 ;",
            Problem::NotBoth => "1 x1 1 x2 >= 1 ; 1 ~x1 1 ~x2 >= 1 ;",
            Problem::SecondAlone => "1 x1 1 x2 >= 1 ; 1 ~x1 >= 1 ;",
            Problem::SecondEitherWay => "1 x1 1 x2 >= 1 ; 1 ~x1 1 x2 >= 1 ;",
            Problem::Weighted => "3 x1 2 x2 1 x3 >= 4 ;",
            Problem::TwoOfThree => "1 x1 1 x2 1 x3 >= 2 ;",
            Problem::Chain => "1 ~x2 1 x3 >= 1 ; 1 ~x1 1 x2 >= 1 ; 1 x1 >= 1 ; 1 ~x3 >= 1 ;",
            Problem::Price => "min: 1 x1 ;",
            Problem::Cheaper => "min: 2 x1 3 x2 ; 1 x1 1 x2 >= 1 ;",
            Problem::Equal => "min: 1 x1 1 x2 ; 1 x1 1 x2 >= 1 ;",
            Problem::Reward => "min: -1 x1 ;",
            Problem::Contradiction => "min: 1 x1 ; 1 x1 >= 2 ;",
            Problem::Optimising => "min: 1 x1 ; 1 x1 >= 2 ; >= 0 ;",
            Problem::Triangle => {
                "min: 2 x1 3 x2 4 x3 ; 1 x1 1 x2 >= 1 ; 1 x2 1 x3 >= 1 ; 1 x1 1 x3 >= 1 ;"
            }
            Problem::FourAndOne => "min: 1 x1 1 x2 1 x3 1 x4 ; 1 x1 -1 x5 >= 0 ;",
            Problem::Majorities => "1 x1 1 x2 1 x3 >= 2 ; 1 ~x1 1 ~x2 1 ~x3 >= 2 ;",
            Problem::Tickets => {
                "min: 2 x1 2 x2 2 x3 2 x4 5 x5 ; 1 x1 1 x2 1 x3 1 x4 3 x5 >= 3 ;"
            }
        }
    }

    /// How many ids its constraints take.
    fn count(self) -> u64 {
        match self {
            Problem::Price | Problem::Reward => 0,
            Problem::First
            | Problem::Either
            | Problem::Weighted
            | Problem::TwoOfThree
            | Problem::Cheaper
            | Problem::Equal
            | Problem::Contradiction
            | Problem::FourAndOne
            | Problem::Tickets => 1,
            Problem::NotBoth
            | Problem::SecondAlone
            | Problem::SecondEitherWay
            | Problem::Optimising
            | Problem::Majorities => 2,
            Problem::Triangle => 3,
            Problem::Chain => 4,
            Problem::Pigeons => 5,
        }
    }
}

/// Checks what is printed for these steps, each ended by LF, and this conclusion.
pub(crate) fn proof_answers<R: Abort + AllocGlobal>(
    rt: &R,
    problem: Problem,
    steps: &str,
    conclusion: &str,
    printed: &str,
) -> Result<(), Fail> {
    let proof = format!(in rt.alloc();
        "pseudo-Boolean proof version 2.0\nf {}\n{steps}output NONE\nconclusion {conclusion}\nend pseudo-Boolean proof\n",
        problem.count()
    )?;
    answers(rt, problem.text().as_bytes(), proof.as_bytes(), printed)
}

/// Checks what is printed for each row.
pub(crate) fn rows_answer<R: Abort + AllocGlobal>(rt: &R, rows: &[Row]) -> Result<(), Fail> {
    for row in rows {
        proof_answers(rt, row.problem, row.steps, row.conclusion, row.printed)?;
    }
    Ok(())
}

/// Checks that a third line is refused with this number and name.
pub(crate) fn line_is_refused<R: Abort + AllocGlobal>(
    rt: &R,
    problem: Problem,
    line: &str,
    code: &str,
) -> Result<(), Fail> {
    let steps = format!(in rt.alloc(); "{line}\n")?;
    let printed = format!(in rt.alloc(); "refused line 3 code {code}\n")?;
    proof_answers(rt, problem, steps.as_str(), "NONE", printed.as_str())
}
