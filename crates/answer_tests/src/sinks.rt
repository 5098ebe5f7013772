//! A whole run into sinks over memory: the proof goes first and the answer behind it, each in pieces as its sink takes them. Where a push
//! fails, its sink has taken a beginning, the fault says whose push it was, and no answer is begun before all of the proof is taken.
//!
//! What is to be written is what `decide` and `answer_text` give for the same problem, which other tests here judge.

ghost use Rattle.std.specs.Prelude.{◌≡◌, IfOk, IfSome};

use super::rules::{Rule, brancher};
use super::seen::{Seen, solve};
use pb_main::{Outcome, RunFault, run, status};
use pb_text::MemSink;
use std::alloc::{AllocError, Global};
use std::process::Abort;
use std::test::Fail;

const CHEAPER: &str = "min: 2 x1 3 x2 ; 1 x1 1 x2 >= 1 ;";

/// three pigeons in two holes
const PIGEONS: &str =
    "1 x1 1 x2 >= 1 ; 1 x3 1 x4 >= 1 ; 1 x5 1 x6 >= 1 ; -1 x1 -1 x3 -1 x5 >= -1 ; -1 x2 -1 x4 -1 x6 >= -1 ;";

/// units alone
const UNITS: &str = "1 x1 >= 1 ; 1 ~x2 >= 1 ;";

/// A text that is no problem.
const NO_PROBLEM: &str = "1 x1 >= 1\n";

/// More than any answer or proof here takes.
const ROOM: usize = 4096;

/// More conflicts than any of these problems meets.
const CONFLICTS: u64 = 1000000;

/// What a sink over memory is told: how many bytes it has room for, how many it takes at a push, and which push fails, counted
/// from 0 on, if one does.
#[derive(Clone, Copy)]
struct Taking {
    room: usize,
    portion: usize,
    failing: Option<u64>,
}

/// All, at once.
const AT_ONCE: Taking = Taking {
    room: ROOM,
    portion: ROOM,
    failing: None,
};

/// Nothing: the first push fails.
const NOTHING: Taking = Taking {
    room: ROOM,
    portion: ROOM,
    failing: Some(0),
};

/// Two pushes of five bytes; the third fails.
const TWO_BY_FIVE: Taking = Taking {
    room: ROOM,
    portion: 5,
    failing: Some(2),
};

/// Four bytes, for more of which there is no room.
const FOUR_BYTES: Taking = Taking {
    room: 4,
    portion: 3,
    failing: None,
};

/// How a run ended.
#[derive(Clone, Copy, Debug, PartialEq, Eq)]
enum End {
    /// All was written, and this is the exit status.
    Written(u8),
    ProofFailed,
    /// A push of the answer with this exit status failed.
    AnswerFailed(u8),
}

/// How a run ended, for comparison.
fn end_of(ended: &Result<Outcome, RunFault>) -> End {
    match ended {
        Ok(outcome) => End::Written(status(outcome)),
        Err(RunFault::ProofWrite) => End::ProofFailed,
        Err(RunFault::AnswerWrite(outcome)) => End::AnswerFailed(status(outcome)),
    }
}

/// An empty sink that does as it is told.
fn sink(alloc: Global, taking: Taking) -> Result<MemSink, AllocError>
    ensures { IfOk result (λ sink. sink.failures ≡ 0) }
{
    MemSink::new(alloc, taking.room, taking.portion, taking.failing)
}

/// An empty sink, where one is asked for.
fn any_sink(alloc: Global, taking: Option<Taking>) -> Result<Option<MemSink>, AllocError>
    ensures { IfOk result (λ any. IfSome any (λ sink. sink.failures ≡ 0)) }
{
    match taking {
        Some(taking) => Ok(Some(sink(alloc, taking)?)),
        None => Ok(None),
    }
}

/// What a run has left behind: how it ended, and the sinks.
#[derive(Drop)]
struct Ran {
    end: End,
    out: MemSink,
    proof_out: Option<MemSink>,
}

impl Ran {
    /// Whether the run ended like this, and its sinks have taken just this answer and this proof; nothing was taken as a proof where
    /// there is no sink for it.
    fn is(&self, end: End, answer: &[u8], proof: &[u8]) -> bool {
        let taken = match &self.proof_out {
            Some(sink) => sink.taken(),
            None => b"",
        };
        self.end == end && self.out.taken() == answer && taken == proof
    }
}

/// How a run ends that writes into these sinks.
fn end_into(
    alloc: Global,
    opb: &str,
    out: &mut MemSink,
    proof_out: &mut Option<MemSink>,
) -> Result<End, AllocError>
    requires out { out.old.failures ≡ 0 }
    requires proof_out { IfSome proof_out.old (λ sink. sink.failures ≡ 0) }
{
    let brancher = brancher(alloc, Rule::First)?;
    let ended = run(alloc, opb.as_bytes(), CONFLICTS, brancher, out, proof_out);
    Ok(end_of(&ended))
}

/// Runs into sinks that are made for it.
fn run_into(alloc: Global, opb: &str, out: Taking, proof_out: Option<Taking>) -> Result<Ran, Fail> {
    let mut out = sink(alloc, out)?;
    let mut proof_out = any_sink(alloc, proof_out)?;
    let end = end_into(alloc, opb, &mut out, &mut proof_out)?;
    Ok(Ran {
        end,
        out,
        proof_out,
    })
}

/// What a run writes that meets no fault, by calls without a sink.
fn wanted(alloc: Global, opb: &str) -> Result<Seen, Fail> {
    solve(alloc, opb.as_bytes(), CONFLICTS, Rule::First)
}

/// What the sinks of a run are told, how it ends, and what is taken of its answer. Of its proof all is taken,
/// if there is a sink for it, unless its push fails.
#[derive(Clone, Copy)]
struct Case {
    opb: &'static str,
    out: Taking,
    proof_out: Option<Taking>,
    end: End,
    answer: &'static str,
}

const CASES: [Case; 7] = [
    // the proof comes first, so nothing is answered without it
    Case {
        opb: CHEAPER,
        out: AT_ONCE,
        proof_out: Some(NOTHING),
        end: End::ProofFailed,
        answer: "",
    },
    // what was taken is not offered again
    Case {
        opb: PIGEONS,
        out: TWO_BY_FIVE,
        proof_out: Some(AT_ONCE),
        end: End::AnswerFailed(20),
        answer: "s UNSATISF",
    },
    Case {
        opb: PIGEONS,
        out: TWO_BY_FIVE,
        proof_out: None,
        end: End::AnswerFailed(20),
        answer: "s UNSATISF",
    },
    Case {
        opb: PIGEONS,
        out: FOUR_BYTES,
        proof_out: None,
        end: End::AnswerFailed(20),
        answer: "s UN",
    },
    // no sink for a proof
    Case {
        opb: PIGEONS,
        out: AT_ONCE,
        proof_out: None,
        end: End::Written(20),
        answer: "s UNSATISFIABLE\n",
    },
    Case {
        opb: UNITS,
        out: AT_ONCE,
        proof_out: None,
        end: End::Written(10),
        answer: "s SATISFIABLE\nv x1 -x2\n",
    },
    // where there is no proof, its sink is not asked
    Case {
        opb: NO_PROBLEM,
        out: AT_ONCE,
        proof_out: Some(NOTHING),
        end: End::Written(2),
        answer: "c refused line 2 code 3 NoSemicolon\n",
    },
];

impl Case {
    /// What is taken of the proof that a run wants to write.
    fn proof_taken(self, seen: &Seen) -> &[u8] {
        match (self.proof_out, self.end) {
            (None, _) | (_, End::ProofFailed) => b"",
            (Some(_), _) => seen.proof.as_slice(),
        }
    }
}

/// Whether a case ends as it should.
fn ends_as_wanted(alloc: Global, case: Case) -> Result<bool, Fail> {
    let seen = wanted(alloc, case.opb)?;
    let ran = run_into(alloc, case.opb, case.out, case.proof_out)?;
    Ok(ran.is(case.end, case.answer.as_bytes(), case.proof_taken(&seen)))
}

#[test]
fn a_push_that_fails_is_told(rt: HostRuntime) -> Result<(), Fail> {
    for case in CASES {
        let holds = ends_as_wanted(rt.alloc(), case)?;
        assert!(rt; holds, "{:?} for {}", case.end, case.opb);
    }
    Ok(())
}

/// Problems of which there is an answer and a proof.
const PROBLEMS: [&str; 3] = [CHEAPER, PIGEONS, UNITS];

/// Whether all is written by so many bytes a push, just as the calls without a sink give it.
fn is_written(alloc: Global, opb: &str, portion: usize) -> Result<bool, Fail> {
    let seen = wanted(alloc, opb)?;
    let taking = Taking {
        room: ROOM,
        portion,
        failing: None,
    };
    let ran = run_into(alloc, opb, taking, Some(taking))?;
    let end = End::Written(seen.status);
    Ok(!seen.proof.is_empty() && ran.is(end, seen.answer.as_slice(), seen.proof.as_slice()))
}

#[test]
fn answer_and_proof_are_the_same_in_pieces(rt: HostRuntime) -> Result<(), Fail> {
    for opb in PROBLEMS {
        for portion in [1, 2, 7, 4096] {
            let holds = is_written(rt.alloc(), opb, portion)?;
            assert!(rt; holds, "by {portion} for {opb}");
        }
    }
    Ok(())
}

/// Bytes a push, where each push fails in turn.
const PORTION: usize = 3;

/// What a sink is told of which the push of this number fails.
fn failing_at(number: usize) -> Taking {
    Taking {
        room: ROOM,
        portion: PORTION,
        failing: Some(number as u64),
    }
}

/// What so many pushes take of a text.
fn begun(text: &[u8], pushes: usize) -> &[u8] {
    &text[..pushes.saturating_mul(PORTION).min(text.len())]
}

/// How many pushes a text takes.
fn pushes_of(text: &[u8]) -> usize {
    text.len().div_ceil(PORTION)
}

/// Whether a run ends as it should where the push of this number of its proof fails.
fn proof_fails(alloc: Global, opb: &str, seen: &Seen, number: usize) -> Result<bool, Fail> {
    let proof = seen.proof.as_slice();
    let ran = run_into(alloc, opb, AT_ONCE, Some(failing_at(number)))?;
    Ok(if number < pushes_of(proof) {
        ran.is(End::ProofFailed, b"", begun(proof, number))
    } else {
        ran.is(End::Written(seen.status), seen.answer.as_slice(), proof)
    })
}

/// Whether a run ends as it should where the push of this number of its answer fails.
fn answer_fails(alloc: Global, opb: &str, seen: &Seen, number: usize) -> Result<bool, Fail> {
    let answer = seen.answer.as_slice();
    let ran = run_into(alloc, opb, failing_at(number), Some(AT_ONCE))?;
    let end = if number < pushes_of(answer) {
        End::AnswerFailed(seen.status)
    } else {
        End::Written(seen.status)
    };
    Ok(ran.is(end, begun(answer, number), seen.proof.as_slice()))
}

/// The first push of the proof whose failure is not answered as it should be; the last one that is tried comes behind all that is written.
fn first_wrong_of_proof(alloc: Global, opb: &str, seen: &Seen) -> Result<Option<usize>, Fail> {
    for number in 0..pushes_of(seen.proof.as_slice()).saturating_add(1) {
        if !proof_fails(alloc, opb, seen, number)? {
            return Ok(Some(number));
        }
    }
    Ok(None)
}

/// The same of the answer.
fn first_wrong_of_answer(alloc: Global, opb: &str, seen: &Seen) -> Result<Option<usize>, Fail> {
    for number in 0..pushes_of(seen.answer.as_slice()).saturating_add(1) {
        if !answer_fails(alloc, opb, seen, number)? {
            return Ok(Some(number));
        }
    }
    Ok(None)
}

#[test]
fn each_push_fails_in_turn(rt: HostRuntime) -> Result<(), Fail> {
    for opb in PROBLEMS {
        let seen = wanted(rt.alloc(), opb)?;
        assert_eq!(rt;
            first_wrong_of_proof(rt.alloc(), opb, &seen)?,
            None,
            "of the proof for {opb}"
        );
        assert_eq!(rt;
            first_wrong_of_answer(rt.alloc(), opb, &seen)?,
            None,
            "of the answer for {opb}"
        );
    }
    Ok(())
}
