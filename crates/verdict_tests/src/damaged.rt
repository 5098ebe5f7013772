//! Damaged and strange texts: each gets a clear refusal with its line. The pigeons' problem and proof are cut behind each
//! byte; what is then answered follows from the formats.

use super::answers::answers;
use std::process::Abort;
use std::test::Fail;

const OPB: &str =
    "1 x1 1 x2 >= 1 ;\n1 x3 1 x4 >= 1 ;\n1 x5 1 x6 >= 1 ;\n-1 x1 -1 x3 -1 x5 >= -1 ;\n-1 x2 -1 x4 -1 x6 >= -1 ;";

const PROOF: &str =
    "pseudo-Boolean proof version 2.0\nf 5\npol 1 2 + 3 + 4 + 5 +\noutput NONE\nconclusion UNSAT\nend pseudo-Boolean proof\n";

/// The line on which a text ends: 1 and its LF bytes.
fn end_line(text: &[u8]) -> usize {
    let before = text.iter().filter(|b| **b == b'\n').count();
    before.saturating_add(1)
}

/// What is printed for the pigeons' problem cut to these bytes. A whole statement, or nothing, makes a shorter problem, so
/// the count of the proof is not its own. `x` alone is no name, and `-` and `>` alone are no tokens of the grammar; behind
/// anything else the statement lacks its end.
fn of_cut_problem<R: AllocGlobal>(rt: &R, cut: &[u8]) -> Result<String, Fail> {
    let code = match cut {
        [] | [.., b';' | b'\n'] => {
            return Ok(format!(in rt.alloc(); "refused line 2 code 2 BadCount\n")?);
        }
        [.., b'x'] => "code 4 BadName",
        [.., b'-' | b'>'] => "code 1 BadToken",
        _ => "code 3 NoSemicolon",
    };
    let line = end_line(cut);
    Ok(format!(in rt.alloc(); "bad problem line {line} {code}\n")?)
}

#[test]
fn problem_cut_behind_each_byte(rt: HostRuntime) -> Result<(), Fail> {
    for end in 0..OPB.len() {
        let cut = &OPB.as_bytes()[..end];
        let text = of_cut_problem(&rt, cut)?;
        answers(&rt, cut, PROOF.as_bytes(), text.as_str())?;
    }
    Ok(())
}

/// A piece of the pigeons' proof, and the code that is answered, on the line of the cut, where the proof is cut behind
/// any byte of the piece.
type Piece = (&'static str, &'static str);

const PIECES: [Piece; 23] = [
    ("pseudo-Boolean proof version 2.", "1 BadHeader"),
    ("0\n", "6 Truncated"),
    ("f ", "2 BadCount"),
    ("5\n", "6 Truncated"),
    // `p` is a rule of its own, and leaves nothing on the stack
    ("p", "11 StackShape"),
    ("o", "3 UnknownRule"),
    ("l ", "11 StackShape"),
    ("1 ", "6 Truncated"),
    ("2 ", "11 StackShape"),
    ("+ ", "6 Truncated"),
    ("3 ", "11 StackShape"),
    ("+ ", "6 Truncated"),
    ("4 ", "11 StackShape"),
    ("+ ", "6 Truncated"),
    ("5 ", "11 StackShape"),
    ("+\n", "6 Truncated"),
    ("outpu", "3 UnknownRule"),
    ("t ", "5 BadLine"),
    ("NON", "4 RuleLeftOut"),
    ("E\n", "6 Truncated"),
    ("conclusion UNSA", "5 BadLine"),
    ("T\n", "6 Truncated"),
    ("end pseudo-Boolean proo", "5 BadLine"),
];

/// Checks the answers to a proof cut behind each byte of this piece.
fn cut_within<R: Abort + AllocGlobal>(rt: &R, before: usize, piece: Piece) -> Result<(), Fail> {
    for end in 0..piece.0.len() {
        let Some(cut) = PROOF
            .as_bytes()
            .get(..before.saturating_add(end).saturating_add(1))
        else {
            return Ok(());
        };
        let line = end_line(cut);
        let text = format!(in rt.alloc(); "refused line {line} code {}\n", piece.1)?;
        answers(rt, OPB.as_bytes(), cut, text.as_str())?;
    }
    Ok(())
}

#[test]
fn proof_cut_behind_each_byte(rt: HostRuntime) -> Result<(), Fail> {
    let mut before: usize = 0;
    for piece in &PIECES {
        cut_within(&rt, before, *piece)?;
        before = before.saturating_add(piece.0.len());
    }
    assert_eq!(&rt; before, PROOF.len().saturating_sub(2));
    answers(
        &rt,
        OPB.as_bytes(),
        PROOF.trim_end().as_bytes(),
        "accepted UNSAT\n",
    )
}

/// The pigeons' texts with each LF made a CR and an LF.
fn with_returns<R: AllocGlobal>(rt: &R, text: &str) -> Result<String, Fail> {
    Ok(text.replace(rt.alloc(), "\n", "\r\n")?)
}

#[test]
fn line_ends_of_other_systems(rt: HostRuntime) -> Result<(), Fail> {
    let opb = with_returns(&rt, OPB)?;
    let proof = with_returns(&rt, PROOF)?;
    answers(&rt, opb.as_bytes(), proof.as_bytes(), "accepted UNSAT\n")?;
    answers(&rt, OPB.as_bytes(), proof.as_bytes(), "accepted UNSAT\n")
}

/// Bytes that no format has, in a problem.
const STRANGE_PROBLEMS: [(&[u8], &str); 4] = [
    (b"1 x\xff1 >= 1 ;", "bad problem line 1 code 4 BadName\n"),
    (b"1 x1 >= 1 ;\n\xff", "bad problem line 2 code 1 BadToken\n"),
    (b"1 x1\0 >= 1 ;", "bad problem line 1 code 4 BadName\n"),
    (b"1 x1 >= 1 ;\0", "bad problem line 1 code 1 BadToken\n"),
];

/// Bytes that no format has, in a line before the first step of the pigeons' proof.
const STRANGE_LINES: [(&[u8], &str); 5] = [
    (b"pol \xff", "refused line 3 code 5 BadLine\n"),
    (b"pol 1\0", "refused line 3 code 5 BadLine\n"),
    (b"\0", "refused line 3 code 3 UnknownRule\n"),
    (b"p\xc3\xb6l 1", "refused line 3 code 3 UnknownRule\n"),
    (b"* \xff \0 in a comment", "accepted UNSAT\n"),
];

/// A proof of the pigeons' problem with this line before its first step.
fn with_line<R: AllocGlobal>(rt: &R, line: &[u8]) -> Result<Vec<u8>, Fail> {
    let (front, steps) = PROOF.as_bytes().split_at(PROOF.find("pol").unwrap_or(0));
    let mut proof = Vec::from_slice(rt.alloc(), front)?;
    proof.extend_from_slice(line)?;
    proof.push(b'\n')?;
    proof.extend_from_slice(steps)?;
    Ok(proof)
}

#[test]
fn bytes_that_no_format_has(rt: HostRuntime) -> Result<(), Fail> {
    for (opb, text) in &STRANGE_PROBLEMS {
        answers(&rt, opb, b"".as_slice(), text)?;
    }
    for (line, text) in &STRANGE_LINES {
        let proof = with_line(&rt, line)?;
        answers(&rt, OPB.as_bytes(), proof.as_slice(), text)?;
    }
    Ok(())
}

/// A problem and a proof, what is printed, and a digit that stands a thousand times in the place of each `#`.
#[derive(Clone, Copy)]
struct LongInteger {
    digit: &'static str,
    opb: &'static str,
    proof: &'static str,
    text: &'static str,
}

const LONG_INTEGERS: [LongInteger; 5] = [
    LongInteger {
        digit: "9",
        opb: "1 x1 >= 1 ;\n# x1 >= 1 ;",
        proof: "",
        text: "bad problem line 2 code 7 IntegerTooLarge\n",
    },
    LongInteger {
        digit: "9",
        opb: "1 x1 >= -# ;",
        proof: "",
        text: "bad problem line 1 code 7 IntegerTooLarge\n",
    },
    LongInteger {
        digit: "9",
        opb: OPB,
        proof: "pseudo-Boolean proof version 2.0\nf 5\npol 1 # *\npol 1 2 + 3 + 4 + 5 +\noutput NONE\nconclusion UNSAT\nend pseudo-Boolean proof\n",
        text: "refused line 3 code 8 IntegerTooLarge\n",
    },
    LongInteger {
        digit: "9",
        opb: OPB,
        proof: "pseudo-Boolean proof version 2.0\nf #\n",
        text: "refused line 2 code 2 BadCount\n",
    },
    LongInteger {
        digit: "0",
        opb: OPB,
        proof: "pseudo-Boolean proof version 2.0\nf #5\noutput NONE\nconclusion NONE\nend pseudo-Boolean proof\n",
        text: "accepted NONE\n",
    },
];

#[test]
fn integers_of_a_thousand_digits(rt: HostRuntime) -> Result<(), Fail> {
    for case in &LONG_INTEGERS {
        let digits = case.digit.repeat(rt.alloc(), 1000)?;
        let opb = case.opb.replace(rt.alloc(), "#", digits.as_str())?;
        let proof = case.proof.replace(rt.alloc(), "#", digits.as_str())?;
        answers(&rt, opb.as_bytes(), proof.as_bytes(), case.text)?;
    }
    Ok(())
}

/// Proofs of the problem whose file is empty, and what is printed.
const OF_NOTHING: [(&[u8], &str); 3] = [
    (b"", "refused line 1 code 6 Truncated\n"),
    (
        b"pseudo-Boolean proof version 2.0\nf 0\noutput NONE\nconclusion NONE\nend pseudo-Boolean proof",
        "accepted NONE\n",
    ),
    (
        b"pseudo-Boolean proof version 2.0\nf 0\noutput NONE\nconclusion UNSAT\nend pseudo-Boolean proof",
        "refused line 4 code 24 LowerNotShown\n",
    ),
];

#[test]
fn empty_files(rt: HostRuntime) -> Result<(), Fail> {
    answers(
        &rt,
        OPB.as_bytes(),
        b"".as_slice(),
        "refused line 1 code 6 Truncated\n",
    )?;
    for (proof, text) in &OF_NOTHING {
        answers(&rt, b"".as_slice(), proof, text)?;
    }
    Ok(())
}
