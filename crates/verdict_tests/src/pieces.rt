//! The verdict about a proof that comes from a source in pieces: the same as about the whole text, however it is cut, and none where the
//! source fails before a line that is refused has come.

use super::rows::PIGEONS_IN_HOLES;
use checker::{Afterwards, StreamVerdict, check_stream, check_stream_then, verdict_text};
use pb_text::{MemSource, Portion, Source};
use std::alloc::Global;
use std::process::Abort;
use std::test::Fail;

/// How proofs are cut.
const PORTIONS: [Portion; 6] = [
    Portion::Bytes(1),
    Portion::Bytes(2),
    Portion::Bytes(7),
    Portion::Bytes(4096),
    Portion::Line,
    Portion::All,
];

/// What is printed about a proof that a source gives; none where the source fails.
fn printed(alloc: Global, opb: &[u8], source: &mut MemSource<'_>) -> Result<Option<Vec<u8>>, Fail> {
    if source.failures() >= u64::MAX {
        return Ok(None);
    }
    match check_stream(alloc, opb, source) {
        StreamVerdict::Judged(verdict) => Ok(Some(verdict_text(alloc, opb, &verdict)?)),
        StreamVerdict::ReadFailed => Ok(None),
    }
}

/// Whether just this is printed about a proof that a source gives, or nothing where none is wanted.
fn prints(
    alloc: Global,
    opb: &[u8],
    source: &mut MemSource<'_>,
    wanted: Option<&[u8]>,
) -> Result<bool, Fail> {
    match (printed(alloc, opb, source)?, wanted) {
        (Some(text), Some(wanted)) => Ok(text.as_slice() == wanted),
        (None, None) => Ok(true),
        _ => Ok(false),
    }
}

/// Whether this is printed about a proof in whatever pieces it comes.
pub(crate) fn agree_in_pieces(
    alloc: Global,
    opb: &[u8],
    proof: &[u8],
    wanted: &[u8],
) -> Result<bool, Fail> {
    for portion in &PORTIONS {
        let mut source = MemSource::new(proof, *portion, None);
        if !prints(alloc, opb, &mut source, Some(wanted))? {
            return Ok(false);
        }
    }
    Ok(true)
}

const EQUAL: &str = "min: 1 x1 1 x2 ; 1 x1 1 x2 >= 1 ;";

const OPTIMUM: &str =
    "pseudo-Boolean proof version 2.0\nf 1\nsoli x1 ~x2\npol 1 2 +\noutput NONE\nconclusion BOUNDS 1 : 3 1\nend pseudo-Boolean proof\n";

const OPTIMUM_PRINTED: &str = "accepted BOUNDS 1 1\nv x1 -x2\n";

/// A problem and a proof from a source that gives a line a pull and fails at the pull of this number, counted from 1 on; what is
/// printed, if anything is, and what the source has given then.
#[derive(Clone, Copy)]
struct Failing {
    opb: &'static str,
    proof: &'static str,
    pull: u64,
    printed: Option<&'static str>,
    given: &'static str,
}

const FAILING: [Failing; 4] = [
    // a line is judged before the next one is asked for
    Failing {
        opb: "1 x1 1 x2 >= 1 ;",
        proof: "pseudo-Boolean proof version 2.0\nf 1\nsolx x1\noutput NONE\nconclusion NONE\nend pseudo-Boolean proof\n",
        pull: 4,
        printed: Some("refused line 3 code 4 RuleLeftOut\n"),
        given: "pseudo-Boolean proof version 2.0\nf 1\nsolx x1\n",
    },
    Failing {
        opb: EQUAL,
        proof: OPTIMUM,
        pull: 3,
        printed: None,
        given: "pseudo-Boolean proof version 2.0\nf 1\n",
    },
    // whether a line that counts comes behind the end line is known at the end alone
    Failing {
        opb: EQUAL,
        proof: OPTIMUM,
        pull: 8,
        printed: None,
        given: OPTIMUM,
    },
    // of what is no problem no proof is asked for
    Failing {
        opb: "1 x1 1 x2 >= 1",
        proof: OPTIMUM,
        pull: 1,
        printed: Some("bad problem line 1 code 3 NoSemicolon\n"),
        given: "",
    },
];

/// Whether a case is answered as it should be, and nothing more was asked of the source.
fn fails_as_wanted(alloc: Global, case: Failing) -> Result<bool, Fail> {
    let number = case.pull.saturating_sub(1);
    let mut source = MemSource::new(case.proof.as_bytes(), Portion::Line, Some(number));
    let wanted = case.printed.map(|text| text.as_bytes());
    Ok(
        prints(alloc, case.opb.as_bytes(), &mut source, wanted)?
            && source.given() == case.given.as_bytes(),
    )
}

#[test]
fn a_source_fails_in_mid_stream(rt: HostRuntime) -> Result<(), Fail> {
    for case in &FAILING {
        assert!(rt; fails_as_wanted(rt.alloc(), *case)?, "pull {}", case.pull);
    }
    Ok(())
}

/// Whether this is printed about a proof where the check leaves its memory to the system.
fn prints_and_leaves(alloc: Global, opb: &[u8], proof: &[u8], wanted: &[u8]) -> Result<bool, Fail> {
    let mut source = MemSource::new(proof, Portion::All, None);
    if source.failures() >= u64::MAX {
        return Ok(false);
    }
    match check_stream_then(alloc, opb, &mut source, Afterwards::Leave) {
        StreamVerdict::Judged(verdict) => {
            Ok(verdict_text(alloc, opb, &verdict)?.as_slice() == wanted)
        }
        StreamVerdict::ReadFailed => Ok(false),
    }
}

#[test]
fn memory_is_left_where_that_is_asked_for(rt: HostRuntime) -> Result<(), Fail> {
    let printed = OPTIMUM_PRINTED.as_bytes();
    assert!(rt; prints_and_leaves(rt.alloc(), EQUAL.as_bytes(), OPTIMUM.as_bytes(), printed)?);
    Ok(())
}

/// Whether a proof of which one pull fails is judged as ever or not at all, and as ever where it is read once more.
fn is_read_again(
    alloc: Global,
    opb: &[u8],
    proof: &[u8],
    portion: Portion,
    number: u64,
    wanted: &[u8],
) -> Result<bool, Fail> {
    let mut source = MemSource::new(proof, portion, Some(number));
    let judged = match printed(alloc, opb, &mut source)? {
        Some(text) => text.as_slice() == wanted,
        None => true,
    };
    let mut again = MemSource::new(proof, portion, None);
    Ok(judged && prints(alloc, opb, &mut again, Some(wanted))?)
}

/// Checks that each pull of a proof may fail.
fn each_pull_fails<R: Abort + AllocGlobal>(
    rt: &R,
    opb: &str,
    proof: &str,
    wanted: &str,
) -> Result<(), Fail> {
    for number in 0..80 {
        let holds = is_read_again(
            rt.alloc(),
            opb.as_bytes(),
            proof.as_bytes(),
            Portion::Bytes(2),
            number,
            wanted.as_bytes(),
        )?;
        assert!(rt; holds, "pull {number}");
    }
    Ok(())
}

#[test]
fn each_pull_fails_in_turn(rt: HostRuntime) -> Result<(), Fail> {
    each_pull_fails(&rt, EQUAL, OPTIMUM, OPTIMUM_PRINTED)?;
    each_pull_fails(
        &rt,
        PIGEONS_IN_HOLES,
        "pseudo-Boolean proof version 2.0\nf 5\npol 1 2 +\noutput NONE\nconclusion UNSAT\nend pseudo-Boolean proof\n",
        "refused line 5 code 24 LowerNotShown\n",
    )
}
