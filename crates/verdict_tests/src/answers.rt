//! What is asked of each case of these tests: what is printed, that what is claimed is so, that no propagator answers otherwise, and that
//! the answer is the same in whatever pieces the proof comes.

use super::agreement::agree_on;
use super::claims::is_claim_true;
use super::pieces::agree_in_pieces;
use checker::{Verdict, check, verdict_status, verdict_text};
use std::alloc::Global;
use std::process::Abort;
use std::test::Fail;

/// What is answered to a problem and a proof.
#[derive(Drop)]
struct Answer {
    printed: Vec<u8>,
    status: u8,
    is_true: bool,
    agree: bool,
}

/// Whether a verdict is the same in whatever pieces the proof comes, and its steps are answered alike over each propagator.
fn agree(alloc: Global, opb: &[u8], proof: &[u8], printed: &[u8]) -> Result<bool, Fail> {
    Ok(agree_in_pieces(alloc, opb, proof, printed)? && agree_on(alloc, opb, proof)?)
}

/// What a verdict is for this problem and this proof: what is printed, and, where it accepts, whether the claim is so by all assignments.
fn answer_of(alloc: Global, opb: &[u8], proof: &[u8], verdict: &Verdict) -> Result<Answer, Fail> {
    let is_true = is_true(alloc, opb, verdict)?;
    let printed = verdict_text(alloc, opb, verdict)?;
    let agree = agree(alloc, opb, proof, printed.as_slice())?;
    Ok(Answer {
        printed,
        status: verdict_status(verdict),
        is_true,
        agree,
    })
}

/// Judges a proof, and looks at what is answered.
fn judge(alloc: Global, opb: &[u8], proof: &[u8]) -> Result<Answer, Fail> {
    let verdict = check(alloc, opb, proof);
    answer_of(alloc, opb, proof, &verdict)
}

/// Checks what is printed for a problem and a proof, the exit status, that what is claimed is so, and that kernels over each
/// propagator answer alike.
pub(crate) fn answers<R: Abort + AllocGlobal>(
    rt: &R,
    opb: &[u8],
    proof: &[u8],
    text: &str,
) -> Result<(), Fail> {
    let answer = judge(rt.alloc(), opb, proof)?;
    assert_eq!(rt;
        answer.printed.as_slice(),
        text.as_bytes(),
        "for {opb:?} and {proof:?}"
    );
    assert!(rt;
        answer.status == status(text) && answer.is_true && answer.agree,
        "for {opb:?} and {proof:?}"
    );
    Ok(())
}

/// The exit status that belongs to a printed text.
fn status(text: &str) -> u8 {
    match text.as_bytes() {
        [b'a', ..] => 0,
        [b'r', ..] => 1,
        [b'b', ..] => 2,
        _ => 4,
    }
}

/// Whether an answer claims nothing, or what is so.
fn is_true(alloc: Global, opb: &[u8], verdict: &Verdict) -> Result<bool, Fail> {
    match verdict {
        Verdict::Accepted(accepted) => is_claim_true(alloc, opb, accepted),
        _ => Ok(true),
    }
}
