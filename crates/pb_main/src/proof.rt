//! What the checker says of the bytes of a proof.
//!
//! The log is a legal proof by its type, and its text is what is handed out; yet it is this text that is put to the checker,
//! with the problem as it was given. What is said then rests on the checker alone, and not on the search or on the writer.

ghost use Rattle.std.specs.Prelude.{IfSome};
ghost use Rattle.proof_log.specs.Log.{Logbook};
ghost use Rattle.pb_main.specs.Checked.{IsAcceptedOf, IsLogOf, IsWritten};

use checker::{Verdict, check};
use kernel::Accepted;
use std::alloc::Global;

/// What the checker accepts, judging the written proof of a log; none where it runs out of memory. It never refuses: the log's
/// steps are legal by its type, its conclusion is entitled to, and what is written reads back.
pub(crate) fn accepted(alloc: Global, opb: &[u8], proof: &[u8]) -> Option<Accepted>
    requires { (l : Logbook) × IsLogOf opb.now l × IsWritten l proof.now }
    ensures { (l : Logbook) → IsLogOf opb.now l → IsWritten l proof.now → IfSome result (IsAcceptedOf opb.now proof.now l) }
{
    match check(alloc, opb, proof) {
        Verdict::Accepted(accepted) => Some(accepted),
        Verdict::NoMemory => None,
        Verdict::Refused { .. } => unreachable!(),
        Verdict::BadProblem(_) => unreachable!(),
    }
}
