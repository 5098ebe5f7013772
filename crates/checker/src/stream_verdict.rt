//! What the checker answers about a proof that comes from a source.

use super::verdict::Verdict;

/// The verdict about a proof that comes from a source, or that it did not come.
#[derive(Debug, Drop)]
pub enum StreamVerdict {
    /// The verdict, the same for every text that begins with what came, or for just that, where the source has ended.
    Judged(Verdict),
    /// The source failed, and nothing is said: the proof is read again from its start.
    ReadFailed,
}
