//! From the bytes of a problem and of a proof to the verdict.
#![tactic(auto)]

mod afterwards;
mod checking;
mod judge;
pub mod laws;
mod lines;
mod stop;
mod stream;
mod stream_verdict;
mod streamed;
mod text;
mod verdict;
mod walk;

pub use afterwards::Afterwards;
pub use checking::check;
pub use lines::{fault_text, write_value_line};
pub use stream_verdict::StreamVerdict;
pub use streamed::{check_stream, check_stream_then};
pub use text::verdict_text;
pub use verdict::{Code, Verdict, verdict_status};
