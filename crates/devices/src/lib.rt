//! Files and streams as sources and sinks of bytes: what lies between the programs and the layers that a contract can speak of.
//!
//! No clause can say what a file holds, or what a terminal shows. So what is proved here is how many bytes move at a call,
//! that there is an end to them, and that a call that fails is counted; which bytes they are nobody knows.
#![tactic(auto)]

mod reader_source;
mod writer_sink;

pub use reader_source::{LARGEST_INPUT, ReaderSource};
pub use writer_sink::WriterSink;
