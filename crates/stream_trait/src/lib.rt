//! Where bytes come from, one at a time or several, and where texts go: the traits, and types that
//! have them over memory and over std's readers and writers. And the arguments of a command line.
#![tactic(auto)]

mod mem_sink;
mod mem_source;
mod shown;
mod sink;
mod source;
mod std_sink;
mod std_source;
mod words;

pub use mem_sink::MemSink;
pub use mem_source::MemSource;
pub use shown::{Shown, answer};
pub use sink::{Sink, SinkFailed};
pub use source::{Next, Source, Taken};
pub use std_sink::StdSink;
pub use std_source::StdSource;
pub use words::Words;
