//! Where bytes come from and go to, and where threads may be held: the traits of the outside, their
//! adapters over std, their fakes in memory, and the two calls that read a whole input and write a
//! whole text.
#![tactic(auto)]

mod failed;
mod gate;
mod mem_sink;
mod mem_source;
mod numbered;
mod sink;
mod source;
mod std_sink;
mod std_source;

pub use failed::Failed;
pub use gate::{Gate, NoGate, Place};
pub use mem_sink::MemSink;
pub use mem_source::MemSource;
pub use sink::{Sink, write_all};
pub use source::{ReadError, Source, read_input};
pub use std_sink::StdSink;
pub use std_source::StdSource;
