//! Where a program's bytes come from and go to: sources and sinks that count their faults, so that a contract can say
//! that a fault of reading or writing is answered only if one came.
#![tactic(auto)]

mod memory;
mod sink;
mod source;
mod standard;
mod sure;
mod whole;

pub use memory::{MemSink, MemSource};
pub use sink::Sink;
pub use source::{Failed, Source};
pub use standard::{StdSink, StdSource};
pub use sure::{SureSink, SureSource};
pub use whole::{ReadError, read_all, write_all};
