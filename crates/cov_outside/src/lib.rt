//! Where bytes come from and where they go: sources and sinks, each with a count of its faults; and the gate of tasks.
#![tactic(auto)]

mod adapters;
mod buffer;
mod gate;
mod memory;
mod streams;
mod sure;
mod whole;

pub use adapters::{StdSink, StdSource};
pub use buffer::WriteBuffer;
pub use gate::{Gate, OpenGate};
pub use memory::{MemSink, MemSource};
pub use streams::{Failed, Sink, Source};
pub use sure::{SureSink, SureSource};
pub use whole::{ReadFault, read_all, read_piece, write_all};
