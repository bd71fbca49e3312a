//! What a run is given from outside: libraries of files, sinks of bytes, gates that segments pass, and counted steps.
#![tactic(auto)]

mod errors;
mod fetched;
mod file_library;
mod gate;
mod hold_gate;
mod library;
mod memory_library;
mod memory_sink;
mod sink;
mod steps;
mod stream_sink;
pub mod worked;

pub use errors::{Failed, FetchError};
pub use fetched::Fetched;
pub use file_library::FileLibrary;
pub use gate::{Gate, OpenGate};
pub use hold_gate::HoldGate;
pub use library::Library;
pub use memory_library::MemoryLibrary;
pub use memory_sink::MemorySink;
pub use plain_lists::Memory;
pub use sink::{Sink, write_all};
pub use steps::{Counted, Ledger, Steps};
pub use stream_sink::{ErrSink, OutSink, StreamSink};
