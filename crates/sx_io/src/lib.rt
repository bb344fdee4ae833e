//! What a program asks of the outside: files by name ([`Store`]) and streams of bytes ([`Sink`]).
//!
//! Both are traits whose contracts speak of values: the files with their bytes, the bytes that were
//! written, the calls that were made, and a count of faults that never falls. A failure is answered
//! only where that count rose in the call, so code over these traits cannot make one up.
//! [`MemStore`] and [`MemSink`] hold everything in memory and can be told to fail. [`RealStore`] and
//! [`RealSink`] work on the machine's files and on std's writers, and tell no contents.
#![tactic(auto)]

mod mem_sink;
mod mem_store;
mod no_memory;
mod real_sink;
mod real_store;
mod sink;
mod store;
mod streams;

pub use mem_sink::MemSink;
pub use mem_store::{Asked, MemStore};
pub use no_memory::NoMemory;
pub use real_sink::RealSink;
pub use real_store::RealStore;
pub use sink::{NullSink, Sink, SinkStop};
pub use store::{Store, StoreStop};
