//! Where bytes come from and where they go: sources, sinks, and how often a read or a write failed.
//!
//! A [`Source`] stands for the bytes still to come and a [`Sink`] for the bytes that it took, where they
//! tell them, and each counts its faults. [`MemorySource`] and [`MemorySink`] fail at the calls that they
//! are told, [`CalmSource`] and [`CountSink`] never fail, and [`StdSource`] and [`StdSink`] are std's
//! readers and writers. [`read_all`] and [`write_all`] move everything or say what stopped them, as a
//! [`ReadStop`] or as [`Failed`]. A [`Gate`] is passed at a [`Place`] of the work that is shared among
//! threads, and [`FreeGate`] is the one that does nothing. [`NoMemory`] is want of memory.
#![tactic(auto)]

mod calls;
mod calm_source;
mod count_sink;
mod failed;
mod gate;
mod memory_sink;
mod memory_source;
mod no_memory;
mod place;
mod reading;
mod sink;
mod source;
mod std_sink;
mod std_source;
mod writing;

pub use calm_source::CalmSource;
pub use count_sink::CountSink;
pub use failed::Failed;
pub use gate::{FreeGate, Gate};
pub use memory_sink::MemorySink;
pub use memory_source::MemorySource;
pub use no_memory::NoMemory;
pub use place::Place;
pub use reading::{ReadStop, read_all};
pub use sink::Sink;
pub use source::Source;
pub use std_sink::StdSink;
pub use std_source::StdSource;
pub use writing::write_all;
