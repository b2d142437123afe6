//! Bytes that are handed to a sink one piece after another.
//!
//! [`write_bytes`] writes a piece. What a call did that wrote bytes is said by one word, `Writes`: all of
//! them, or a front of them and a fault was counted.
#![tactic(auto)]

mod bytes;

pub use bytes::write_bytes;
