//! Where bytes come from and where they go.
//!
//! [`Source`] and [`Sink`] are what lies outside the program. Contracts see of them a count of
//! faults, whether the last call failed, and, where they report it, the bytes that are left to read
//! or have been written. Everything else is proved against these two traits.
//!
//! [`SourceMem`] and [`SinkMem`] are sources and sinks in memory, which fail at given
//! calls. [`SourceStd`] and [`SinkStd`] are those over the standard library: the trusted edge.
#![tactic(auto)]

mod calls;
mod outside;
mod sink_mem;
mod source_mem;
mod std_edge;

pub use outside::{Failed, Sink, Source};
pub use sink_mem::SinkMem;
pub use source_mem::SourceMem;
pub use std_edge::{SinkStd, SourceStd};
