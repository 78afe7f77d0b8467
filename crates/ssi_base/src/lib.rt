//! What all layers share: the outside, places in a text, and printed digits.
//!
//! Bytes come in through a [`Source`] and go out through a [`Sink`]. The layers above may rely on
//! this: [`read_all`] answers all bytes up to the end of the input, or says that a byte passed the
//! limit; [`write_all`] writes the whole piece, or leaves a part of it that isn't the whole; a
//! failure is told only where the count of faults rose. Over a source in memory of which no call is
//! to fail none is told. It stands on no layer of this repository.
#![tactic(auto)]

mod digits;
mod input;
mod mem_sink;
mod mem_source;
mod memory;
mod output;
mod outside;
mod place;
mod std_edge;
#[cfg(test)]
mod tests;

pub use digits::{decimal, hex4};
pub use input::{ReadAll, read_all};
pub use mem_sink::MemSink;
pub use mem_source::MemSource;
pub use memory::OutOfMemory;
pub use output::{write_all, write_three, write_two};
pub use outside::{Failed, Sink, Source};
pub use place::Place;
pub use std_edge::{StdSink, StdSource};
