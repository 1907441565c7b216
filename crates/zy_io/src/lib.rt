//! Bytes in and out, and text in lines: sources and sinks that count their failed calls, an input that is read whole,
//! and lines that are written whole.
#![tactic(auto)]

mod appending;
pub mod buffer;
pub mod buffered;
mod digits;
pub mod line;
pub mod memory;
pub mod patient;
pub mod pending;
pub mod piece;
pub mod reading;
pub mod section;
pub mod stream;
pub mod writing;

pub use crate::buffer::LineBuffer;
pub use crate::buffered::Buffered;
pub use crate::line::{Decimal, Joined, Line};
pub use crate::memory::{SliceSource, VecSink};
pub use crate::patient::Patient;
pub use crate::pending::Pending;
pub use crate::piece::Piece;
pub use crate::reading::{MAX_INPUT, ReadFault};
pub use crate::section::{
    AllLines, AllParts, AllPieces, Both, Lines, One, Parts, PieceLines, Section,
};
pub use crate::stream::{CountingReader, CountingWriter, Sink, Source};
pub use crate::writing::{TextFault, WriteFault};
