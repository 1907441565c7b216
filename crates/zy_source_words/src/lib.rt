//! The lines, words, labels and programs of a source: how to find them, how a message shows them, and which known word is
//! nearest to a mistyped one. The only proof about a function here is that it is safe and ends. None of them takes memory.
#![tactic(auto)]

pub mod bytes;
pub mod label;
pub mod line;
pub mod marked_word;
pub mod nearest_word;
pub mod negative;
pub mod position;
pub mod prefix;
pub mod source_program;

pub use crate::bytes::{Bytes, Quoted};
pub use crate::line::{SourceLine, SourceWord, Statement};
pub use crate::marked_word::MarkedWord;
pub use crate::nearest_word::NearestWord;
pub use crate::negative::Negative;
pub use crate::position::Position;
pub use crate::source_program::SourceProgram;
