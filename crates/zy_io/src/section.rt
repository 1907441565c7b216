//! Text in lines: each is made in one buffer that is used again, and goes out whole.
ghost use Rattle.std.specs.Prelude.{◌≡◌, ◌<◌, ◌++◌, [], ◌∷◌, ℕ, List, length, slice_index_or};
ghost use Rattle.std.specs.List.{flat_map};
ghost use Rattle.zy_io.specs.Writing.{line_of, Appended, Wrote};

use crate::buffer::LineBuffer;
use crate::line::{Joined, Line};
use crate::piece::Piece;
use crate::stream::Sink;
use crate::writing::TextFault;
use std::alloc::AllocError;

/// A list of lines that are made one at a time.
pub trait Lines {
    // The texts of the lines, without their ends.
    ghost texts: { Self → List (List ℕ) };

    /// How many lines there are.
    fn len(&self) -> usize
        ensures { result ≡ length (texts self.now) };

    /// Puts the text of a line, by its place in the list, behind what the buffer holds. At an error a
    /// prefix of it may be there.
    fn append(&self, place: usize, line: &mut LineBuffer) -> Result<(), AllocError>
        requires { place < length (texts self.now) }
        ensures { Appended result line.old line.new (slice_index_or (texts self.now) place []) };
}

/// A list of lines, each of which is a piece: it is put together where the sink keeps it back, if it does.
pub trait PieceLines {
    /// What a line is, without its end.
    type Text: Piece;

    // The texts of the lines, without their ends.
    ghost texts: { Self → List (List ℕ) };

    /// How many lines there are.
    fn len(&self) -> usize
        ensures { result ≡ length (texts self.now) };

    /// A line, by its place in the list.
    fn line(&self, place: usize) -> Self::Text
        requires { place < length (texts self.now) }
        ensures text { Self.Text.text result ≡ slice_index_or (texts self.now) place [] }
        ensures short { Self.Text.most < 160 };
}

/// A part of a text that writes its own lines.
pub trait Section {
    // The texts of the lines, without their ends.
    ghost texts: { Self → List (List ℕ) };

    /// Writes each line, in the buffer, whose old text is lost.
    fn write<K: Sink>(&self, sink: &mut K, line: &mut LineBuffer) -> Result<(), TextFault>
        requires { (K.sent sink.old).failures < u64.MAX }
        ensures { Wrote (K.sent sink.old) (K.sent sink.new) result (flat_map line_of (texts self.now)) };
}

/// A list of parts of a text, each of which has lines of its own.
pub trait Parts {
    // The texts of each part's lines, without their ends.
    ghost parts: { Self → List (List (List ℕ)) };

    /// How many parts there are.
    fn len(&self) -> usize
        ensures { result ≡ length (parts self.now) };

    /// Writes the lines of one part, by its place in the list, in the buffer, whose old text is lost.
    fn write_part<K: Sink>(
        &self,
        place: usize,
        sink: &mut K,
        line: &mut LineBuffer,
    ) -> Result<(), TextFault>
        requires failures { (K.sent sink.old).failures < u64.MAX }
        requires within { place < length (parts self.now) }
        ensures { Wrote (K.sent sink.old) (K.sent sink.new) result (flat_map line_of (slice_index_or (parts self.now) place [])) };
}

/// Ends the line, and writes it.
#[inline(always)]
fn finish_line<K: Sink>(sink: &mut K, line: &mut LineBuffer) -> Result<(), TextFault>
    requires { (K.sent sink.old).failures < u64.MAX }
    ensures { Wrote (K.sent sink.old) (K.sent sink.new) result (line_of line.old) }
{
    line.push(b'\n')?;
    sink.put_all(line.as_bytes())?;
    Ok(())
}

/// One line.
#[derive(Clone, Copy)]
pub struct One<D>(pub D);

impl<D: Line> Section for One<D> {
    ghost texts = { λ s. D.text s.0 ∷ [] };

    fn write<K: Sink>(&self, sink: &mut K, line: &mut LineBuffer) -> Result<(), TextFault> {
        line.clear();
        self.0.append(line)?;
        finish_line(sink, line)
    }
}

/// Each line of a list.
#[derive(Clone, Copy)]
pub struct AllLines<L>(pub L);

impl<L: Lines> Section for AllLines<L> {
    ghost texts = { λ s. L.texts s.0 };

    fn write<K: Sink>(&self, sink: &mut K, line: &mut LineBuffer) -> Result<(), TextFault> {
        for place in 0..self.0.len() {
            line.clear();
            self.0.append(place, line)?;
            finish_line(sink, line)?;
        }
        Ok(())
    }
}

/// Each line of a list whose lines are pieces.
#[derive(Clone, Copy)]
pub struct AllPieces<L>(pub L);

impl<L: PieceLines> Section for AllPieces<L> {
    ghost texts = { λ s. L.texts s.0 };

    fn write<K: Sink>(&self, sink: &mut K, line: &mut LineBuffer) -> Result<(), TextFault> {
        for place in 0..self.0.len() {
            sink.put_piece(Joined(self.0.line(place), b"\n"), line)?;
        }
        Ok(())
    }
}

/// The lines of each part of a list.
#[derive(Clone, Copy)]
pub struct AllParts<P>(pub P);

impl<P: Parts> Section for AllParts<P> {
    ghost texts = { λ s. flat_map (λ part. part) (P.parts s.0) };

    fn write<K: Sink>(&self, sink: &mut K, line: &mut LineBuffer) -> Result<(), TextFault> {
        for place in 0..self.0.len() {
            self.0.write_part(place, sink, line)?;
        }
        Ok(())
    }
}

/// One section, and then another.
#[derive(Clone, Copy)]
pub struct Both<A, B>(pub A, pub B);

impl<A: Section, B: Section> Section for Both<A, B> {
    ghost texts = { λ s. A.texts s.0 ++ B.texts s.1 };

    fn write<K: Sink>(&self, sink: &mut K, line: &mut LineBuffer) -> Result<(), TextFault> {
        self.0.write(sink, line)?;
        self.1.write(sink, line)
    }
}

/// Sections in the order in which they are printed: `sections!(a, b, c)` is `Both(a, Both(b, c))`.
#[macro_export]
macro_rules! sections {
    ($only:expr $(,)?) => { $only };
    ($first:expr, $($more:expr),+ $(,)?) => { $crate::Both($first, $crate::sections!($($more),+)) };
}
