//! Where bytes come from and go to, one call at a time, with a count of the calls that failed and of the bytes that
//! were given.
ghost use Rattle.std.specs.Prelude.{◌≡◌, ◌<◌, ◌≤◌, ◌+◌};
ghost use Rattle.std.specs.Io.{ReadsAtMost, WritesAtMost};
ghost use Rattle.std.specs.Io.KnownBytes.{ReadConsumes, WriteAppends, Keeps};
ghost use Rattle.zy_io.specs.Streams.{Pulled, Sent, WritesAll, counted, pull_faults, pulled_bytes, put_faults};
ghost use Rattle.zy_io.specs.Writing.{Wrote};

use crate::buffer::LineBuffer;
use crate::piece::Piece;
use crate::writing::{TextFault, WriteFault};
use std::io;
use std::io::{Read, Write};
use std::marker::Model;

/// Where bytes come from.
pub trait Source {
    // What the calls came to so far.
    ghost pulled: { Self → Pulled };

    /// Fills a prefix of the buffer; no byte, where there is room, means the end.
    fn pull(&mut self, buffer: &mut [u8]) -> io::Result<usize>
        requires { (pulled self.old).failures < u64.MAX }
        ensures bound { ReadsAtMost result buffer.new }
        ensures bytes { ReadConsumes (pulled self.old).left (pulled self.new).left result buffer.new }
        ensures failed { (pulled self.new).failures ≡ (pulled self.old).failures + pull_faults result }
        ensures given { (pulled self.new).given ≡ counted (pulled self.old).given (pulled_bytes result) };
}

/// Where bytes go.
pub trait Sink {
    // What the calls came to so far.
    ghost sent: { Self → Sent };

    /// Takes a prefix of the bytes.
    fn put(&mut self, bytes: &[u8]) -> io::Result<usize>
        requires { (sent self.old).failures < u64.MAX }
        ensures bound { WritesAtMost result bytes.now }
        ensures bytes { WriteAppends (sent self.old).written (sent self.new).written result bytes.now }
        ensures failed { (sent self.new).failures ≡ (sent self.old).failures + put_faults result bytes.now };

    /// Takes all of the bytes, or those up to the first call that fails or takes none. Each line of a listing goes out
    /// by one call.
    fn put_all(&mut self, bytes: &[u8]) -> Result<(), WriteFault>
        requires { (sent self.old).failures < u64.MAX }
        ensures { WritesAll (sent self.old) (sent self.new) result bytes.now }
    {
        let mut rest = bytes;
        while !rest.is_empty() {
            let Ok(count) = self.put(rest) else {
                return Err(WriteFault);
            };
            if count == 0 {
                return Err(WriteFault);
            }
            let (_, left) = rest.split_at(count);
            rest = left;
        }
        Ok(())
    }

    /// Takes a piece as `put_all` takes bytes. A sink that has no place for it to be put together in has it from the buffer,
    /// whose old text is lost.
    fn put_piece<P: Piece>(&mut self, piece: P, buffer: &mut LineBuffer) -> Result<(), TextFault>
        requires failures { (sent self.old).failures < u64.MAX }
        requires short { P.most ≤ 160 }
        ensures { Wrote (sent self.old) (sent self.new) result (P.text piece) }
    {
        buffer.clear();
        buffer.push_piece(piece)?;
        self.put_all(buffer.as_bytes())?;
        Ok(())
    }
}

/// A reader of std, with the number of its calls that failed and the number of bytes that they gave.
#[derive(Drop)]
pub struct CountingReader<R> {
    reader: R,
    failures: u64,
    given: u64,
}

impl<R> Model for CountingReader<R> {
    ghost use Rattle.zy_io.specs.Streams.{CountedReader};

    ghost Value = { CountedReader R };

    ghost view = { λ s. record { reader = s.reader; failures = s.failures; given = s.given } };
}

impl<R> CountingReader<R> {
    /// No call was made yet.
    pub fn new(reader: R) -> CountingReader<R>
        ensures { result ≡ record { reader = reader; failures = 0; given = 0 } }
    {
        CountingReader {
            reader,
            failures: 0,
            given: 0,
        }
    }

    /// How many calls failed so far.
    pub fn failures(&self) -> u64
        ensures { result ≡ self.now.failures }
    {
        self.failures
    }

    /// How many bytes the calls gave so far; `u64::MAX` stands for any number from there on.
    pub fn given(&self) -> u64
        ensures { result ≡ self.now.given }
    {
        self.given
    }

    /// The reader, with what it has left.
    pub fn into_inner(self) -> R
        ensures { result ≡ self.reader }
    {
        self.reader
    }
}

impl<R: Read> Source for CountingReader<R> {
    ghost pulled = { λ s. record { left = R.remaining s.reader; failures = s.failures; given = s.given } };

    fn pull(&mut self, buffer: &mut [u8]) -> io::Result<usize> {
        let outcome = self.reader.read(buffer);
        match outcome {
            Ok(count) => self.given = self.given.saturating_add(count as u64),
            Err(_) => self.failures += 1,
        }
        outcome
    }
}

/// A writer of std, with the number of its calls that failed or, given bytes, took none. A clause
/// sees the pair of both.
#[derive(Drop)]
pub struct CountingWriter<W> {
    writer: W,
    faults: u64,
}

impl<W> Model for CountingWriter<W> {
    ghost use Rattle.std.specs.Prelude.{ℕ};

    ghost Value = { W × ℕ };

    ghost view = { λ s. (s.writer, s.faults) };
}

impl<W> CountingWriter<W> {
    /// No call has failed yet.
    pub fn new(writer: W) -> CountingWriter<W>
        ensures { result ≡ (writer, 0) }
    {
        CountingWriter { writer, faults: 0 }
    }

    /// How many calls so far failed or, given bytes, took none.
    pub fn failures(&self) -> u64
        ensures { result ≡ self.now.1 }
    {
        self.faults
    }

    /// The writer, with what it holds.
    pub fn into_inner(self) -> W
        ensures { result ≡ self.0 }
    {
        self.writer
    }
}

impl<W: Write> Sink for CountingWriter<W> {
    ghost sent = { λ s. record { written = W.contents s.0; failures = s.1 } };

    fn put(&mut self, bytes: &[u8]) -> io::Result<usize> {
        let outcome = self.writer.write(bytes);
        match outcome {
            Ok(count) => {
                if count == 0 && !bytes.is_empty() {
                    self.faults += 1;
                }
            }
            Err(_) => self.faults += 1,
        }
        outcome
    }
}
