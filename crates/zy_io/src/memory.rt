//! A source and a sink in memory.
ghost use Rattle.std.specs.Prelude.{◌≡◌, Some, ◌+◌, ◌<◌};

use crate::stream::{Sink, Source};
use std::io;
use std::marker::Model;

/// Gives the bytes of a slice. A clause sees the pair of those that are left and the number of those given.
#[derive(Drop)]
pub struct SliceSource<'a> {
    rest: &'a [u8],
    given: u64,
}

impl<'a> Model for SliceSource<'a> {
    ghost use Rattle.std.specs.Prelude.{ℕ, List};

    ghost Value = { List ℕ × ℕ };

    ghost view = { λ s. (s.rest.now, s.given) };
}

impl<'a> SliceSource<'a> {
    /// All of the bytes are left.
    pub fn new(bytes: &'a [u8]) -> SliceSource<'a>
        ensures { result ≡ (bytes.now, 0) }
    {
        SliceSource {
            rest: bytes,
            given: 0,
        }
    }

    /// The bytes that are left.
    pub fn left(&self) -> &'a [u8]
        ensures { result.now ≡ self.now.0 }
    {
        self.rest
    }
}

impl Source for SliceSource<'_> {
    ghost pulled = { λ s. record { left = Some s.0; failures = 0; given = s.1 } };

    fn pull(&mut self, buffer: &mut [u8]) -> io::Result<usize> {
        let count = buffer.len().min(self.rest.len());
        let (front, rest) = self.rest.split_at(count);
        buffer[..count].copy_from_slice(front);
        self.rest = rest;
        self.given = self.given.saturating_add(count as u64);
        Ok(count)
    }
}

/// Keeps what is written in a vector; a call fails where there is no memory for its bytes. A clause
/// sees the pair of the bytes and the number of calls that failed.
#[derive(Drop)]
pub struct VecSink {
    bytes: Vec<u8>,
    failures: u64,
}

impl Model for VecSink {
    ghost use Rattle.std.specs.Prelude.{ℕ, List};

    ghost Value = { List ℕ × ℕ };

    ghost view = { λ s. (s.bytes.items, s.failures) };
}

impl VecSink {
    /// Writes go behind these bytes.
    pub fn new(bytes: Vec<u8>) -> VecSink
        ensures { result ≡ (bytes.items, 0) }
    {
        VecSink { bytes, failures: 0 }
    }

    /// What it holds.
    pub fn bytes(&self) -> &[u8]
        ensures { result.now ≡ self.now.0 }
    {
        self.bytes.as_slice()
    }

    /// How many calls failed so far.
    pub fn failures(&self) -> u64
        ensures { result ≡ self.now.1 }
    {
        self.failures
    }

    /// What it holds, as a vector.
    pub fn into_bytes(self) -> Vec<u8>
        ensures { result.items ≡ self.0 }
    {
        self.bytes
    }
}

impl Sink for VecSink {
    ghost sent = { λ s. record { written = Some s.0; failures = s.1 } };

    fn put(&mut self, bytes: &[u8]) -> io::Result<usize> {
        match self.bytes.extend_from_slice(bytes) {
            Ok(()) => Ok(bytes.len()),
            Err(e) => {
                self.failures += 1;
                Err(io::Error::from(e))
            }
        }
    }
}
