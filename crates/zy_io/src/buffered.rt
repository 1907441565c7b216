//! A sink that keeps bytes back, and passes them on many at a time.
ghost use Rattle.std.specs.Prelude.{◌≡◌, ◌<◌, ◌≤◌, ◌+◌, [], OnOk, if◌then◌else◌};
ghost use Rattle.std.specs.Prelude.{is_err, length, take};
ghost use Rattle.std.specs.Io.KnownBytes.{Keeps, append_known};
ghost use Rattle.zy_io.specs.Streams.{Sends, WritesAll, with_pending};

use crate::buffer::LineBuffer;
use crate::pending::Pending;
use crate::piece::Piece;
use crate::stream::Sink;
use crate::writing::{TextFault, WriteFault};
use std::io;

/// Keeps bytes back for a sink, which is called once for many lines. The bytes that are kept back when it is dropped
/// are lost: call `pass` before.
#[derive(Drop)]
pub struct Buffered<K> {
    sink: K,
    pending: Pending,
}

impl<K> Buffered<K> {
    /// Keeps back these bytes, and others where there is room for them.
    pub fn new(sink: K, pending: Pending) -> Buffered<K>
        ensures { result ≡ record { sink = sink; pending = pending } }
    {
        Buffered { sink, pending }
    }

    /// The sink that the bytes go to.
    pub fn sink(&self) -> &K
        ensures { result.now ≡ self.now.sink }
    {
        &self.sink
    }
}

impl<K: Sink> Buffered<K> {
    /// Passes on what is kept back, up to the first call of the sink that fails or takes none.
    #[cold]
    #[inline(never)]
    pub fn pass(&mut self) -> Result<(), WriteFault>
        requires { (K.sent self.old.sink).failures < u64.MAX }
        ensures empty { OnOk result (self.new.pending.bytes.items ≡ []) }
        ensures bytes { Keeps (append_known (K.sent self.old.sink).written self.old.pending.bytes.items)
            (append_known (K.sent self.new.sink).written self.new.pending.bytes.items) }
        ensures failed { (K.sent self.new.sink).failures ≡ (K.sent self.old.sink).failures + (if is_err result then 1 else 0) }
    {
        let (given, outcome) = give(&mut self.sink, self.pending.as_slice());
        self.pending.drop_front(given);
        outcome
    }

    /// Takes all of the bytes, for which there is no room beside those that are kept back.
    #[cold]
    #[inline(never)]
    fn put_many(&mut self, bytes: &[u8]) -> Result<(), WriteFault>
        requires { (K.sent self.old.sink).failures < u64.MAX }
        ensures { WritesAll (with_pending (K.sent self.old.sink) self.old.pending.bytes.items)
            (with_pending (K.sent self.new.sink) self.new.pending.bytes.items) result bytes.now }
    {
        self.pass()?;
        if self.pending.keep(bytes) {
            return Ok(());
        }
        self.sink.put_all(bytes)
    }
}

/// What is kept back counts as written.
impl<K: Sink> Sink for Buffered<K> {
    ghost sent = { λ s. with_pending (K.sent s.sink) s.pending.bytes.items };

    fn put(&mut self, bytes: &[u8]) -> io::Result<usize> {
        if bytes.is_empty() || self.pending.keep(bytes) {
            return Ok(bytes.len());
        }
        match self.pass() {
            Ok(()) => self.sink.put(bytes),
            Err(_) => Ok(0),
        }
    }

    #[inline(always)]
    fn put_all(&mut self, bytes: &[u8]) -> Result<(), WriteFault> {
        if self.pending.keep(bytes) {
            return Ok(());
        }
        self.put_many(bytes)
    }

    /// The piece is put together where it is kept back.
    #[inline(always)]
    fn put_piece<P: Piece>(&mut self, piece: P, _buffer: &mut LineBuffer) -> Result<(), TextFault> {
        if !self.pending.has_room() {
            if let Err(fault) = self.pass() {
                return Err(TextFault::from(fault));
            }
        }
        self.pending.keep_piece(piece);
        Ok(())
    }
}

/// Gives bytes to a sink up to the first call that fails or takes none, and says how many it took.
fn give<K: Sink>(sink: &mut K, bytes: &[u8]) -> (usize, Result<(), WriteFault>)
    requires { (K.sent sink.old).failures < u64.MAX }
    ensures bound { result.0 ≤ length bytes.now }
    ensures all { OnOk result.1 (result.0 ≡ length bytes.now) }
    ensures bytes { Sends (K.sent sink.old) (K.sent sink.new) (take result.0 bytes.now) }
    ensures failed { (K.sent sink.new).failures ≡ (K.sent sink.old).failures + (if is_err result.1 then 1 else 0) }
{
    let mut given = 0;
    while given < bytes.len() {
        match sink.put(&bytes[given..]) {
            Ok(0) => return (given, Err(WriteFault)),
            Ok(count) => given += count,
            Err(_) => return (given, Err(WriteFault)),
        }
    }
    (given, Ok(()))
}
