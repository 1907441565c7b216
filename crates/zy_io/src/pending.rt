//! Bytes that are kept back, in memory that never grows.
ghost use Rattle.std.specs.Prelude.{◌≡◌, ◌≤◌, ◌<◌, ◌+◌, ◌++◌, [], IfOk, if◌then◌else◌, length, drop, true, false};
ghost use Rattle.std.specs.Prelude.{vec_capacity, vec_len};

use crate::buffer::{LONGEST, put_back, taken};
use crate::piece::Piece;
use std::alloc::{AllocError, Global};

/// Bytes that are kept back, in memory that never grows and has room for any one piece.
#[derive(Drop)]
pub struct Pending {
    bytes: Vec<u8>,
    ghost room: { 160 ≤ vec_capacity bytes },
}

impl Pending {
    /// No bytes yet, and never more than this many, or those of one piece.
    pub fn new(alloc: Global, most: usize) -> Result<Pending, AllocError>
        ensures { IfOk result (λ h. h.bytes.items ≡ []) }
    {
        let bytes = Vec::with_capacity(alloc, most.max(LONGEST))?;
        Ok(Pending { bytes })
    }

    /// The bytes.
    pub(crate) fn as_slice(&self) -> &[u8]
        ensures value { result.now ≡ self.now.bytes.items }
    {
        self.bytes.as_slice()
    }

    /// Keeps back bytes behind the others, if there is room for all of them, and says whether there was.
    #[inline(always)]
    pub(crate) fn keep(&mut self, bytes: &[u8]) -> bool
        ensures { self.new.bytes.items ≡ (if result then self.old.bytes.items ++ bytes.now else self.old.bytes.items) }
    {
        bytes.len() <= self.bytes.capacity() - self.bytes.len()
            && self.bytes.extend_from_slice(bytes).is_ok()
    }

    /// Whether there is room for any one piece.
    #[inline(always)]
    pub(crate) fn has_room(&self) -> bool
        ensures room { result ≡ true → vec_len self.now.bytes + 160 ≤ vec_capacity self.now.bytes }
        ensures full { result ≡ false → vec_capacity self.now.bytes < vec_len self.now.bytes + 160 }
    {
        self.bytes.capacity() - self.bytes.len() >= LONGEST
    }

    /// Keeps back a piece behind the others.
    #[inline(always)]
    pub(crate) fn keep_piece<P: Piece>(&mut self, piece: P)
        requires { vec_len self.old.bytes + P.most ≤ vec_capacity self.old.bytes }
        ensures { self.new.bytes.items ≡ self.old.bytes.items ++ P.text piece }
    {
        let longer = piece.put_behind(taken(&mut self.bytes));
        put_back(&mut self.bytes, longer);
    }

    /// Drops the first bytes.
    pub(crate) fn drop_front(&mut self, count: usize)
        requires { count ≤ length self.old.bytes.items }
        ensures { self.new.bytes.items ≡ drop count self.old.bytes.items }
    {
        let left = self.bytes.len() - count;
        self.bytes.rotate_left(count);
        self.bytes.truncate(left);
    }
}
