//! Lines that are put together in memory that is used again.
ghost use Rattle.std.specs.Prelude.{◌≡◌, ◌==◌, ◌≤◌, ◌+◌, ◌++◌, ◌∷◌, [], if◌then◌else◌, is_ok, length};
ghost use Rattle.std.specs.Prelude.{vec_capacity, vec_len};

use crate::appending::with_all;
use crate::piece::Piece;
use std::alloc::{AllocError, Global};
use std::marker::Model;
use std::mem;

/// The bytes of a line, or of some, before they go out.
#[derive(Drop)]
pub struct LineBuffer {
    bytes: Vec<u8>,
}

impl Model for LineBuffer {
    ghost use Rattle.std.specs.Prelude.{List, ℕ};

    ghost Value = { List ℕ };

    ghost view = { λ b. b.bytes.items };
}

impl LineBuffer {
    /// No bytes. It takes no memory.
    pub fn new(alloc: Global) -> LineBuffer
        ensures { result ≡ [] }
    {
        LineBuffer {
            bytes: Vec::new(alloc),
        }
    }

    /// How many bytes there are.
    pub fn len(&self) -> usize
        ensures { result ≡ length self.now }
    {
        self.bytes.len()
    }

    /// Whether there are none.
    pub fn is_empty(&self) -> bool
        ensures { result ≡ (length self.now == 0) }
    {
        self.bytes.is_empty()
    }

    /// The bytes.
    pub fn as_bytes(&self) -> &[u8]
        ensures value { result.now ≡ self.now }
    {
        self.bytes.as_slice()
    }

    /// Drops the bytes, and keeps their memory.
    pub fn clear(&mut self)
        ensures { self.new ≡ [] }
    {
        self.bytes.clear();
    }

    /// Puts a byte behind the others.
    #[inline(always)]
    pub fn push(&mut self, byte: u8) -> Result<(), AllocError>
        ensures bytes { self.new ≡ (if is_ok result then self.old ++ byte ∷ [] else self.old) }
    {
        self.bytes.reserve(1)?;
        self.bytes.push_reserved(byte);
        Ok(())
    }

    /// Puts words behind the others. Short ones that the caller writes out are put down in one piece.
    #[inline(always)]
    pub fn push_str(&mut self, words: &str) -> Result<(), AllocError>
        ensures bytes { self.new ≡ (if is_ok result then self.old ++ words.now else self.old) }
    {
        self.push_bytes(words.as_bytes())
    }

    /// Puts bytes behind the others.
    #[inline(always)]
    pub fn push_bytes(&mut self, bytes: &[u8]) -> Result<(), AllocError>
        ensures bytes { self.new ≡ (if is_ok result then self.old ++ bytes.now else self.old) }
    {
        self.bytes.reserve(bytes.len())?;
        let longer = with_all(taken(&mut self.bytes), bytes);
        put_back(&mut self.bytes, longer);
        Ok(())
    }

    /// Puts a piece behind the others.
    #[inline(always)]
    pub fn push_piece<P: Piece>(&mut self, piece: P) -> Result<(), AllocError>
        requires { P.most ≤ 160 }
        ensures bytes { self.new ≡ (if is_ok result then self.old ++ P.text piece else self.old) }
    {
        self.bytes.reserve(LONGEST)?;
        let longer = piece.put_behind(taken(&mut self.bytes));
        put_back(&mut self.bytes, longer);
        Ok(())
    }
}

/// The most bytes that a piece has.
pub(crate) const LONGEST: usize = 160;

/// The bytes, for which none are left. They come by value, so that where they lie need not be read again after each.
#[inline(always)]
pub(crate) fn taken(bytes: &mut Vec<u8>) -> Vec<u8>
    ensures { result ≡ bytes.old }
{
    let none = Vec::new(*bytes.allocator());
    mem::replace(bytes, none)
}

/// Puts bytes where `taken` left none. What it left there has no memory, so it is not dropped, which would be a test and a call.
#[inline(always)]
pub(crate) fn put_back(place: &mut Vec<u8>, bytes: Vec<u8>)
    ensures { place.new ≡ bytes }
{
    mem::forget(mem::replace(place, bytes));
}
