//! Parts of a line that have a longest text, so that some of them are put down together, with one test for room.
ghost use Rattle.std.specs.Prelude.{◌≡◌, ◌≤◌, ◌+◌, ◌++◌, ◌∷◌, [], ℕ, List, vec_capacity, vec_len};
ghost use Rattle.std.specs.Fmt.{decimal};

use crate::digits::with_number;
use crate::line::{Decimal, Joined, Unsigned};

/// A part of a line.
pub trait Piece: Copy {
    // The text.
    ghost text: { Self → List ℕ };

    // The most bytes that a text has.
    ghost most: { ℕ };

    /// Puts the text behind bytes that have room for it.
    fn put_behind(self, bytes: Vec<u8>) -> Vec<u8>
        requires { vec_len bytes + most ≤ vec_capacity bytes }
        ensures items { result.items ≡ bytes.items ++ text self }
        ensures len { vec_len result ≤ vec_len bytes + most }
        ensures room { vec_capacity result ≡ vec_capacity bytes };
}

/// Words.
impl<const N: usize> Piece for &[u8; N] {
    ghost text = { λ words. words.now };

    ghost most = { N };

    #[inline(always)]
    fn put_behind(self, bytes: Vec<u8>) -> Vec<u8> {
        let words = *self;
        let mut all = bytes;
        for byte in &words {
            all.push_reserved(*byte);
        }
        all
    }
}

impl<U: Unsigned> Piece for Decimal<U> {
    ghost text = { λ d. decimal (U.number d.0) };

    ghost most = { 20 };

    #[inline(always)]
    fn put_behind(self, bytes: Vec<u8>) -> Vec<u8> {
        with_number(bytes, self.0.widened())
    }
}

impl<A: Piece, B: Piece> Piece for Joined<A, B> {
    ghost text = { λ j. A.text j.0 ++ B.text j.1 };

    ghost most = { A.most + B.most };

    #[inline(always)]
    fn put_behind(self, bytes: Vec<u8>) -> Vec<u8> {
        self.1.put_behind(self.0.put_behind(bytes))
    }
}
