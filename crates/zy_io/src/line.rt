//! What has the text of one line or of a part of one, and puts it behind what a buffer holds.
ghost use Rattle.std.specs.Prelude.{◌≡◌, ◌++◌, ◌∷◌, [], ℕ, List};
ghost use Rattle.std.specs.Fmt.{decimal};
ghost use Rattle.zy_io.specs.Writing.{Appended};

use crate::buffer::LineBuffer;
use std::alloc::AllocError;

/// What has the text of one line or of a part of one.
pub trait Line {
    // The text, without the line's end.
    ghost text: { Self → List ℕ };

    /// Puts its text behind what the buffer holds. At an error a prefix of it may be there.
    fn append(&self, line: &mut LineBuffer) -> Result<(), AllocError>
        ensures { Appended result line.old line.new (text self.now) };
}

/// Words.
impl Line for &str {
    ghost text = { λ words. words.now };

    #[inline(always)]
    fn append(&self, line: &mut LineBuffer) -> Result<(), AllocError> {
        line.push_str(self)
    }
}

/// A sign of ASCII.
impl Line for u8 {
    ghost text = { λ sign. sign ∷ [] };

    #[inline(always)]
    fn append(&self, line: &mut LineBuffer) -> Result<(), AllocError> {
        line.push(*self)
    }
}

/// Some signs of ASCII, which are put down in one piece.
impl<const N: usize> Line for [u8; N] {
    ghost text = { λ signs. signs };

    #[inline(always)]
    fn append(&self, line: &mut LineBuffer) -> Result<(), AllocError> {
        line.push_bytes(self)
    }
}

/// A whole number that is not below 0, of at most 64 bits.
pub trait Unsigned: Copy {
    // The number.
    ghost number: { Self → ℕ };

    /// The number in 64 bits.
    fn widened(self) -> u64
        ensures { result ≡ number self };
}

impl Unsigned for u8 {
    ghost number = { λ n. n };

    #[inline(always)]
    fn widened(self) -> u64 {
        u64::from(self)
    }
}

impl Unsigned for u16 {
    ghost number = { λ n. n };

    #[inline(always)]
    fn widened(self) -> u64 {
        u64::from(self)
    }
}

impl Unsigned for u32 {
    ghost number = { λ n. n };

    #[inline(always)]
    fn widened(self) -> u64 {
        u64::from(self)
    }
}

impl Unsigned for usize {
    ghost number = { λ n. n };

    #[inline(always)]
    fn widened(self) -> u64 {
        self as u64
    }
}

/// A number, in decimal digits.
#[derive(Clone, Copy)]
pub struct Decimal<U>(pub U);

impl<U: Unsigned> Line for Decimal<U> {
    ghost text = { λ d. decimal (U.number d.0) };

    #[inline(always)]
    fn append(&self, line: &mut LineBuffer) -> Result<(), AllocError> {
        line.push_piece(*self)
    }
}

/// One text and then another, on one line.
#[derive(Clone, Copy)]
pub struct Joined<A, B>(pub A, pub B);

impl<A: Line, B: Line> Line for Joined<A, B> {
    ghost text = { λ j. A.text j.0 ++ B.text j.1 };

    #[inline(always)]
    fn append(&self, line: &mut LineBuffer) -> Result<(), AllocError> {
        self.0.append(line)?;
        self.1.append(line)
    }
}

/// Texts of one line in the order in which they are printed: `joined!(a, b, c)` is `Joined(a, Joined(b, c))`.
#[macro_export]
macro_rules! joined {
    ($only:expr $(,)?) => { $only };
    ($first:expr, $($more:expr),+ $(,)?) => { $crate::Joined($first, $crate::joined!($($more),+)) };
}
