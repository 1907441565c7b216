//! The versions of scenarios, and how each is spelled.
ghost use Rattle.std.specs.Prelude.{◌≡◌};
ghost use Rattle.zy_isa.specs.Versions as spec;

use crate::operation::is;

/// A version of scenarios. A later one has all that an earlier one has.
#[derive(Clone, Copy, PartialEq, Eq)]
pub enum Version {
    /// Version 1: a migration goes from A to B, and there is one at most.
    One,
    /// Version 2: once a migration has ended, the next one goes back; and there is the instruction `sum`.
    Two,
}

impl Version {
    /// Its number, 1 or 2.
    pub fn number(self) -> u8
        ensures { result ≡ spec.number self }
    {
        match self {
            Version::One => 1,
            Version::Two => 2,
        }
    }

    /// The version with this number.
    pub fn numbered(number: u8) -> Option<Version>
        ensures { result ≡ spec.numbered number }
    {
        match number {
            1 => Some(Version::One),
            2 => Some(Version::Two),
            _ => None,
        }
    }

    /// Its number as a character, which is its word in a text.
    pub fn digit(self) -> u8
        ensures { result ≡ spec.digit self }
    {
        b'0' + self.number()
    }

    /// The version that the word behind `zephyr` names.
    pub fn named(word: &[u8]) -> Option<Version>
        ensures { result ≡ spec.named word.now }
    {
        if is(word, b"1") {
            Some(Version::One)
        } else if is(word, b"2") {
            Some(Version::Two)
        } else {
            None
        }
    }

    /// The bytes that its images begin with.
    pub fn magic(self) -> [u8; 4]
        ensures { result ≡ spec.magic self }
    {
        [b'Z', b'P', b'H', self.digit()]
    }

    /// The version whose images begin with these bytes.
    pub fn of_magic(bytes: [u8; 4]) -> Option<Version>
        ensures { result ≡ spec.version_of_magic bytes }
    {
        if is(&bytes, &Version::One.magic()) {
            Some(Version::One)
        } else if is(&bytes, &Version::Two.magic()) {
            Some(Version::Two)
        } else {
            None
        }
    }

    /// Whether this version has what came with that one.
    #[inline(always)]
    pub fn has_since(self, first: Version) -> bool
        ensures { result ≡ spec.has_since first self }
    {
        match (first, self) {
            (Version::Two, Version::One) => false,
            (Version::Two, Version::Two) => true,
            (Version::One, _) => true,
        }
    }
}
