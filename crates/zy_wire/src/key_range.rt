//! Keys from one on.
ghost use Rattle.std.specs.Prelude.{◌≡◌};
ghost use Rattle.zy_wire.specs.Ranges.{in_range};

/// Keys from a low one on.
#[derive(Clone, Copy)]
pub struct KeyRange {
    /// The least key.
    pub low: u16,
    /// The least key above them, if there is one.
    pub end: Option<u16>,
}

impl KeyRange {
    /// Every key.
    pub const ALL: KeyRange = KeyRange { low: 0, end: None };

    /// No key.
    pub const NONE: KeyRange = KeyRange {
        low: 0,
        end: Some(0),
    };

    /// Whether a key is among them.
    pub fn has(&self, key: u16) -> bool
        ensures { result ≡ in_range self.now key }
    {
        self.low <= key
            && match self.end {
                Some(end) => key < end,
                None => true,
            }
    }
}
