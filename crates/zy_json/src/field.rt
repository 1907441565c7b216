//! The fields of a line of JSON.
ghost use Rattle.std.specs.Prelude.{◌≡◌, Some};
ghost use Rattle.zy_json.specs.Fields.{key_of, shown};

use std::fmt;

/// A field of the object that a line is.
#[derive(Clone, Copy, Debug, PartialEq, Eq)]
pub enum Member {
    /// Who made the step, under `actor`: `C`, `A` or `B`.
    Actor,
    /// What the actor did, under `do`, as `run 0`.
    Action,
    /// What came of it, under `came`, as `committed 1`. It may be left out.
    Came,
    /// The value that the step shows, under `value`, as 7. It may be left out.
    Value,
    /// The kind of the message that was sent, under `sent`, as `pull`. It may be left out.
    Sent,
    /// The rows of the page that the step moved, under `rows`, as `10=1 20=2`. It may be left out.
    Rows,
}

impl Member {
    /// The name under which the field stands in the object.
    pub fn key(self) -> &'static str
        ensures { result.now ≡ key_of self }
    {
        match self {
            Member::Actor => "actor",
            Member::Action => "do",
            Member::Came => "came",
            Member::Value => "value",
            Member::Sent => "sent",
            Member::Rows => "rows",
        }
    }
}

/// Its name in quotation marks.
impl fmt::Display for Member {
    ghost output = { λ f. Some (shown f) };

    fn fmt<W: fmt::Write>(&self, f: &mut fmt::Formatter<W>) -> fmt::Result {
        let key = self.key();
        write!(f, "\"{key}\"")
    }
}
