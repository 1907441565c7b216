//! What a line of the table answers.
ghost use Rattle.std.specs.Prelude.{◌≡◌, None, Some};

use crate::outcome::Outcome;
use zy_model::Kind;

/// What came of a step: its outcome, and the kind of message that was sent.
#[derive(Clone, Copy)]
pub struct Answer {
    pub outcome: Outcome,
    pub sent: Option<Kind>,
}

impl Answer {
    /// An outcome without a message.
    pub fn quiet(outcome: Outcome) -> Answer
        ensures { result ≡ record { outcome = outcome; sent = None } }
    {
        Answer {
            outcome,
            sent: None,
        }
    }

    /// An outcome, and the kind of the message that was sent.
    pub fn sends(outcome: Outcome, kind: Kind) -> Answer
        ensures { result ≡ record { outcome = outcome; sent = Some kind } }
    {
        Answer {
            outcome,
            sent: Some(kind),
        }
    }
}
