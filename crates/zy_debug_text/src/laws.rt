//! What holds of every session: each function is a law, and its contract is all of it.
ghost use Rattle.std.specs.Prelude.{ℕ, List};
ghost use Rattle.zy_debug.specs.Sessions.{Session as ASession};
ghost use Rattle.zy_debug_text.specs.Laws.{SaysOne};

/// Lines have exactly one list of replies: from a session they lead to one session and say one text.
pub fn replies_are_one()
    ensures { (s : ASession) → (lines : List (List ℕ)) → SaysOne s lines }
{}
