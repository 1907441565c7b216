//! What a trace says of a state.
ghost use Rattle.zy_trace.specs.Laws.{LastLines};

/// The line of a subject that was shown last is its line in the last state.
pub fn last_lines()
    ensures { LastLines }
{}
