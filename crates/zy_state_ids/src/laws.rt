//! What holds of the bytes of states and of the numbers of their parts: each function is a law, and its contract is all of it.
ghost use Rattle.std.specs.Prelude.{◌≡◌, ℕ, List};
ghost use Rattle.zy_table.specs.State.{State};
ghost use Rattle.zy_state_ids.specs.Packed.{packed};
ghost use Rattle.zy_steps.specs.Alike.{Alike};
ghost use Rattle.zy_steps.specs.declared.part.StatePart.{StatePart};
ghost use Rattle.zy_state_ids.specs.Parts.{IsNumbered, Keeps};

/// Two states with the same bytes are the same.
pub fn bytes_tell_states()
    ensures { (s t : State) → packed s ≡ packed t → s ≡ t }
{}

/// Two states with the same numbers are alike in what counts.
pub fn numbers_tell_states()
    ensures { (table : List (List ℕ)) (part : StatePart) (numbers : List ℕ) (s t : State)
        → IsNumbered table part numbers s → IsNumbered table part numbers t → Alike part s t }
{}

/// The numbers of a state stay its own while a table grows.
pub fn numbers_stay()
    ensures { (old new : List (List ℕ)) (part : StatePart) (numbers : List ℕ) (s : State)
        → Keeps old new → IsNumbered old part numbers s → IsNumbered new part numbers s }
{}
