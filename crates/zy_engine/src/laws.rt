//! What holds of inputs, and of the listings that go out: each function is a law, and its contract is all of it.
ghost use Rattle.std.specs.Prelude.{◌≡◌, ℕ, List, None};
ghost use Rattle.zy_isa.specs.declared.choice.Choice.{Choice as AChoice};
ghost use Rattle.zy_isa.specs.Scenario.{Scenario, IsScenario};
ghost use Rattle.zy_text.specs.Text.{Means};
ghost use Rattle.zy_asm.specs.Input.{input_fault, utf8_fault};
ghost use Rattle.zy_threads.specs.Orders.{reordered};
ghost use Rattle.zy_threads.specs.Turns.{IsMerge};
ghost use Rattle.zy_engine.specs.Again.{RunsAgain};

/// A text that is UTF-8 and means a scenario has no fault.
pub fn meant_is_accepted()
    ensures { (text : List ℕ) (sc : Scenario) → utf8_fault text ≡ None → Means text sc → input_fault text ≡ None }
{}

/// The scenario part of what `threads` writes is the canonical text of the scenario with the order that was taken. It
/// means that scenario, and `run` writes the same listing from it.
pub fn merges_run_again()
    ensures { (sc : Scenario) → IsScenario sc → (order : List AChoice) → IsMerge order sc.choices
        → RunsAgain (reordered sc order) }
{}
