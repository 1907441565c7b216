//! What holds of steps and their lines: each function is a law, and its contract is all of it.
ghost use Rattle.std.specs.Prelude.{◌≡◌, ◌++◌, ◌∷◌, ℕ, List, All, false, Ok, Result};
ghost use Rattle.std.specs.List.{list_any};
ghost use Rattle.zy_text.specs.Words.{lines_of, words_of};
ghost use Rattle.zy_json.specs.declared.faults.JsonFault.{JsonFault};
ghost use Rattle.zy_json.specs.declared.step.JsonStep.{JsonStep as ARead};
ghost use Rattle.zy_json.specs.Fields.{ends_part};
ghost use Rattle.zy_json.specs.Meaning.{Reads, Tells};
ghost use Rattle.zy_json.specs.Plain.{IsPlain, plain_text};
ghost use Rattle.zy_json.specs.Steps.{Step as AStep, log_text};
ghost use Rattle.zy_json.specs.Words.{IsLine, IsPart, line_words};
ghost use Rattle.zy_json.specs.Written.{IsInUtf8, IsReadAs, json_text};

/// The line of JSON for a step tells the step. So it is read back as the same step, unless there is no memory: if its texts are in
/// UTF-8, as those of a `JsonStep` are, and parts of a line of a log.
pub fn written_is_read()
    ensures tells { (s : AStep) → IsInUtf8 s → IsLine s → Tells (json_text s) (Ok s) }
    ensures back { (s : AStep) (r : Result ARead JsonFault) → IsInUtf8 s → IsLine s → Reads (json_text s) r → IsReadAs s r }
{}

/// Where JSON escapes no sign of a step's texts, the line of a `PlainStep` is the line of JSON for the step.
pub fn plain_is_written()
    ensures { (s : AStep) → IsPlain s → plain_text s ≡ json_text s }
{}

/// The texts of a step that a line tells are parts of a line of a log.
pub fn read_is_line()
    ensures { (text : List ℕ) (s : AStep) → Tells text (Ok s) → IsLine s }
{}

/// If a step's texts are parts of a line, its line of a log has the words of these texts, with signs and the word `rows` between, and
/// is one line, whatever comes below it. No word of a part has a sign that ends a part: so none is taken for more than a word of its
/// own part.
pub fn line_has_words()
    ensures words { (s : AStep) → IsLine s → words_of (log_text s) ≡ line_words s }
    ensures one { (s : AStep) (below : List ℕ) → IsLine s → lines_of (log_text s ++ 10 ∷ below) ≡ log_text s ∷ lines_of below }
    ensures apart { (text : List ℕ) → IsPart text → All (λ word. list_any ends_part word ≡ false) (words_of text) }
{}
