//! What holds of the verdict: each function is a law, and its contract is all of it. None does anything when called.
ghost use Rattle.std.specs.Prelude.{◌≡◌, ◌↔◌, ◌≢◌, ◌+◌, None, List, ℕ};
ghost use Rattle.zy_isa.specs.Scenario.{Scenario, IsScenario};
ghost use Rattle.zy_text.specs.Canon.{canon};
ghost use Rattle.zy_asm.specs.Input.{utf8_fault};
ghost use Rattle.zy_listing.specs.Run.{listing_run};
ghost use Rattle.zy_text.specs.Cut.{cut};
ghost use Rattle.zy_check.specs.Verdicts.{IsListing, IsVerdict};
ghost use Rattle.zy_check.specs.declared.verdict.Verdict.TheVariants.{Table, NotTable};
ghost use Rattle.zy_check.specs.Differs.{common, feeds, verdict, IsLongestShared};

/// The verdict is `Table` if and only if the input and the listing are the same bytes.
pub fn table_is_equality()
    ensures { (input listing : List ℕ) → verdict input listing ≡ Table ↔ input ≡ listing }
{}

/// `common` is the longest text that both texts begin with.
pub fn common_is_longest()
    ensures { (x y : List ℕ) → IsLongestShared (common x y) x y }
{}

/// Where they are not the same, the verdict's line is one more than the line feeds of the longest text that both begin
/// with.
pub fn line_is_of_longest()
    ensures { (input listing shared : List ℕ) → IsLongestShared shared input listing → input ≢ listing
        → verdict input listing ≡ NotTable (feeds shared + 1) }
{}

/// The verdict is `Table` if and only if the input is the listing of the scenario that its own prefix means.
pub fn table_is_a_listing()
    ensures { (input : List ℕ) → IsVerdict input Table ↔ IsListing input }
{}

/// A listing that `run` writes passes: its scenario part is the canonical text of the scenario with its choices, which
/// is UTF-8, and the verdict on it is `Table`.
pub fn runs_are_tables()
    ensures part { (sc : Scenario) → IsScenario sc → cut (listing_run sc) ≡ canon sc }
    ensures text { (sc : Scenario) → IsScenario sc → utf8_fault (canon sc) ≡ None }
    ensures table { (sc : Scenario) → IsScenario sc → IsVerdict (listing_run sc) Table }
{}
