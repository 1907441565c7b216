//! Outcomes of one page.
ghost use Rattle.std.specs.Prelude.{◌≡◌};
ghost use Rattle.zy_patterns.specs.Paged as spec;

use crate::patterns::OutcomePattern;

/// An outcome of one page. Each is named as its variant of `Outcome`.
#[derive(Clone, Copy)]
pub enum PagedOutcome {
    Waits,
    Pulls,
    Awaits,
    Stale,
    Held,
    GotPull,
    GotPage,
    Pushed,
}

/// The outcome with this page, if one is asked for.
pub fn with_page(outcome: PagedOutcome, page: Option<u16>) -> OutcomePattern
    ensures { result ≡ spec.with_page outcome page }
{
    match outcome {
        PagedOutcome::Waits => OutcomePattern::Waits(page),
        PagedOutcome::Pulls => OutcomePattern::Pulls(page),
        PagedOutcome::Awaits => OutcomePattern::Awaits(page),
        PagedOutcome::Stale => OutcomePattern::Stale(page),
        PagedOutcome::Held => OutcomePattern::Held(page),
        PagedOutcome::GotPull => OutcomePattern::GotPull(page),
        PagedOutcome::GotPage => OutcomePattern::GotPage(page),
        PagedOutcome::Pushed => OutcomePattern::Pushed(page),
    }
}
