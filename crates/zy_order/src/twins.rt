//! Lines of two logs that tell one step.
ghost use Rattle.std.specs.Prelude.{◌≡◌};
ghost use Rattle.std.specs.Bool.{Decides};
ghost use Rattle.zy_order.specs.Twins.{AreTwins, TellsOnce, comes_once as spec_once};

use zy_isa::Version;
use zy_logs::LogLine;
use zy_patterns::OutcomePattern;

/// Whether this comes of a choice of the client only once.
fn comes_once(version: Version, told: OutcomePattern) -> bool
    ensures { result ≡ spec_once version told }
{
    match told {
        OutcomePattern::Began(_) | OutcomePattern::Aborted(_) => true,
        OutcomePattern::Started => matches!(version, Version::One),
        _ => false,
    }
}

/// Whether a line tells what comes only once.
pub(crate) fn tells_once(version: Version, line: &LogLine) -> bool
    ensures { Decides result (TellsOnce version line.now) }
{
    match line.told {
        Some(told) => comes_once(version, told),
        None => false,
    }
}

/// Whether two lines are of two logs and of one choice, and both tell what comes only once.
pub fn are_twins(version: Version, line: &LogLine, other: &LogLine) -> bool
    ensures { Decides result (AreTwins version line.now other.now) }
{
    line.log != other.log
        && line.choice == other.choice
        && tells_once(version, line)
        && tells_once(version, other)
}
