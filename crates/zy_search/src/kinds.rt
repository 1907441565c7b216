//! The kinds of choices.
ghost use Rattle.std.specs.Prelude.{◌≡◌};
ghost use Rattle.zy_search.specs.Choices as spec;

use zy_isa::Choice;

/// The kinds of choices that a search considers.
#[derive(Clone, Copy)]
pub struct ChoiceKinds {
    /// `C start`
    pub start: bool,
    /// `C begin t`
    pub begin: bool,
    /// `C kill t`
    pub kill: bool,
    /// `A run t`, `B run t`
    pub run: bool,
    /// `A take`, `B take`
    pub take: bool,
    /// `A finish`, `B finish`
    pub finish: bool,
    /// `A push`, `B push`
    pub push: bool,
}

/// Whether the kind of a choice is one of these.
pub(crate) fn is_of_kinds(kinds: ChoiceKinds, choice: Choice) -> bool
    ensures { result ≡ spec.is_of_kinds kinds choice }
{
    match choice {
        Choice::Start => kinds.start,
        Choice::Begin(_) => kinds.begin,
        Choice::Kill(_) => kinds.kill,
        Choice::Run(_, _) => kinds.run,
        Choice::Take(_) => kinds.take,
        Choice::Finish(_) => kinds.finish,
        Choice::Push(_) => kinds.push,
    }
}
