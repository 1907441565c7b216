//! The transactions and pages that a goal names. A warning is made of them; no contract says which they are.

use crate::goal::{
    Fact, Goal, LinkContent, MessagePattern, Selector, StateFact, Term, TxnProperty,
};
use zy_patterns::{OutcomePattern, ReasonPattern};

/// How many transactions and pages a scenario must have for a goal to name no others; 0 where it names none.
#[derive(Clone, Copy)]
pub struct Named {
    pub txns: usize,
    pub pages: usize,
}

impl Named {
    /// Neither transactions nor pages.
    fn nothing() -> Named {
        Named { txns: 0, pages: 0 }
    }

    /// The transaction with this number.
    fn txn(t: u8) -> Named {
        Named {
            txns: usize::from(t) + 1,
            pages: 0,
        }
    }

    /// The page with this number.
    fn page(p: u16) -> Named {
        Named {
            txns: 0,
            pages: usize::from(p) + 1,
        }
    }

    /// What either of two names.
    fn and(self, other: Named) -> Named {
        Named {
            txns: self.txns.max(other.txns),
            pages: self.pages.max(other.pages),
        }
    }
}

/// What a term names.
fn named_by_term(term: Term) -> Named {
    match term {
        Term::Register { txn, .. } => Named::txn(txn),
        Term::Pc(t) => Named::txn(t),
        Term::Done(t) => Named::txn(t),
        _ => Named::nothing(),
    }
}

/// What the selector of transactions names.
fn named_by_selector(selector: Selector) -> Named {
    match selector {
        Selector::One(t) => Named::txn(t),
        _ => Named::nothing(),
    }
}

/// What the reason of an abort names.
fn named_by_reason(reason: ReasonPattern) -> Named {
    match reason {
        ReasonPattern::Frozen(Some(p)) => Named::page(p),
        ReasonPattern::Gone(Some(p)) => Named::page(p),
        _ => Named::nothing(),
    }
}

/// What the property of a transaction names.
fn named_by_property(property: TxnProperty) -> Named {
    match property {
        TxnProperty::Aborted(Some(reason)) => named_by_reason(reason),
        _ => Named::nothing(),
    }
}

/// What a fact of the state names.
fn named_by_fact(fact: StateFact) -> Named {
    match fact {
        StateFact::Page(p, _) => Named::page(p),
        StateFact::Locked(p) => Named::page(p),
        StateFact::LockedBy { txn, page } => Named::txn(txn).and(Named::page(page)),
        StateFact::Txns(selector, property) => {
            named_by_selector(selector).and(named_by_property(property))
        }
        StateFact::CommittedBefore { earlier, later } => Named::txn(earlier).and(Named::txn(later)),
        StateFact::Link(_, LinkContent::Has(pattern)) => named_by_pattern(pattern),
        StateFact::Compare(left, _, right) => named_by_term(left).and(named_by_term(right)),
        _ => Named::nothing(),
    }
}

/// What the pattern of a message names.
fn named_by_pattern(pattern: MessagePattern) -> Named {
    match pattern {
        MessagePattern::Pull(p) => Named::page(p),
        MessagePattern::Page(p) => Named::page(p),
        MessagePattern::OfKind(_) => Named::nothing(),
    }
}

/// What an outcome names. The boundary of a split is a key, and a place in commit order is no transaction.
fn named_by_outcome(outcome: OutcomePattern) -> Named {
    match outcome {
        OutcomePattern::Waits(Some(p))
        | OutcomePattern::Pulls(Some(p))
        | OutcomePattern::Awaits(Some(p))
        | OutcomePattern::Stale(Some(p))
        | OutcomePattern::Held(Some(p))
        | OutcomePattern::GotPull(Some(p))
        | OutcomePattern::GotPage(Some(p))
        | OutcomePattern::Pushed(Some(p)) => Named::page(p),
        OutcomePattern::Split { page, new_page, .. } => {
            named_by_page(page).and(named_by_page(new_page))
        }
        OutcomePattern::Aborted(Some(reason)) => named_by_reason(reason),
        OutcomePattern::Active(Some(t)) => Named::txn(t),
        _ => Named::nothing(),
    }
}

/// What a page that may be left out names.
fn named_by_page(page: Option<u16>) -> Named {
    match page {
        Some(p) => Named::page(p),
        None => Named::nothing(),
    }
}

/// What the tests of a goal name.
fn named_by_goal(goal: &Goal) -> Named {
    match goal {
        Goal::Is(Fact::OfState(fact)) => named_by_fact(*fact),
        Goal::Is(_) => Named::nothing(),
        Goal::Not(g) => named_by_goal(g),
        Goal::And(g, h) => named_by_goal(g).and(named_by_goal(h)),
        Goal::Or(g, h) => named_by_goal(g).and(named_by_goal(h)),
    }
}

/// What a goal names, and the outcome after its `then`.
pub fn named_by(goal: &Goal, then: Option<OutcomePattern>) -> Named {
    let named = named_by_goal(goal);
    match then {
        Some(outcome) => named.and(named_by_outcome(outcome)),
        None => named,
    }
}
