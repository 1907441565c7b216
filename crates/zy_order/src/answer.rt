//! What comes of a search for an order.

use zy_isa::Choice;

/// What came of a search. An order of prefixes of the logs has a prefix of each actor's lines, in order, with steps
/// that its log lacks in the gaps, and each of its lines agrees with what comes of its choice.
#[derive(Drop)]
pub enum OrderAnswer {
    /// The choices of an order with the end that is asked for: of all lines, and of missing steps.
    Found(Vec<Choice>),
    /// There are orders of all lines, and none of them has that end. These are the choices of one.
    OtherEnd(Vec<Choice>),
    /// There is no order. These are the choices of a furthest order of prefixes of the logs: none takes more lines of A
    /// and B together, and none that takes as many takes fewer of the client. So the next line of A does not fit behind
    /// it, nor does that of B; the client's may.
    Nowhere(Vec<Choice>),
    /// It is not known whether there is an order. These are the choices of an order of prefixes of the logs: the
    /// furthest that the search came to, though no contract says so.
    Spent(Vec<Choice>),
}

/// A number of lines of each actor's log.
#[derive(Clone, Copy)]
pub struct Taken {
    /// Of the client's.
    pub c: usize,
    /// Of that of A.
    pub a: usize,
    /// Of that of B.
    pub b: usize,
}

/// An answer, and for a person how many states were reached and how many lines its order takes: nothing is promised of
/// the numbers.
#[derive(Drop)]
pub struct OrderReport {
    /// The answer.
    pub answer: OrderAnswer,
    /// How many states were reached: one that is reached at several places in the logs counts at each.
    pub states: usize,
    /// How many lines of each actor's log the order of the answer takes; its other choices are of missing steps.
    pub taken: Taken,
}
