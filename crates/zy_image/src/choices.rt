//! The choices of an image.
ghost use Rattle.std.specs.Prelude.{◌≡◌, ◌⊎◌, ℕ, Ok, Err, MatchResult};
ghost use Rattle.zy_image.specs.declared.faults.LoadFault.TheVariants.{Memory};
ghost use Rattle.zy_image.specs.Reading.{Gives, HasChoices, next_choice};
ghost use Rattle.zy_image.specs.Reading as spec;

use crate::faults::LoadFault;
use crate::fields::half;
use crate::lists::{Items, read_items};
use std::alloc::Global;
use zy_isa::{Choice, MAX_CHOICES, Node, Scenario, ScenarioFault};

/// A choice with a transaction, of which there are `count`.
fn named(count: usize, txn: u8, choice: Choice) -> Option<Choice>
    ensures { result ≡ spec.named count txn choice }
{
    if usize::from(txn) < count {
        Some(choice)
    } else {
        None
    }
}

/// A choice without a transaction, whose last byte is 0.
fn plain(txn: u8, choice: Choice) -> Option<Choice>
    ensures { result ≡ spec.plain txn choice }
{
    if txn == 0 { Some(choice) } else { None }
}

/// The choice of the client with this action.
fn client_choice(count: usize, action: u8, txn: u8) -> Option<Choice>
    ensures { result ≡ spec.client_choice count action txn }
{
    match action {
        0 => plain(txn, Choice::Start),
        1 => named(count, txn, Choice::Begin(txn)),
        2 => named(count, txn, Choice::Kill(txn)),
        _ => None,
    }
}

/// The choice of a node with this action, which names no transaction.
fn plain_choice(node: Node, action: u8, txn: u8) -> Option<Choice>
    requires { (action ≡ 3) → ⊥ }
    ensures { (count : ℕ) → result ≡ spec.node_choice count node action txn }
{
    let choice = match action {
        4 => Choice::Take(node),
        5 => Choice::Finish(node),
        6 => Choice::Push(node),
        _ => return None,
    };
    plain(txn, choice)
}

/// The choice of a node with this action. Most are those that a transaction runs.
fn node_choice(count: usize, node: Node, action: u8, txn: u8) -> Option<Choice>
    ensures { result ≡ spec.node_choice count node action txn }
{
    if action == 3 {
        named(count, txn, Choice::Run(node, txn))
    } else {
        plain_choice(node, action, txn)
    }
}

/// The node of an actor's number; none where it is not a node's.
fn node_of(actor: u8) -> Option<Node>
    ensures { result ≡ spec.node_of actor }
{
    match actor {
        1 => Some(Node::A),
        2 => Some(Node::B),
        _ => None,
    }
}

/// The choice of this actor with this action.
fn choice_at(count: usize, actor: u8, action: u8, txn: u8) -> Option<Choice>
    ensures { result ≡ spec.choice_at count actor action txn }
{
    match node_of(actor) {
        Some(node) => node_choice(count, node, action, txn),
        None if actor == 0 => client_choice(count, action, txn),
        None => None,
    }
}

/// How choices are read, where there are `count` transactions.
#[derive(Clone, Copy)]
struct ChoiceItems {
    count: usize,
    size: usize,
}

impl Items for ChoiceItems {
    type Item = Choice;

    ghost next = { λ s. next_choice s.count s.size };

    fn next<'a>(
        &self,
        before: &[Choice],
        bytes: &'a [u8],
    ) -> Result<(Choice, &'a [u8]), LoadFault> {
        let [actor, action, txn, left @ ..] = bytes else {
            return Err(LoadFault::Truncated(self.size));
        };
        match choice_at(self.count, *actor, *action, *txn) {
            Some(choice) => Ok((choice, left)),
            None => Err(LoadFault::Choice(before.len())),
        }
    }
}

/// How many choices there are.
fn choice_count(size: usize, bytes: &[u8]) -> Result<(usize, &[u8]), LoadFault>
    ensures { Gives result (spec.choice_count size bytes.entry.now) }
{
    let (count, left) = half(size, bytes)?;
    if usize::from(count) > MAX_CHOICES {
        return Err(LoadFault::ChoiceCount);
    }
    Ok((usize::from(count), left))
}

/// The choices, by their number, where there are `count` transactions.
pub fn choices(
    alloc: Global,
    count: usize,
    size: usize,
    bytes: &[u8],
) -> Result<(Vec<Choice>, &[u8]), LoadFault>
    ensures { let read = spec.choices count size bytes.entry.now in
        MatchResult result (λ x. read ≡ Ok (x.0.items, x.1.now)) (λ e. (e ≡ Memory) ⊎ (read ≡ Err e)) }
{
    let (number, left) = choice_count(size, bytes)?;
    read_items(alloc, &ChoiceItems { count, size }, number, left)
}

/// The scenario with these choices in place of its own. Both are dropped where the choices are rejected. It takes no
/// memory.
pub fn with_choices(scenario: Scenario, choices: Vec<Choice>) -> Result<Scenario, LoadFault>
    ensures { HasChoices result scenario choices.items }
{
    match scenario.with_choices(choices) {
        Ok(scenario) => Ok(scenario),
        Err(ScenarioFault::ChoiceCount) => Err(LoadFault::ChoiceCount),
        Err(ScenarioFault::Choice(i)) => Err(LoadFault::Choice(usize::from(i))),
        Err(_) => unreachable!(),
    }
}
