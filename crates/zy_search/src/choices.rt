//! The choices that a search considers.
ghost use Rattle.std.specs.Prelude.{◌≡◌, ◌++◌, IfOk, OnOk};
ghost use Rattle.zy_isa.specs.declared.choice.Choice.TheVariants.{Begin, Kill, Run};
ghost use Rattle.zy_search.specs.Choices.{each, of_node};
ghost use Rattle.zy_search.specs.Choices as spec;

use crate::kinds::{ChoiceKinds, is_of_kinds};
use std::alloc::{AllocError, Global};
use zy_isa::{Choice, Node};

/// All choices of this number of transactions, in the order in which a search makes them.
fn all_choices(alloc: Global, count: u8) -> Result<Vec<Choice>, AllocError>
    ensures { IfOk result (λ v. v.items ≡ spec.all_choices count) }
{
    let mut choices = Vec::new(alloc);
    choices.push(Choice::Start)?;
    add_begins(&mut choices, count)?;
    add_kills(&mut choices, count)?;
    add_of(&mut choices, Node::A, count)?;
    add_of(&mut choices, Node::B, count)?;
    Ok(choices)
}

/// The choices that a search considers, in the order in which it makes them: those of these kinds and of this number of
/// transactions.
pub fn considered(alloc: Global, kinds: ChoiceKinds, count: u8) -> Result<Vec<Choice>, AllocError>
    ensures { IfOk result (λ v. v.items ≡ spec.considered kinds count) }
{
    let mut choices = all_choices(alloc, count)?;
    choices.retain(|choice| is_of_kinds(kinds, *choice));
    Ok(choices)
}

/// Adds that each transaction begins.
fn add_begins(choices: &mut Vec<Choice>, count: u8) -> Result<(), AllocError>
    ensures { OnOk result (choices.new.items ≡ choices.old.items ++ each Begin count) }
{
    for t in 0..count {
        choices.push(Choice::Begin(t))?;
    }
    Ok(())
}

/// Adds that each transaction is killed.
fn add_kills(choices: &mut Vec<Choice>, count: u8) -> Result<(), AllocError>
    ensures { OnOk result (choices.new.items ≡ choices.old.items ++ each Kill count) }
{
    for t in 0..count {
        choices.push(Choice::Kill(t))?;
    }
    Ok(())
}

/// Adds that a node runs each transaction.
fn add_runs(choices: &mut Vec<Choice>, n: Node, count: u8) -> Result<(), AllocError>
    ensures { OnOk result (choices.new.items ≡ choices.old.items ++ each (Run n) count) }
{
    for t in 0..count {
        choices.push(Choice::Run(n, t))?;
    }
    Ok(())
}

/// Adds the choices of a node.
fn add_of(choices: &mut Vec<Choice>, n: Node, count: u8) -> Result<(), AllocError>
    ensures { OnOk result (choices.new.items ≡ choices.old.items ++ of_node n count) }
{
    add_runs(choices, n, count)?;
    choices.push(Choice::Take(n))?;
    choices.push(Choice::Finish(n))?;
    choices.push(Choice::Push(n))?;
    Ok(())
}
