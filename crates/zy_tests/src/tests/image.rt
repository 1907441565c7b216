//! A loaded scenario with other choices. Images and their faults are in `tests/images` and `tests/refused-images` of
//! the repository.

use std::alloc::Global;
use std::test::Fail;
use zy_image::LoadFault;
use zy_image::choices::with_choices;
use zy_image::load::load;
use zy_isa::{Choice, Node, Scenario};

/// Cap 4, one page, no rows, one program of three instructions, and three choices.
const IMAGE: [u8; 47] =
    *b"ZPH1\x04\x00\x01\x00\x00\x00\x01\x03\x05\x00\x01\x00\x00\x00\x00\x02\x07\x00\x00\x00\x00\x00\x00\x00\x06\x00\x00\x00\x00\x00\x00\x00\x00\x03\x00\x01\x00\x01\x03\x00\x01\x03\x00";

/// The worked scenario with these choices, or why it does not take them.
fn chosen(alloc: Global, choices: &[Choice]) -> Result<Result<Scenario, LoadFault>, Fail> {
    let choices = choices.to_vec(alloc)?;
    Ok(with_choices(load(alloc, IMAGE.as_slice())?, choices))
}

/// The worked scenario with these choices.
pub fn scenario(alloc: Global, choices: &[Choice]) -> Result<Scenario, Fail> {
    Ok(chosen(alloc, choices)??)
}

/// The fault of these choices in the worked scenario.
fn fault_of(alloc: Global, choices: &[Choice]) -> Result<Option<LoadFault>, Fail> {
    Ok(chosen(alloc, choices)?.err())
}

#[test]
fn a_loaded_scenario_takes_other_choices(rt: HostRuntime) -> Result<(), Fail> {
    let others = [Choice::Start, Choice::Take(Node::B)];
    let other = scenario(rt.alloc(), others.as_slice())?;
    assert!(rt; other.choices() == others.as_slice());
    Ok(())
}

#[test]
fn a_loaded_scenario_refuses_other_choices(rt: HostRuntime) -> Result<(), Fail> {
    let many = fault_of(rt.alloc(), [Choice::Start; 4097].as_slice())?;
    assert!(rt; matches!(many, Some(LoadFault::ChoiceCount)));
    let strange = [Choice::Start, Choice::Begin(1)];
    let stray = fault_of(rt.alloc(), strange.as_slice())?;
    assert!(rt; matches!(stray, Some(LoadFault::Choice(1))));
    Ok(())
}
