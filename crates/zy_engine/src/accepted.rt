//! Inputs that are read once.
ghost use Rattle.std.specs.Prelude.{◌≡◌, IfErr, IfOk};
ghost use Rattle.zy_engine.specs.Inputs.{IsAccepted, IsRefusal};

use crate::faults::BenchFault;
use crate::format::{Format, accept};
use std::alloc::Global;
use zy_isa::Scenario;

/// An input with the scenario that it stands for: with no other, and it has no fault. What a command does with an input it
/// does with this, so that the input is read once.
#[derive(Drop)]
pub struct AcceptedInput<'a> {
    /// What the input is written in.
    pub format: Format,
    /// Its bytes.
    pub bytes: &'a [u8],
    /// The scenario.
    pub scenario: Scenario,
    pub ghost accepted: { ∥ IsAccepted format bytes.now scenario ∥₁ },
}

impl<'a> AcceptedInput<'a> {
    /// An input, unless it is rejected.
    pub fn of(
        alloc: Global,
        format: Format,
        bytes: &'a [u8],
    ) -> Result<AcceptedInput<'a>, BenchFault>
        ensures input { IfOk result (λ i. (i.format ≡ format) × (i.bytes.now ≡ bytes.now)) }
        ensures accepted { IfOk result (λ i. IsAccepted format bytes.now i.scenario) }
        ensures fault { IfErr result (IsRefusal format bytes.now) }
    {
        let scenario = accept(alloc, format, bytes)?;
        Ok(AcceptedInput {
            format,
            bytes,
            scenario,
        })
    }
}
