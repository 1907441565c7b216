//! What an input is written in, and the scenario that it stands for.
ghost use Rattle.std.specs.Prelude.{◌≡◌, IfErr, IfOk, drop, length};
ghost use Rattle.zy_text.specs.Cut.{cut};
ghost use Rattle.zy_engine.specs.Inputs.{IsAccepted, IsRefusal};

use crate::faults::BenchFault;
use std::alloc::Global;
use zy_asm::assembling::assemble_bytes;
use zy_image::ImageRefusal;
use zy_image::load::load;
use zy_isa::Scenario;
use zy_text::cut::cut_len;

/// What an input is written in.
#[derive(Clone, Copy)]
pub enum Format {
    /// The text of a scenario.
    Text,
    /// The image of a scenario.
    Image,
}

/// The scenario that an input stands for.
pub fn accept(alloc: Global, format: Format, bytes: &[u8]) -> Result<Scenario, BenchFault>
    // What is accepted stands for the scenario and for no other, and has no fault.
    ensures accepted { IfOk result (IsAccepted format bytes.now) }
    // What is rejected is reported by its first fault.
    ensures fault { IfErr result (IsRefusal format bytes.now) }
{
    match format {
        Format::Text => {
            let scenario = assemble_bytes(alloc, bytes)?;
            Ok(scenario)
        }
        Format::Image => match load(alloc, bytes) {
            Ok(scenario) => Ok(scenario),
            Err(fault) => Err(BenchFault::from(ImageRefusal::of(fault, bytes))),
        },
    }
}

/// The scenario part of an input, which is a scenario text through its first line whose only word is `end`, and what is below
/// it.
pub fn split_scenario(input: &[u8]) -> (&[u8], &[u8])
    ensures part { result.0.now ≡ cut input.now }
    ensures below { result.1.now ≡ drop (length (cut input.now)) input.now }
{
    input.split_at(cut_len(input))
}
