//! A text as a scenario.
ghost use Rattle.std.specs.Prelude.{◌≡◌, IfOk, IfErr, Some, None, Err, ◌⊎◌};
ghost use Rattle.zy_isa.specs.Scenario as isa;
ghost use Rattle.zy_text.specs.Canon.{canon};
ghost use Rattle.zy_text.specs.Text.{Means};
ghost use Rattle.zy_asm.specs.Reading.{reading};
ghost use Rattle.zy_asm.specs.Input.{utf8_fault, input_fault};
ghost use Rattle.zy_asm.specs.Reasons.{fault_of};
ghost use Rattle.zy_asm.specs.Assembling.{GivesScenario};

use crate::faults::{AsmKind, LineFault};
use crate::reading::read;
use crate::state::Reader;
use crate::text::text_of;
use std::alloc::Global;
use zy_isa::Scenario;

/// The scenario that a text means. It takes memory for what the scenario has, and for names and labels.
pub fn assemble(alloc: Global, text: &str) -> Result<Scenario, LineFault>
    // What is read is meant.
    ensures found { IfOk result (λ s. Means text.now s) }
    // What is meant is read, unless there is no memory.
    ensures only { (s : isa.Scenario) → Means text.now s → GivesScenario result s }
    // The fault is that of the first faulty line.
    ensures fault { IfErr result (λ r. ((fault_of r).kind ≡ AsmKind.Memory) ⊎ (reading text.now ≡ Err (fault_of r))) }
{
    match read(alloc, text) {
        Err(refusal) => Err(refusal),
        Ok(reader) => {
            let Reader {
                alloc: _,
                stage: _,
                version,
                cap,
                pages,
                rule,
                rows,
                names: _,
                programs,
                labels: _,
                instrs: _,
                choices,
            } = reader;
            Ok(Scenario::of_parts(version, cap, pages, rule, rows, programs, choices))
        }
    }
}

/// The scenario that bytes mean, where they are UTF-8.
pub fn assemble_bytes(alloc: Global, bytes: &[u8]) -> Result<Scenario, LineFault>
    // What is read is meant, and the bytes have no fault.
    ensures found { IfOk result (λ s. Means bytes.now s × (input_fault bytes.now ≡ None)) }
    // What is meant is read, unless there is no memory.
    ensures only { (s : isa.Scenario) → utf8_fault bytes.now ≡ None → Means bytes.now s → GivesScenario result s }
    // The fault is the first one of the bytes.
    ensures fault { IfErr result (λ r. ((fault_of r).kind ≡ AsmKind.Memory)
        ⊎ (input_fault bytes.now ≡ Some (fault_of r))) }
{
    match text_of(bytes) {
        Ok(text) => assemble(alloc, text),
        Err(wrong) => Err(wrong),
    }
}

/// The canonical text means its scenario.
pub fn canon_means()
    ensures { (s : isa.Scenario) → isa.IsScenario s → Means (canon s) s }
{}
