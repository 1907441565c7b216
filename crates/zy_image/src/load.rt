//! Bytes as a scenario.
ghost use Rattle.std.specs.Prelude.{◌≡◌, ◌⊎◌, IfOk, IfErr, MatchResult, None, Some, Ok, Err};
ghost use Rattle.zy_isa.specs.Scenario as isa;
ghost use Rattle.zy_image.specs.declared.faults.LoadFault.TheVariants.{Memory};
ghost use Rattle.zy_image.specs.Image.{IsImage, image_of};
ghost use Rattle.zy_image.specs.Reading.{GivesScenario, image_fault, of_parts, reading};

use crate::choices::choices;
use crate::faults::LoadFault;
use crate::head::{ImageHead, head_fields};
use crate::programs::programs;
use crate::rows::rows;
use std::alloc::Global;
use zy_isa::{Choice, Program, Row, Scenario};

/// What an image gives.
#[derive(Drop)]
struct Parts {
    head: ImageHead,
    rows: Vec<Row>,
    programs: Vec<Program>,
    choices: Vec<Choice>,
}

/// Reads all fields of an image, and nothing behind them.
fn read(alloc: Global, bytes: &[u8]) -> Result<Parts, LoadFault>
    ensures { MatchResult result (λ p. reading bytes.now ≡ Ok
        (of_parts p.head p.rows.items p.programs.items p.choices.items))
        (λ e. (e ≡ Memory) ⊎ (reading bytes.now ≡ Err e)) }
{
    let size = bytes.len();
    let (head, left) = head_fields(size, bytes)?;
    let (rows, left) = rows(alloc, head, size, left)?;
    let (programs, left) = programs(alloc, head.version, size, left)?;
    let (choices, left) = choices(alloc, programs.len(), size, left)?;
    if !left.is_empty() {
        return Err(LoadFault::Trailing(size.saturating_sub(left.len())));
    }
    Ok(Parts {
        head,
        rows,
        programs,
        choices,
    })
}

/// The scenario whose image these bytes are, with nothing behind it, or the first fault in the order of reading. A
/// list's number is tested before its memory is taken, so no input makes it take more than the largest scenario has.
pub fn load(alloc: Global, bytes: &[u8]) -> Result<Scenario, LoadFault>
    // What is loaded has this image, and the bytes have no fault.
    ensures found { IfOk result (λ s. IsImage bytes.now s × (image_fault bytes.now ≡ None)) }
    // What has this image is loaded, unless there is no memory.
    ensures only { (s : isa.Scenario) → IsImage bytes.now s → GivesScenario result s }
    // The fault is the first one of the bytes.
    ensures fault { IfErr result (λ e. (e ≡ Memory) ⊎ (image_fault bytes.now ≡ Some e)) }
{
    let Parts {
        head,
        rows,
        programs,
        choices,
    } = read(alloc, bytes)?;
    let ImageHead {
        version,
        cap,
        pages,
        rule,
    } = head;
    Ok(Scenario::of_parts(version, cap, pages, rule, rows, programs, choices))
}

/// The image of a scenario is read as it: no two scenarios have the same image. It does nothing when called.
pub fn image_is_read()
    ensures { (s : isa.Scenario) → isa.IsScenario s → reading (image_of s) ≡ Ok s }
{}
