//! The fields before the rows.
ghost use Rattle.zy_image.specs.Reading.{Gives};
ghost use Rattle.zy_image.specs.Reading as spec;
ghost use Rattle.std.specs.Prelude.{◌≡◌};

use crate::faults::LoadFault;
use crate::fields::{byte, half, magic_field};
use zy_isa::{MAX_CAP, MAX_PAGES, MIN_CAP, Rule, Version};

/// What the fields before the rows say.
#[derive(Clone, Copy)]
pub struct ImageHead {
    /// The version.
    pub version: Version,
    /// How many rows a page has room for, 2 to 16.
    pub cap: u8,
    /// How many pages there may be, 1 to 512.
    pub pages: u16,
    /// What is done with a locked page that is asked for.
    pub rule: Rule,
}

/// How many rows a page has room for.
fn cap_field(size: usize, bytes: &[u8]) -> Result<(u8, &[u8]), LoadFault>
    ensures { Gives result (spec.cap_field size bytes.entry.now) }
{
    let (cap, left) = byte(size, bytes)?;
    if cap < MIN_CAP || cap > MAX_CAP {
        return Err(LoadFault::Cap);
    }
    Ok((cap, left))
}

/// How many pages there may be.
fn pages_field(size: usize, bytes: &[u8]) -> Result<(u16, &[u8]), LoadFault>
    ensures { Gives result (spec.pages_field size bytes.entry.now) }
{
    let (pages, left) = half(size, bytes)?;
    if pages < 1 || pages > MAX_PAGES {
        return Err(LoadFault::Pages);
    }
    Ok((pages, left))
}

/// The rule that a byte stands for.
fn rule_at(byte: u8) -> Option<Rule>
    ensures { result ≡ spec.rule_at byte }
{
    match byte {
        0 => Some(Rule::Held),
        1 => Some(Rule::Loose),
        _ => None,
    }
}

/// The rule for locked pages.
fn rule_field(size: usize, bytes: &[u8]) -> Result<(Rule, &[u8]), LoadFault>
    ensures { Gives result (spec.rule_field size bytes.entry.now) }
{
    let (rule, left) = byte(size, bytes)?;
    match rule_at(rule) {
        Some(rule) => Ok((rule, left)),
        None => Err(LoadFault::Rule),
    }
}

/// The fields before the rows.
pub fn head_fields(size: usize, bytes: &[u8]) -> Result<(ImageHead, &[u8]), LoadFault>
    ensures { Gives result (spec.head_fields size bytes.entry.now) }
{
    let (version, left) = magic_field(size, bytes)?;
    let (cap, left) = cap_field(size, left)?;
    let (pages, left) = pages_field(size, left)?;
    let (rule, left) = rule_field(size, left)?;
    let head = ImageHead {
        version,
        cap,
        pages,
        rule,
    };
    Ok((head, left))
}
