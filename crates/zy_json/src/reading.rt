//! Reads a line of JSON.
ghost use Rattle.std.specs.Prelude.{◌≡◌, ◌≤◌, length, IfOk};
ghost use Rattle.std.specs.List.{list_any};
ghost use Rattle.std.specs.Option.{option_copied};
ghost use Rattle.json.specs.Value.{members_view, value_view};
ghost use Rattle.zy_json.specs.Fields as fields;
ghost use Rattle.zy_json.specs.Meaning as meaning;
ghost use Rattle.zy_json.specs.Meaning.{FindsMember, Reads, step_found, text_found, texts_found, values_found};
ghost use Rattle.zy_json.specs.Objects as spec;

use crate::faults::JsonFault;
use crate::field::Member;
use crate::step::JsonStep;
use json::{Error, Reader, Scratch, Value};
use std::alloc::{AllocError, Global};
use zy_isa::Actor;
use zy_text::numbers::number_of;

/// The first member of a name, and those behind it.
fn find<'v, 'a>(
    key: &str,
    members: &'v [(&'a str, Value<'a>)],
) -> Option<(&'v Value<'a>, &'v [(&'a str, Value<'a>)])>
    ensures { FindsMember key.now (members_view members.entry.now) result }
{
    let mut rest = members;
    while let [member, below @ ..] = rest {
        if member.0 == key {
            return Some((&member.1, below));
        }
        rest = below;
    }
    None
}

/// The value of a field, if it is there.
fn found<'v, 'a>(
    field: Member,
    members: &'v [(&'a str, Value<'a>)],
) -> Result<Option<&'v Value<'a>>, JsonFault>
    ensures { values_found result ≡ spec.found field (members_view members.entry.now) }
{
    let Some((value, behind)) = find(field.key(), members) else {
        return Ok(None);
    };
    if find(field.key(), behind).is_some() {
        return Err(JsonFault::Twice(field));
    }
    Ok(Some(value))
}

/// The text of a field, if it is there.
fn text_of<'a>(
    field: Member,
    members: &[(&'a str, Value<'a>)],
) -> Result<Option<&'a str>, JsonFault>
    ensures { texts_found result ≡ spec.text_of field (members_view members.now) }
{
    let Some(value) = found(field, members)? else {
        return Ok(None);
    };
    match value.as_str() {
        Some(text) => Ok(Some(text)),
        None => Err(JsonFault::NotString(field)),
    }
}

/// Whether a sign ends a part in a line of a log.
fn ends_part(sign: u8) -> bool
    ensures { result ≡ fields.ends_part sign }
{
    sign == b'\n' || sign == b'!' || sign == b';' || sign == b'>'
}

/// Whether a text has such a sign.
fn has_sign(text: &str) -> bool
    ensures { result ≡ list_any fields.ends_part text.now }
{
    text.as_bytes().iter().any(|sign| ends_part(*sign))
}

/// The text of a field that is a part of a line of a log, if it is there.
fn part_of<'a>(
    field: Member,
    members: &[(&'a str, Value<'a>)],
) -> Result<Option<&'a str>, JsonFault>
    ensures { texts_found result ≡ spec.part_of field (members_view members.now) }
{
    match text_of(field, members)? {
        Some(text) => {
            if has_sign(text) {
                Err(JsonFault::Sign(field))
            } else {
                Ok(Some(text))
            }
        }
        None => Ok(None),
    }
}

/// The number that a value is.
fn number_in(value: &Value<'_>) -> Option<u32>
    ensures { result ≡ spec.number_in (value_view value.now) }
{
    let number = number_of(value.as_number()?.as_bytes())?;
    if number <= u64::from(u32::MAX) {
        Some(number as u32)
    } else {
        None
    }
}

/// The number under `value`, if it is there.
fn number_told<'a>(members: &[(&'a str, Value<'a>)]) -> Result<Option<u32>, JsonFault>
    ensures { result ≡ spec.number_told (members_view members.now) }
{
    let Some(value) = found(Member::Value, members)? else {
        return Ok(None);
    };
    match number_in(value) {
        Some(number) => Ok(Some(number)),
        None => Err(JsonFault::NotNumber),
    }
}

/// Whether the outcome is `did`.
fn is_did(came: Option<&str>) -> bool
    ensures { result ≡ spec.is_did (option_copied came.entry) }
{
    match came {
        Some(came) => came == "did",
        None => false,
    }
}

/// The value that a step shows, if its outcome is `did`.
fn value_beside<'a>(
    came: Option<&str>,
    members: &[(&'a str, Value<'a>)],
) -> Result<Option<u32>, JsonFault>
    ensures { result ≡ spec.value_beside (option_copied came.entry) (members_view members.now) }
{
    match number_told(members)? {
        Some(number) => {
            if is_did(came) {
                Ok(Some(number))
            } else {
                Err(JsonFault::NotDid)
            }
        }
        None => Ok(None),
    }
}

/// The actor of this name.
fn actor_of(name: &str) -> Result<Actor, JsonFault>
    ensures { result ≡ spec.actor_of name.now }
{
    match name {
        "C" => Ok(Actor::C),
        "A" => Ok(Actor::A),
        "B" => Ok(Actor::B),
        _ => Err(JsonFault::NoActor),
    }
}

/// Who made the step.
fn actor_in<'a>(members: &[(&'a str, Value<'a>)]) -> Result<Actor, JsonFault>
    ensures { result ≡ spec.actor_in (members_view members.now) }
{
    match text_of(Member::Actor, members)? {
        Some(name) => actor_of(name),
        None => Err(JsonFault::Missing(Member::Actor)),
    }
}

/// What the actor did.
fn action_in<'a>(members: &[(&'a str, Value<'a>)]) -> Result<&'a str, JsonFault>
    ensures { text_found result ≡ spec.action_in (members_view members.now) }
{
    match part_of(Member::Action, members)? {
        Some(text) => Ok(text),
        None => Err(JsonFault::Missing(Member::Action)),
    }
}

/// The step that members tell.
fn step_in<'a>(members: &[(&'a str, Value<'a>)]) -> Result<JsonStep<'a>, JsonFault>
    ensures { step_found result ≡ spec.step_in (members_view members.now) }
{
    let actor = actor_in(members)?;
    let action = action_in(members)?;
    let came = part_of(Member::Came, members)?;
    let value = value_beside(came, members)?;
    let sent = part_of(Member::Sent, members)?;
    let rows = part_of(Member::Rows, members)?;
    Ok(JsonStep {
        actor,
        action,
        came,
        value,
        sent,
        rows,
    })
}

/// The step that a value tells.
fn step_told<'a>(value: &Value<'a>) -> Result<JsonStep<'a>, JsonFault>
    ensures { step_found result ≡ meaning.step_told (value_view value.now) }
{
    match value {
        Value::Object(members) => step_in(members),
        _ => Err(JsonFault::NotObject),
    }
}

/// How many bytes a reader passes before it stops at a fault, or at the end.
fn passed(alloc: Global, text: &str) -> Result<usize, AllocError>
    ensures { IfOk result (λ count. count ≤ length text.now) }
{
    let mut scratch = Scratch::new(alloc);
    let mut reader = Reader::new(text, &mut scratch)?;
    while reader.next().is_some() {}
    Ok(text.len().min(reader.offset()))
}

/// About where a line is no JSON.
fn fault_place(alloc: Global, line: &[u8]) -> Result<usize, AllocError>
    ensures { IfOk result (λ at. at ≤ length line.now) }
{
    match std::str::from_utf8(line) {
        Ok(text) => passed(alloc, text),
        Err(fault) => Ok(line.len().min(fault.valid_up_to())),
    }
}

/// Reads a line of a log in JSON: one object with the fields `actor` and `do`, and with `came`, `value`, `sent` and `rows` or without.
/// Their order is free, and so is white space between the signs of JSON. A string may have escapes, and so may the name of a field.
///
/// A `value` is allowed only beside a `came` that is `did`. It is a number from 0 to 4294967295 written in digits alone: `7.0`, `7e0`
/// and `-0` are rejected.
///
/// Other fields are passed over, whatever their values are and however often they come, since a store logs more, as a time. So a
/// name that is misspelled is passed over, too. One of the six fields is rejected if it comes twice, and so is one that is `null`:
/// where there is nothing to tell, it is left out.
///
/// The texts of the step lie in the line or, where they have escapes, in `scratch`, which serves one line after the other.
pub fn read<'a>(
    alloc: Global,
    scratch: &'a mut Scratch,
    line: &'a [u8],
) -> Result<JsonStep<'a>, JsonFault>
    ensures { Reads line.entry.now result }
{
    match Value::from_slice(alloc, line, scratch) {
        Ok(value) => step_told(&value),
        Err(Error::OutOfMemory) => Err(JsonFault::Memory),
        Err(_) => match fault_place(alloc, line) {
            Ok(at) => Err(JsonFault::NotJson(at)),
            Err(_) => Err(JsonFault::Memory),
        },
    }
}
