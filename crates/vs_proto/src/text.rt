ghost use Rattle.std.specs.Prelude.{◌≡◌, ◌<◌, ◌^◌, ◌++◌, OnOk, map, true};
ghost use Rattle.vs_wire.specs.Fields.{sized};
ghost use Rattle.vs_wire.specs.Seen.{seen_value};
ghost use Rattle.vs_proto.specs.Answers.{IsString, TakesField};
ghost use Rattle.vs_proto.specs.Kinds.{if_any, take_bytes, take_text, take_texts};
ghost use Rattle.vs_proto.specs.Shapes.{values_bytes};

use crate::OutOfMemory;
use crate::backward::Backward;
use crate::head::put_bytes;
use crate::refusal::{Fault, Stop};
use std::alloc::Global;
use vs_base::{List, Text};
use vs_wire::FieldValue;

/// Takes a string. Other wire types are passed over, here and below.
pub(crate) fn take_string(alloc: Global, slot: &mut Text, value: FieldValue<'_>) -> Result<(), Stop>
    ensures { TakesField result slot.new (take_text true slot.old (seen_value value.entry)) }
{
    if let FieldValue::Bytes(bytes) = value {
        *slot = string_of(alloc, bytes)?;
    }
    Ok(())
}

/// Takes one more string of a list.
pub(crate) fn take_strings(
    alloc: Global,
    slot: &mut List<Text>,
    value: FieldValue<'_>,
) -> Result<(), Stop>
    ensures { TakesField result slot.new (take_texts true slot.old (seen_value value.entry)) }
{
    if let FieldValue::Bytes(bytes) = value {
        slot.push(string_of(alloc, bytes)?)?;
    }
    Ok(())
}

/// The string of these bytes.
fn string_of(alloc: Global, bytes: &[u8]) -> Result<Text, Stop>
    ensures { IsString result bytes.now }
{
    match std::str::from_utf8(bytes) {
        Ok(_) => Ok(Text::from_bytes(alloc, bytes)?),
        Err(_) => Err(Stop::Bad(Fault::NotUtf8)),
    }
}

/// Takes bytes.
pub(crate) fn take_blob(alloc: Global, slot: &mut Text, value: FieldValue<'_>) -> Result<(), Stop>
    ensures { TakesField result slot.new (take_bytes slot.old (seen_value value.entry)) }
{
    if let FieldValue::Bytes(bytes) = value {
        *slot = Text::from_bytes(alloc, bytes)?;
    }
    Ok(())
}

/// Writes a field of a string or of bytes, unless it is empty.
pub(crate) fn put_text(out: &mut Backward, field: u32, text: &Text) -> Result<(), OutOfMemory>
    requires { field < 2 ^ 29 }
    ensures { OnOk result (out.new ≡ values_bytes field (if_any text.now) ++ out.old) }
{
    let bytes = text.as_bytes();
    if bytes.is_empty() {
        return Ok(());
    }
    put_bytes(out, field, bytes)
}

/// Writes a field for each string, also for an empty one.
pub(crate) fn put_texts(
    out: &mut Backward,
    field: u32,
    list: &List<Text>,
) -> Result<(), OutOfMemory>
    requires { field < 2 ^ 29 }
    ensures { OnOk result (out.new ≡ values_bytes field (map sized list.now) ++ out.old) }
{
    let texts = list.as_slice();
    let mut left = texts.len();
    while left > 0 {
        left -= 1;
        put_bytes(out, field, texts[left].as_bytes())?;
    }
    Ok(())
}
