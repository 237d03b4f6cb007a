ghost use Rattle.std.specs.Prelude.{◌≡◌, ◌<◌, ◌^◌, ◌++◌, OnOk};
ghost use Rattle.vs_wire.specs.Fields.{field_bytes, sized};
ghost use Rattle.vs_wire.specs.Seen.{seen_value};
ghost use Rattle.vs_proto.specs.Answers.{TakesField};
ghost use Rattle.vs_proto.specs.Shapes.{
  all_set,
  if_set,
  spelling,
  take_more as more_taken,
  take_one as one_taken,
  values_bytes,
};

use crate::OutOfMemory;
use crate::backward::Backward;
use crate::head::put_head;
use crate::message::Message;
use crate::reading::{read_message, read_on};
use crate::refusal::Stop;
use std::alloc::Global;
use vs_base::List;
use vs_wire::FieldValue;

/// Takes a message, on top of one that came before.
pub(crate) fn take_one<M: Message>(
    alloc: Global,
    slot: &mut Option<M>,
    value: FieldValue<'_>,
) -> Result<(), Stop>
    ensures { TakesField result slot.new (one_taken M.shape slot.old (seen_value value.entry)) }
{
    if let FieldValue::Bytes(bytes) = value {
        let mut message = match slot.take() {
            Some(message) => message,
            None => M::empty(alloc),
        };
        match read_on(alloc, &mut message, bytes) {
            Ok(()) => {}
            Err(refusal) => return Err(refusal.stop()),
        }
        *slot = Some(message);
    }
    Ok(())
}

/// Takes one more message of a list.
pub(crate) fn take_more<M: Message>(
    alloc: Global,
    slot: &mut List<M>,
    value: FieldValue<'_>,
) -> Result<(), Stop>
    ensures { TakesField result slot.new (more_taken M.shape slot.old (seen_value value.entry)) }
{
    if let FieldValue::Bytes(bytes) = value {
        match read_message(alloc, bytes) {
            Ok(message) => slot.push(message)?,
            Err(refusal) => return Err(refusal.stop()),
        }
    }
    Ok(())
}

/// Writes the spelling of a message.
pub(crate) fn put_message<M: Message>(out: &mut Backward, message: &M) -> Result<(), OutOfMemory>
    ensures { OnOk result (out.new ≡ spelling M.shape message.now ++ out.old) }
{
    message.put(out)
}

/// Writes a field whose value is a message.
fn put_sized<M: Message>(out: &mut Backward, field: u32, message: &M) -> Result<(), OutOfMemory>
    requires { field < 2 ^ 29 }
    ensures { OnOk result (out.new ≡ field_bytes field (sized (spelling M.shape message.now)) ++ out.old) }
{
    let before = out.len();
    put_message(out, message)?;
    put_head(out, field, before)
}

/// Writes a field of a message, if there is one.
pub(crate) fn put_one<M: Message>(
    out: &mut Backward,
    field: u32,
    slot: &Option<M>,
) -> Result<(), OutOfMemory>
    requires { field < 2 ^ 29 }
    ensures { OnOk result (out.new ≡ values_bytes field (if_set M.shape slot.now) ++ out.old) }
{
    match slot {
        Some(message) => put_sized(out, field, message),
        None => Ok(()),
    }
}

/// Writes a field for each message.
pub(crate) fn put_more<M: Message>(
    out: &mut Backward,
    field: u32,
    slot: &List<M>,
) -> Result<(), OutOfMemory>
    requires { field < 2 ^ 29 }
    ensures { OnOk result (out.new ≡ values_bytes field (all_set M.shape slot.now) ++ out.old) }
{
    let messages = slot.as_slice();
    let mut left = messages.len();
    while left > 0 {
        left -= 1;
        put_sized(out, field, &messages[left])?;
    }
    Ok(())
}
