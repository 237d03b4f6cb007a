ghost use Rattle.std.specs.Prelude.{None};
ghost use Rattle.vs_proto.specs.Answers.{ReadsMessage, ReadsInto};
ghost use Rattle.vs_proto.specs.Shapes.{ended, read, read_into};

use crate::message::Message;
use crate::refusal::{ProtoRefusal, at_no_field};
use std::alloc::Global;
use vs_wire::{Fields, WireRefusal};

/// Reads the bytes of a message on top of what is there already.
pub(crate) fn read_on<M: Message>(
    alloc: Global,
    message: &mut M,
    bytes: &[u8],
) -> Result<(), ProtoRefusal>
    ensures { ReadsInto result message.new (read_into M.shape message.old bytes.now) }
{
    let mut fields = Fields::new(bytes);
    loop {
        match fields.next_field() {
            None => return end(message),
            Some(next) => match next {
                Ok(field) => match message.take(alloc, field.number, field.value) {
                    Ok(()) => {}
                    Err(stop) => return Err(stop.refusal_at(field.at)),
                },
                Err(why) => return Err(at_no_field(why)),
            },
        }
    }
}

/// Tests the rule over the whole message at its end.
fn end<M: Message>(message: &M) -> Result<(), ProtoRefusal>
    ensures { ReadsInto result message.now (ended M.shape None message.now) }
{
    if message.is_whole() {
        return Ok(());
    }
    let why = WireRefusal::Cut { at: 0 };
    Err(ProtoRefusal::BadMessage { at: 0, why })
}

/// Reads a message.
pub(crate) fn read_message<M: Message>(alloc: Global, bytes: &[u8]) -> Result<M, ProtoRefusal>
    ensures { ReadsMessage result (read M.shape bytes.now) }
{
    let mut message = M::empty(alloc);
    read_on(alloc, &mut message, bytes)?;
    Ok(message)
}
