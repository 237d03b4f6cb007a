ghost use Rattle.std.specs.Prelude.{◌≡◌, ◌++◌, OnErr, OnOk, true};
ghost use Rattle.vs_proto.specs.Answers.{ReadsMessage};
ghost use Rattle.vs_proto.specs.Shapes.{read, spelling};
ghost use Rattle.vs_proto.specs.Tables.{event, journal, request, response, vgtid};

use crate::backward::Backward;
use crate::event::{VEvent, VStreamResponse};
use crate::journal::Journal;
use crate::message::Message;
use crate::nested::put_message;
use crate::reading::read_message;
use crate::request::VStreamRequest;
use crate::vgtid::VGtid;
use crate::{OutOfMemory, ProtoRefusal};
use std::alloc::Global;

/// Reads the request of a client. Unknown fields are passed over.
pub fn read_request(alloc: Global, bytes: &[u8]) -> Result<VStreamRequest, ProtoRefusal>
    ensures { ReadsMessage result (read (request true) bytes.now) }
{
    read_message(alloc, bytes)
}

/// Reads the events of a frame. Unknown fields are passed over.
pub fn read_response(alloc: Global, bytes: &[u8]) -> Result<VStreamResponse, ProtoRefusal>
    ensures { ReadsMessage result (read (response true) bytes.now) }
{
    read_message(alloc, bytes)
}

/// Reads one event. Unknown fields are passed over.
pub fn read_event(alloc: Global, bytes: &[u8]) -> Result<VEvent, ProtoRefusal>
    ensures { ReadsMessage result (read (event true) bytes.now) }
{
    read_message(alloc, bytes)
}

/// Reads a position vector. Unknown fields are passed over.
pub fn read_vgtid(alloc: Global, bytes: &[u8]) -> Result<VGtid, ProtoRefusal>
    ensures { ReadsMessage result (read (vgtid true) bytes.now) }
{
    read_message(alloc, bytes)
}

/// Reads a reshard journal. Unknown fields are passed over.
pub fn read_journal(alloc: Global, bytes: &[u8]) -> Result<Journal, ProtoRefusal>
    ensures { ReadsMessage result (read (journal true) bytes.now) }
{
    read_message(alloc, bytes)
}

/// Appends the spelling of a message.
fn write_message<M: Message>(
    alloc: Global,
    out: &mut Vec<u8>,
    message: &M,
) -> Result<(), OutOfMemory>
    ensures ok { OnOk result (out.new.items ≡ out.old.items ++ spelling M.shape message.now) }
    ensures err { OnErr result (out.new.items ≡ out.old.items) }
{
    // Room of its own, so that want of memory leaves `out` as it was.
    let mut spelled = Backward::new(alloc);
    put_message(&mut spelled, message)?;
    out.extend_from_slice(spelled.as_slice())
}

/// Appends the request of a client.
pub fn write_request(
    alloc: Global,
    out: &mut Vec<u8>,
    m: &VStreamRequest,
) -> Result<(), OutOfMemory>
    ensures ok { OnOk result (out.new.items ≡ out.old.items ++ spelling (request true) m.now) }
    ensures err { OnErr result (out.new.items ≡ out.old.items) }
{
    write_message(alloc, out, m)
}

/// Appends the events of a frame.
pub fn write_response(
    alloc: Global,
    out: &mut Vec<u8>,
    m: &VStreamResponse,
) -> Result<(), OutOfMemory>
    ensures ok { OnOk result (out.new.items ≡ out.old.items ++ spelling (response true) m.now) }
    ensures err { OnErr result (out.new.items ≡ out.old.items) }
{
    write_message(alloc, out, m)
}

/// Appends one event.
pub fn write_event(alloc: Global, out: &mut Vec<u8>, m: &VEvent) -> Result<(), OutOfMemory>
    ensures ok { OnOk result (out.new.items ≡ out.old.items ++ spelling (event true) m.now) }
    ensures err { OnErr result (out.new.items ≡ out.old.items) }
{
    write_message(alloc, out, m)
}

/// Appends a position vector.
pub fn write_vgtid(alloc: Global, out: &mut Vec<u8>, m: &VGtid) -> Result<(), OutOfMemory>
    ensures ok { OnOk result (out.new.items ≡ out.old.items ++ spelling (vgtid true) m.now) }
    ensures err { OnErr result (out.new.items ≡ out.old.items) }
{
    write_message(alloc, out, m)
}

/// Appends a reshard journal.
pub fn write_journal(alloc: Global, out: &mut Vec<u8>, m: &Journal) -> Result<(), OutOfMemory>
    ensures ok { OnOk result (out.new.items ≡ out.old.items ++ spelling (journal true) m.now) }
    ensures err { OnErr result (out.new.items ≡ out.old.items) }
{
    write_message(alloc, out, m)
}
