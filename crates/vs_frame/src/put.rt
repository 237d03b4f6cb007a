ghost use Rattle.std.specs.Prelude.{◌≡◌, ◌++◌, OnErr, OnOk, length, take};
ghost use Rattle.vs_base.specs.Frames.{framed};
ghost use Rattle.vs_frame.specs.Frames.{IsWithinLimit};

use crate::OutOfMemory;
use std::alloc::Global;

/// Appends the frame of a message of at most 16,777,216 bytes.
pub fn put_frame(_alloc: Global, out: &mut Vec<u8>, message: &[u8]) -> Result<(), OutOfMemory>
    requires { IsWithinLimit message.now }
    ensures ok { OnOk result (out.new.items ≡ out.old.items ++ framed message.now) }
    ensures err { OnErr result (out.new.items ≡ out.old.items) }
{
    let start = out.len();
    match push_frame(out, message) {
        Ok(()) => Ok(()),
        Err(e) => {
            out.truncate(start);
            Err(e)
        }
    }
}

fn push_frame(out: &mut Vec<u8>, message: &[u8]) -> Result<(), OutOfMemory>
    requires { IsWithinLimit message.now }
    ensures ok { OnOk result (out.new.items ≡ out.old.items ++ framed message.now) }
    ensures err { OnErr result (take (length out.old.items) out.new.items ≡ out.old.items) }
{
    out.extend_from_slice(&(message.len() as u32).to_be_bytes())?;
    out.extend_from_slice(message)?;
    Ok(())
}
