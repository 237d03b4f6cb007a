ghost use Rattle.std.specs.Prelude.{◌≡◌, ◌≤◌, length};
ghost use Rattle.vs_binlog.specs.Heads.{StandsInFront, head_of};

use byteorder::{ByteOrder, LittleEndian};

/// The bytes of a head.
pub const HEAD: usize = 19;

/// What the head of an event says. The server's number and the place of the next event aren't kept.
#[derive(Debug, Clone, Copy, PartialEq, Eq)]
pub struct Head {
    /// when the event was logged, in seconds since 1970
    pub time: u32,
    /// the number of the event's type
    pub kind: u8,
    /// the bytes of the event, its head included
    pub length: u32,
    pub flags: u16,
}

/// What stands at the front of the rest of a log.
#[derive(Debug, Clone, Copy, PartialEq, Eq)]
pub enum Step {
    /// less than a head
    Short,
    /// a head whose length is below that of a head
    Bad { length: u32 },
    Event(Head),
}

/// The event at the front of the bytes, by its head. Not all of its bytes need be there.
pub fn next_event(bytes: &[u8]) -> Step
    ensures { StandsInFront bytes.now result }
{
    if bytes.len() < HEAD {
        return Step::Short;
    }
    let head = read_head(bytes);
    if head.length < 19 {
        return Step::Bad {
            length: head.length,
        };
    }
    Step::Event(head)
}

/// The head of an event, whatever its length says.
#[tactic(auto, unfolding(crate::specs::Heads::time_of, crate::specs::Heads::kind_of, crate::specs::Heads::length_of, crate::specs::Heads::flags_of))]
pub fn read_head(bytes: &[u8]) -> Head
    requires { 19 ≤ length bytes.now }
    ensures { result ≡ head_of bytes.now }
{
    Head {
        time: LittleEndian::read_u32(bytes),
        kind: bytes[4],
        length: LittleEndian::read_u32(&bytes[9..]),
        flags: LittleEndian::read_u16(&bytes[17..]),
    }
}
