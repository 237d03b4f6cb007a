//! The bytes with which a log begins.
ghost use Rattle.std.specs.Prelude.{◌≡◌};
ghost use Rattle.vs_log.specs.Meaning.{has_magic};
ghost use Rattle.vs_entries.specs.Windows.{TellsMagic};

use crate::window::Window;

pub const MAGIC: [u8; 4] = [0xfe, 0x62, 0x69, 0x6e];

/// What the first bytes of a log are.
#[derive(Debug, Clone, Copy)]
pub enum Magic {
    /// All four are right, or were passed and let go.
    Whole,
    /// Those that are there are right, and there are fewer than four.
    Part,
    /// One of them is wrong.
    Wrong,
}

/// What the first bytes of the log are, as far as it is still to be told.
pub fn read_magic(window: &Window) -> Magic
    ensures { TellsMagic window.now result }
{
    if window.from() != 0 {
        return Magic::Whole;
    }
    let front = window.rest(0);
    if !begins_as_log(front) {
        return Magic::Wrong;
    }
    if front.len() < MAGIC.len() {
        return Magic::Part;
    }
    Magic::Whole
}

/// Whether each of the first four bytes that is there is that of the magic.
fn begins_as_log(bytes: &[u8]) -> bool
    ensures { result ≡ has_magic bytes.now }
{
    if bytes.len() < 4 {
        return bytes == &MAGIC[..bytes.len()];
    }
    bytes[..4] == MAGIC[..]
}
