//! What the calls that take an event answer, and where they leave what is too wide for an answer.
use vs_base::{OutOfMemory, Why};
use vs_journal::Entry;

/// What an event does that was taken.
#[derive(Debug, Clone, Copy)]
pub enum Turn {
    /// The log goes on.
    Goes,
    /// An entry ended: it is in the `Out`.
    Ends,
}

/// Why no event was taken.
#[derive(Debug, Clone, Copy)]
pub enum Stop {
    /// What is wrong with it is in the `Out`.
    Wrong,
    Memory,
}

impl From<OutOfMemory> for Stop {
    ghost use Rattle.std.specs.Prelude.{◌≡◌};
    ghost use Rattle.vs_entries.specs.declared.out.Stop.TheVariants.{Memory};

    ghost from_gives = { λ _ stop. stop ≡ Memory };

    fn from(_error: OutOfMemory) -> Stop {
        Stop::Memory
    }
}

/// Holds an entry, or what is wrong with an event, where it was made. So neither is moved from answer
/// to answer.
#[derive(Debug, Drop)]
pub struct Out {
    pub entry: Option<Entry>,
    pub why: Option<Why>,
}

impl Out {
    ghost use Rattle.std.specs.Prelude.{◌≡◌, IsSome, None, Some};

    pub fn new() -> Out
        ensures { result ≡ record { entry = None; why = None } }
    {
        Out {
            entry: None,
            why: None,
        }
    }

    /// The entry that ended.
    #[inline(always)]
    pub fn into_entry(self) -> Entry
        requires { IsSome self.entry }
        ensures { self.entry ≡ Some result }
    {
        let Out { entry, .. } = self;
        match entry {
            Some(entry) => entry,
            None => unreachable!(),
        }
    }
}
