use crate::out::{Out, Stop};
use vs_base::{OutOfMemory, Why};

/// Why an event was not taken: what is wrong with it, or that memory ran out.
#[derive(Debug, Drop)]
pub enum Refusal {
    Wrong(Why),
    Memory,
}

impl From<OutOfMemory> for Refusal {
    ghost use Rattle.std.specs.Prelude.{◌≡◌};
    ghost use Rattle.vs_entries.specs.declared.refusal.Refusal.TheVariants.{Memory};

    ghost from_gives = { λ _ refusal. refusal ≡ Memory };

    fn from(_error: OutOfMemory) -> Refusal {
        Refusal::Memory
    }
}

impl Refusal {
    ghost use Rattle.vs_entries.specs.Reading.{StopsBy};

    /// Leaves what is wrong in the `Out`.
    pub fn leave_in(self, out: &mut Out) -> Stop
        ensures { StopsBy self out.new result }
    {
        match self {
            Refusal::Wrong(why) => {
                out.why = Some(why);
                Stop::Wrong
            }
            Refusal::Memory => Stop::Memory,
        }
    }
}
