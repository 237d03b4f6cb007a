//! The event at the front of what is left of a log.
ghost use Rattle.std.specs.Prelude.{◌≡◌, ◌≤◌, MatchOption, false};
ghost use Rattle.vs_log.specs.Events.{is_held, last_place};
ghost use Rattle.vs_entries.specs.Reading.{IsFrontEvent};

use vs_binlog::{Step, next_event};

/// The place of a log by which each of its events ends.
pub const LAST_PLACE: u64 = 4_611_686_018_427_387_904;

/// The event at the front of the rest, if all of it is there and it ends by the last place.
#[tactic(auto, unfolding(vs_log::specs::Events::is_held))]
pub fn front_event(rest: &[u8], at: usize) -> Option<&[u8]>
    requires { at ≤ last_place }
    ensures { MatchOption result (is_held at rest.now ≡ false) (λ e. IsFrontEvent at rest.now e.now) }
{
    let Step::Event(head) = next_event(rest) else {
        return None;
    };
    let length = head.length as usize;
    if length > rest.len() {
        return None;
    }
    if at as u64 + length as u64 > LAST_PLACE {
        return None;
    }
    Some(&rest[..length])
}
