//! The fault of a log, which is kept once it is found.
ghost use Rattle.std.specs.Prelude.{◌≡◌, Some};
ghost use Rattle.vs_entries.specs.Walks.{Tells};

use crate::took::LogRefusal;
use std::alloc::Global;
use vs_base::Why;

/// What is wrong with the event at a place of a log.
#[derive(Debug, Drop)]
pub struct Fault {
    pub offset: u64,
    pub why: Why,
}

/// Tells a fault. Where memory runs out, it says so for good.
pub fn tell(alloc: Global, fault: &Fault, spent: &mut bool) -> LogRefusal
    ensures { Tells fault.now spent.old result spent.new }
{
    match fault.why.copy(alloc) {
        Ok(why) => LogRefusal::BadLog {
            offset: fault.offset,
            why,
        },
        Err(_) => {
            *spent = true;
            LogRefusal::Memory
        }
    }
}

/// Keeps the fault at a place, and tells it.
#[inline(never)]
pub fn keep(
    alloc: Global,
    offset: u64,
    why: Why,
    kept: &mut Option<Fault>,
    spent: &mut bool,
) -> LogRefusal
    ensures kept { kept.new ≡ Some (record { offset = offset; why = why }) }
    ensures tells { Tells (record { offset = offset; why = why }) spent.old result spent.new }
{
    let fault = Fault { offset, why };
    let refusal = tell(alloc, &fault, spent);
    *kept = Some(fault);
    refusal
}
