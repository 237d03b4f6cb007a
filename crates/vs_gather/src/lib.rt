//! Reshard journals that wait until all their participants have come to them.
#![tactic(auto)]

mod gather;
mod kept;
mod refusal;

pub use gather::Gather;
pub use kept::{Arrival, Kept};
pub use refusal::GatherRefusal;
pub use vs_base::OutOfMemory;
