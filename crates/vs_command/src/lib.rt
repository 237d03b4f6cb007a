//! The work of the program `vstreamd`: the change stream of a shard for a request on the input, and a
//! recorded one as lines.
#![tactic(auto)]

pub mod connection;
mod due;
mod fetch;
mod fetched;
mod line;
mod options;
mod plain;
mod request;
pub mod run;
mod sending;
mod start;
mod status;
mod streaming;

pub use options::Options;
pub use plain::run_plain;
pub use status::{RequestFault, Status};
