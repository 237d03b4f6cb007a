//! The outside of a gateway: the sources, sinks, feeds, tablets and clocks that it works on, as
//! traits with their meanings; and each of them in memory.
#![tactic(auto)]

mod built_patterns;
mod clock;
mod feed;
mod laws;
mod mem_clock;
mod mem_feed;
mod mem_shard;
mod mem_shards;
mod mem_sink;
mod mem_source;
mod mem_tablets;
mod names;
mod openings;
mod scripted;
mod sink;
mod source;
mod tablets;
#[cfg(test)]
mod tests;
mod writing;

pub use built_patterns::{BuiltPatterns, PatternEnd};
pub use clock::Clock;
pub use feed::{Feed, Got};
pub use laws::law_feeds;
pub use mem_clock::MemClock;
pub use mem_feed::{FeedAnswer, MemFeed};
pub use mem_sink::{MemSink, SinkAnswer};
pub use mem_source::MemSource;
pub use mem_tablets::MemTablets;
pub use names::{names_keyspace, names_shard};
pub use openings::{Opening, Openings};
pub use sink::Sink;
pub use source::{Failed, Source};
pub use tablets::{AskEnd, Opened, Tablets};
pub use writing::write_all;
