//! The outside of the program: the system's clock, its streams, and folders of logs. Each adapter
//! keeps its trait and tells no content.
#![tactic(auto)]

mod again;
mod clock;
mod feed;
mod folder;
mod listing;
mod path;
mod terminal;

pub use clock::HostClock;
pub use feed::FileFeed;
pub use folder::FolderTablets;
pub use terminal::{StdSink, StdSource};
