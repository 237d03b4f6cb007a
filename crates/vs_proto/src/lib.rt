//! The messages of a change stream, in the public encoding of Protocol Buffers: read from any
//! bytes, and written in one canonical spelling.
#![tactic(auto)]

mod backward;
mod calls;
mod cells;
mod column;
pub mod column_type;
mod event;
pub mod event_kind;
mod head;
mod journal;
mod laws;
mod message;
mod nested;
mod number;
mod packed;
mod reading;
mod refusal;
mod request;
mod row;
#[cfg(test)]
mod tests;
mod text;
mod vgtid;

pub use calls::{
    read_event, read_journal, read_request, read_response, read_vgtid, write_event, write_journal,
    write_request, write_response, write_vgtid,
};
pub use column::{Field, FieldEvent};
pub use event::{VEvent, VStreamResponse};
pub use journal::{Journal, KeyspaceShard};
pub use laws::{law_messages, law_spelling};
pub use refusal::{Fault, ProtoRefusal};
pub use request::{Filter, Flags, Rule, VStreamRequest};
pub use row::{Row, RowChange, RowEvent};
pub use vgtid::{ShardGtid, TableKey, VGtid};

/// The one fault of a call that only takes memory.
pub type OutOfMemory = std::alloc::AllocError;
