//! The fields of a protobuf message: their one spelling, and what some bytes have of them.
//!
//! The format is the public one of Protocol Buffers ("Encoding"): a message is a list of fields,
//! each a tag and a value.
#![tactic(auto)]

mod field;
mod fields;
mod put;
mod refusal;
mod varint;

pub use field::{Field, FieldValue};
pub use fields::{Fields, law_fields};
pub use put::{put_bytes, put_number};
pub use refusal::{Flaw, WireRefusal};
pub use varint::{get_varint, law_varint, put_varint, varint_len};

/// The one fault of a call that only takes memory.
pub type OutOfMemory = std::alloc::AllocError;

#[cfg(test)]
mod tests;
