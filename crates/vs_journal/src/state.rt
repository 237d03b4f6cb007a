use crate::brackets::Brackets;
use crate::parsed::{Member, ParsedJournal};
use crate::token::Bracket;
use std::alloc::Global;
use vs_base::{List, Text};

/// The fields that a journal text may have, where each of them counts; all others are unknown.
#[derive(Debug, Clone, Copy, PartialEq, Eq)]
pub enum FieldName {
    Id,
    MigrationType,
    ShardGtids,
    Participants,
    Keyspace,
    Shard,
    Gtid,
    Unknown,
}

/// What may come next in the innermost message that is open.
#[derive(Debug, Clone, Copy, PartialEq, Eq)]
pub enum Awaits {
    /// A field's name, or the message's end.
    Name,
    /// The same, or what parts two fields.
    Behind,
    /// The same, or more of the field's string.
    BehindText(FieldName),
    /// A colon, or a message.
    BehindName(FieldName),
    /// The field's value.
    Value(FieldName),
    /// A list's first item, or its end.
    FirstItem,
    Item,
    /// A comma, or the list's end.
    BehindItem,
    /// The same, or more of the item's string.
    BehindItemText,
}

/// What an open message of a journal is to be.
#[derive(Debug, Clone, Copy, PartialEq, Eq)]
pub enum Role {
    Participant,
    Successor,
}

/// A participant or a successor whose message is open.
#[derive(Debug, Drop)]
pub struct OpenMember {
    pub role: Role,
    pub bracket: Bracket,
    pub member: Member,
}

/// How far a journal text has come.
#[derive(Debug, Drop)]
pub struct TextState {
    pub journal: ParsedJournal,
    pub current: Option<OpenMember>,
    /// The brackets of unknown fields that are open.
    pub passed: Brackets,
    pub awaits: Awaits,
}
