//! What may stand behind what in a journal text.
ghost use Rattle.std.specs.Prelude.{◌≡◌, ◌++◌, IfOk, nat_lt};
ghost use Rattle.std.specs.Option.{option_map};
ghost use Rattle.vs_journal.specs.declared.state.OpenMember.{OpenMember};
ghost use Rattle.vs_journal.specs.Grammar.{
  add_text,
  awaiting,
  behind_colon,
  behind_item,
  behind_item_text,
  behind_name,
  behind_nothing,
  behind_text,
  behind_value,
  closed_in,
  field_in,
  first_item,
  id_of,
  id_valued,
  item_valued,
  journal_at,
  journal_field,
  kind_named,
  kind_numbered,
  kind_valued,
  list_opened,
  may_end_message,
  most_open,
  member_field,
  first_state,
  no_member,
  open_count,
  opened,
  same_bracket,
  same_text,
  set_text,
  state_behind,
  text_valued,
  unknown_valued,
  valued,
  with_current,
  with_id,
  with_kind,
  with_member,
  with_opened,
};

use crate::brackets::Brackets;
use crate::parsed::{Member, ParsedJournal};
use crate::state::{Awaits, FieldName, OpenMember, Role, TextState};
use crate::token::{Bracket, Token};
use std::alloc::Global;
use vs_base::{List, OutOfMemory, Text};

/// How many brackets may be open at a place.
const MOST_OPEN: usize = 32;

fn same_text(a: &[u8], b: &[u8]) -> bool
    ensures { result ≡ same_text a.now b.now }
{
    a == b
}

fn journal_field(name: &[u8]) -> FieldName
    ensures { result ≡ journal_field name.now }
{
    if same_text(name, b"id") {
        FieldName::Id
    } else if same_text(name, b"migration_type") {
        FieldName::MigrationType
    } else if same_text(name, b"shard_gtids") {
        FieldName::ShardGtids
    } else if same_text(name, b"participants") {
        FieldName::Participants
    } else {
        FieldName::Unknown
    }
}

fn member_field(role: Role, name: &[u8]) -> FieldName
    ensures { result ≡ member_field role name.now }
{
    if same_text(name, b"keyspace") {
        FieldName::Keyspace
    } else if same_text(name, b"shard") {
        FieldName::Shard
    } else if same_text(name, b"gtid") {
        match role {
            Role::Participant => FieldName::Unknown,
            Role::Successor => FieldName::Gtid,
        }
    } else {
        FieldName::Unknown
    }
}

/// The field of a name in the innermost message that is open.
fn field_in(passed: &Brackets, current: &Option<OpenMember>, name: &[u8]) -> FieldName
    ensures { result ≡ field_in passed.now current.now name.now }
{
    if passed.len() > 0 {
        return FieldName::Unknown;
    }
    match current {
        None => journal_field(name),
        Some(open) => member_field(open.role, name),
    }
}

/// Whether one more bracket may be opened.
fn may_open(state: &TextState) -> bool
    ensures { result ≡ nat_lt (open_count state.now) most_open }
{
    if state.current.is_some() {
        state.passed.len() < MOST_OPEN - 1
    } else {
        state.passed.len() < MOST_OPEN
    }
}

fn awaiting(awaits: Awaits, state: TextState) -> TextState
    ensures { result ≡ awaiting awaits state }
{
    TextState { awaits, ..state }
}

fn no_member(alloc: Global) -> Member
    ensures { result ≡ no_member }
{
    Member {
        keyspace: Text::new(alloc),
        shard: Text::new(alloc),
        gtid: Text::new(alloc),
    }
}

fn with_opened(alloc: Global, role: Role, bracket: Bracket, state: TextState) -> TextState
    ensures { result ≡ with_opened role bracket state }
{
    let member = no_member(alloc);
    TextState {
        current: Some(OpenMember {
            role,
            bracket,
            member,
        }),
        awaits: Awaits::Name,
        ..state
    }
}

/// The state behind a message's first bracket.
fn opened(
    alloc: Global,
    field: FieldName,
    bracket: Bracket,
    state: TextState,
) -> Result<Option<TextState>, OutOfMemory>
    ensures { IfOk result (λ o. o ≡ opened field bracket state) }
{
    match field {
        FieldName::Participants => Ok(Some(with_opened(alloc, Role::Participant, bracket, state))),
        FieldName::ShardGtids => Ok(Some(with_opened(alloc, Role::Successor, bracket, state))),
        FieldName::Unknown => with_passed(bracket, state),
        _ => Ok(None),
    }
}

fn with_passed(bracket: Bracket, state: TextState) -> Result<Option<TextState>, OutOfMemory>
    ensures { IfOk result (λ o. o ≡ opened FieldName.Unknown bracket state) }
{
    if !may_open(&state) {
        return Ok(None);
    }
    let mut passed = state.passed;
    passed.push(bracket)?;
    Ok(Some(TextState {
        passed,
        awaits: Awaits::Name,
        journal: state.journal,
        current: state.current,
    }))
}

fn list_opened(field: FieldName, state: TextState) -> Option<TextState>
    ensures { result ≡ list_opened field state }
{
    match field {
        FieldName::Unknown if may_open(&state) => Some(awaiting(Awaits::FirstItem, state)),
        _ => None,
    }
}

fn with_member(
    role: Role,
    member: Member,
    journal: ParsedJournal,
) -> Result<ParsedJournal, OutOfMemory>
    ensures { IfOk result (λ j. j ≡ with_member role member journal) }
{
    let mut journal = journal;
    match role {
        Role::Participant => journal.participants.push(member)?,
        Role::Successor => journal.successors.push(member)?,
    }
    Ok(journal)
}

fn same_bracket(a: Bracket, b: Bracket) -> bool
    ensures { result ≡ same_bracket a b }
{
    match (a, b) {
        (Bracket::Curly, Bracket::Curly) | (Bracket::Angle, Bracket::Angle) => true,
        _ => false,
    }
}

/// The state behind the end of the innermost message.
fn closed(bracket: Bracket, state: TextState) -> Result<Option<TextState>, OutOfMemory>
    ensures { IfOk result (λ o. o ≡ closed_in state.passed state.current bracket state) }
{
    let TextState {
        journal,
        current,
        mut passed,
        ..
    } = state;
    if let Some(open) = passed.pop() {
        if !same_bracket(open, bracket) {
            return Ok(None);
        }
        return Ok(Some(TextState {
            journal,
            current,
            passed,
            awaits: Awaits::Behind,
        }));
    }
    let Some(open) = current else {
        return Ok(None);
    };
    if !same_bracket(open.bracket, bracket) {
        return Ok(None);
    }
    Ok(Some(TextState {
        journal: with_member(open.role, open.member, journal)?,
        current: None,
        passed,
        awaits: Awaits::Behind,
    }))
}

/// A number of 64 bits, from its sign and how far it is from zero.
fn id_of(negative: bool, size: Option<u64>) -> Option<i64>
    ensures { result ≡ id_of negative size }
{
    let size = size?;
    if negative && size <= 1 << 63 {
        return Some((-(size as i128)) as i64);
    }
    if !negative && size < 1 << 63 {
        return Some(size as i64);
    }
    None
}

fn kind_named(name: &[u8]) -> Option<bool>
    ensures { result ≡ kind_named name.now }
{
    if same_text(name, b"TABLES") {
        Some(false)
    } else if same_text(name, b"SHARDS") {
        Some(true)
    } else {
        None
    }
}

fn kind_numbered(negative: bool, size: Option<u64>) -> Option<bool>
    ensures { result ≡ kind_numbered negative size }
{
    match (negative, size) {
        (false, Some(0)) => Some(false),
        (false, Some(1)) => Some(true),
        _ => None,
    }
}

fn with_id(state: TextState, id: i64) -> TextState
    ensures { result ≡ with_id state id }
{
    let mut journal = state.journal;
    journal.id = id;
    TextState {
        journal,
        awaits: Awaits::Behind,
        current: state.current,
        passed: state.passed,
    }
}

fn with_kind(state: TextState, shards: bool) -> TextState
    ensures { result ≡ with_kind state shards }
{
    let mut journal = state.journal;
    journal.shards = shards;
    TextState {
        journal,
        awaits: Awaits::Behind,
        current: state.current,
        passed: state.passed,
    }
}

fn set_text(field: FieldName, text: Text, member: Member) -> Member
    ensures { result ≡ set_text field text member }
{
    match field {
        FieldName::Keyspace => Member {
            keyspace: text,
            ..member
        },
        FieldName::Shard => Member {
            shard: text,
            ..member
        },
        FieldName::Gtid => Member {
            gtid: text,
            ..member
        },
        _ => member,
    }
}

fn appended(front: Text, back: &Text) -> Result<Text, OutOfMemory>
    ensures { IfOk result (λ t. t ≡ front ++ back.now) }
{
    let mut text = front;
    text.append(back.as_bytes())?;
    Ok(text)
}

fn add_text(field: FieldName, text: &Text, member: Member) -> Result<Member, OutOfMemory>
    ensures { IfOk result (λ m. m ≡ add_text field text.now member) }
{
    let Member {
        keyspace,
        shard,
        gtid,
    } = member;
    match field {
        FieldName::Keyspace => Ok(Member {
            keyspace: appended(keyspace, text)?,
            shard,
            gtid,
        }),
        FieldName::Shard => Ok(Member {
            keyspace,
            shard: appended(shard, text)?,
            gtid,
        }),
        FieldName::Gtid => Ok(Member {
            keyspace,
            shard,
            gtid: appended(gtid, text)?,
        }),
        _ => Ok(Member {
            keyspace,
            shard,
            gtid,
        }),
    }
}

/// The open message with the string as this field.
fn set_current(field: FieldName, text: Text, current: Option<OpenMember>) -> Option<OpenMember>
    ensures { result ≡ option_map (λ (o : OpenMember). record o { member = set_text field text o.member }) current }
{
    let OpenMember {
        role,
        bracket,
        member,
    } = current?;
    Some(OpenMember {
        role,
        bracket,
        member: set_text(field, text, member),
    })
}

/// The open message with the string behind what this field is.
fn add_current(
    field: FieldName,
    text: &Text,
    current: Option<OpenMember>,
) -> Result<Option<OpenMember>, OutOfMemory>
    ensures { IfOk result (λ c. c ≡ option_map (λ (o : OpenMember). record o { member = add_text field text.now o.member }) current) }
{
    let Some(open) = current else {
        return Ok(None);
    };
    let OpenMember {
        role,
        bracket,
        member,
    } = open;
    Ok(Some(OpenMember {
        role,
        bracket,
        member: add_text(field, text, member)?,
    }))
}

/// A string as the value of a field of the open message.
fn text_valued(field: FieldName, state: TextState, token: Token) -> Option<TextState>
    ensures { result ≡ text_valued field state token }
{
    let Token::Bytes(text) = token else {
        return None;
    };
    let TextState {
        journal,
        current,
        passed,
        ..
    } = state;
    Some(TextState {
        journal,
        current: set_current(field, text, current),
        passed,
        awaits: Awaits::BehindText(field),
    })
}

/// More of that string.
fn text_added(field: FieldName, state: TextState, text: &Text) -> Result<TextState, OutOfMemory>
    ensures { IfOk result (λ s. s ≡ with_current (add_text field text.now) state) }
{
    let TextState {
        journal,
        current,
        passed,
        awaits,
    } = state;
    Ok(TextState {
        journal,
        current: add_current(field, text, current)?,
        passed,
        awaits,
    })
}

fn id_valued(state: TextState, token: &Token) -> Option<TextState>
    ensures { result ≡ id_valued state token.now }
{
    match token {
        Token::Number { negative, size } => Some(with_id(state, id_of(*negative, *size)?)),
        _ => None,
    }
}

fn kind_valued(state: TextState, token: &Token) -> Option<TextState>
    ensures { result ≡ kind_valued state token.now }
{
    match token {
        Token::Word(name) => Some(with_kind(state, kind_named(name.as_bytes())?)),
        Token::Number { negative, size } => Some(with_kind(
            state,
            kind_numbered(*negative, *size)?,
        )),
        _ => None,
    }
}

fn unknown_valued(state: TextState, token: &Token) -> Option<TextState>
    ensures { result ≡ unknown_valued state token.now }
{
    match token {
        Token::Word(_) | Token::Number { .. } => Some(awaiting(Awaits::Behind, state)),
        Token::Bytes(_) => Some(awaiting(Awaits::BehindText(FieldName::Unknown), state)),
        _ => None,
    }
}

/// The state behind a scalar as the field's value.
fn valued(field: FieldName, state: TextState, token: Token) -> Option<TextState>
    ensures { result ≡ valued field state token }
{
    match field {
        FieldName::Id => id_valued(state, &token),
        FieldName::MigrationType => kind_valued(state, &token),
        FieldName::ShardGtids | FieldName::Participants => None,
        FieldName::Keyspace => text_valued(FieldName::Keyspace, state, token),
        FieldName::Shard => text_valued(FieldName::Shard, state, token),
        FieldName::Gtid => text_valued(FieldName::Gtid, state, token),
        FieldName::Unknown => unknown_valued(state, &token),
    }
}

/// Behind the last field: a name, or the message's end.
fn behind_nothing(state: TextState, token: &Token) -> Result<Option<TextState>, OutOfMemory>
    ensures { IfOk result (λ o. o ≡ behind_nothing state token.now) }
{
    match token {
        Token::Word(name) => {
            let field = field_in(&state.passed, &state.current, name.as_bytes());
            Ok(Some(awaiting(Awaits::BehindName(field), state)))
        }
        Token::Close(bracket) => closed(*bracket, state),
        _ => Ok(None),
    }
}

fn behind_value(state: TextState, token: &Token) -> Result<Option<TextState>, OutOfMemory>
    ensures { IfOk result (λ o. o ≡ behind_value state token.now) }
{
    match token {
        Token::Comma | Token::Semicolon => Ok(Some(awaiting(Awaits::Name, state))),
        other => behind_nothing(state, other),
    }
}

fn behind_text(
    field: FieldName,
    state: TextState,
    token: &Token,
) -> Result<Option<TextState>, OutOfMemory>
    ensures { IfOk result (λ o. o ≡ behind_text field state token.now) }
{
    match token {
        Token::Bytes(text) => Ok(Some(text_added(field, state, text)?)),
        other => behind_value(state, other),
    }
}

fn behind_name(
    alloc: Global,
    field: FieldName,
    state: TextState,
    token: &Token,
) -> Result<Option<TextState>, OutOfMemory>
    ensures { IfOk result (λ o. o ≡ behind_name field state token.now) }
{
    match token {
        Token::Colon => Ok(Some(awaiting(Awaits::Value(field), state))),
        Token::Open(bracket) => opened(alloc, field, *bracket, state),
        _ => Ok(None),
    }
}

fn behind_colon(
    alloc: Global,
    field: FieldName,
    state: TextState,
    token: Token,
) -> Result<Option<TextState>, OutOfMemory>
    ensures { IfOk result (λ o. o ≡ behind_colon field state token) }
{
    match token {
        Token::Open(bracket) => opened(alloc, field, bracket, state),
        Token::OpenList => Ok(list_opened(field, state)),
        scalar => Ok(valued(field, state, scalar)),
    }
}

fn item_valued(state: TextState, token: &Token) -> Option<TextState>
    ensures { result ≡ item_valued state token.now }
{
    match token {
        Token::Word(_) | Token::Number { .. } => Some(awaiting(Awaits::BehindItem, state)),
        Token::Bytes(_) => Some(awaiting(Awaits::BehindItemText, state)),
        _ => None,
    }
}

fn first_item(state: TextState, token: &Token) -> Option<TextState>
    ensures { result ≡ first_item state token.now }
{
    match token {
        Token::CloseList => Some(awaiting(Awaits::Behind, state)),
        other => item_valued(state, other),
    }
}

fn behind_item(state: TextState, token: &Token) -> Option<TextState>
    ensures { result ≡ behind_item state token.now }
{
    match token {
        Token::Comma => Some(awaiting(Awaits::Item, state)),
        Token::CloseList => Some(awaiting(Awaits::Behind, state)),
        _ => None,
    }
}

fn behind_item_text(state: TextState, token: &Token) -> Option<TextState>
    ensures { result ≡ behind_item_text state token.now }
{
    match token {
        Token::Bytes(_) => Some(state),
        other => behind_item(state, other),
    }
}

/// The state behind one more token, where it fits.
pub(crate) fn state_behind(
    alloc: Global,
    state: TextState,
    token: Token,
) -> Result<Option<TextState>, OutOfMemory>
    ensures { IfOk result (λ o. o ≡ state_behind state token) }
{
    match state.awaits {
        Awaits::Name => behind_nothing(state, &token),
        Awaits::Behind => behind_value(state, &token),
        Awaits::BehindText(field) => behind_text(field, state, &token),
        Awaits::BehindName(field) => behind_name(alloc, field, state, &token),
        Awaits::Value(field) => behind_colon(alloc, field, state, token),
        Awaits::FirstItem => Ok(first_item(state, &token)),
        Awaits::Item => Ok(item_valued(state, &token)),
        Awaits::BehindItem => Ok(behind_item(state, &token)),
        Awaits::BehindItemText => Ok(behind_item_text(state, &token)),
    }
}

/// The state in front of a text.
pub(crate) fn first_state(alloc: Global) -> TextState
    ensures { result ≡ first_state }
{
    TextState {
        journal: ParsedJournal {
            id: 0,
            shards: false,
            participants: List::new(alloc),
            successors: List::new(alloc),
        },
        current: None,
        passed: Brackets::new(alloc),
        awaits: Awaits::Name,
    }
}

fn may_end_message(awaits: Awaits) -> bool
    ensures { result ≡ may_end_message awaits }
{
    match awaits {
        Awaits::Name | Awaits::Behind | Awaits::BehindText(_) => true,
        _ => false,
    }
}

/// What a text says that ends here.
pub(crate) fn journal_at(state: TextState) -> Option<ParsedJournal>
    ensures { result ≡ journal_at state }
{
    if state.passed.len() > 0 || state.current.is_some() || !may_end_message(state.awaits) {
        return None;
    }
    Some(state.journal)
}
