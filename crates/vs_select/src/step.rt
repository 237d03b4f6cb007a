//! What may stand behind what in a select text.
ghost use Rattle.std.specs.Prelude.{◌≡◌, IfOk, codes, map, nat_eq, option_map};
ghost use Rattle.std.specs.Cmp.Lexicographic.{pointwise};
ghost use Rattle.std.specs.List.{list_any};
ghost use Rattle.std.specs.Option.{option_and_then};
ghost use Rattle.vs_select.specs.Grammar.{
  done,
  goes,
  literal_in,
  name_in,
  step,
  with_column,
  with_test,
};
ghost use Rattle.vs_select.specs.Parts.{is_keyword, lower};
ghost use Rattle.vs_select.specs.declared.select.Condition.TheVariants.{Compares};
ghost use Rattle.vs_select.specs.declared.state.State.TheVariants.{
  Column,
  From,
  Is,
  IsNot,
  Listed,
  Selected,
  Wanting,
};

use crate::part::Part;
use crate::state::State;
use crate::{Comparison, Condition, Literal, Select, Test};
use std::alloc::Global;
use vs_base::{List, OutOfMemory, Text};

fn lower(byte: u8) -> u8
    ensures { result ≡ lower byte }
{
    if b'A' <= byte && byte <= b'Z' {
        byte + 32
    } else {
        byte
    }
}

/// Whether the words are equal but for the case of the first one's letters.
fn is_lowered(word: &[u8], keyword: &[u8]) -> bool
    ensures { result ≡ pointwise nat_eq (map lower word.now) keyword.now }
{
    if word.len() != keyword.len() {
        return false;
    }
    for i in 0..word.len() {
        if lower(word[i]) != keyword[i] {
            return false;
        }
    }
    true
}

/// Whether the part is this keyword, in any case.
fn is_keyword(part: &Part, keyword: &[u8]) -> bool
    ensures { result ≡ is_keyword keyword.now part.now }
{
    match part {
        Part::Word(word) => is_lowered(word.as_bytes(), keyword),
        _ => false,
    }
}

fn goes(fits: bool, state: State) -> Option<State>
    ensures { result ≡ goes fits state }
{
    if fits { Some(state) } else { None }
}

fn name_in(part: Part) -> Option<Text>
    ensures { result ≡ name_in part }
{
    match part {
        Part::Word(name) | Part::Quoted(name) => Some(name),
        _ => None,
    }
}

fn literal_in(part: Part) -> Option<Literal>
    ensures { result ≡ literal_in part }
{
    match part {
        Part::Number { negative, size } => Some(Literal::Number { negative, size }),
        Part::Bytes(bytes) => Some(Literal::Bytes(bytes)),
        _ => None,
    }
}

fn has_name(names: &[Text], name: &Text) -> bool
    ensures { result ≡ list_any (pointwise nat_eq name.now) names.now }
{
    names.iter().any(|other| name == other)
}

/// The columns with one more, which is none of them.
fn with_column(names: List<Text>, part: Part) -> Result<Option<State>, OutOfMemory>
    ensures { IfOk result (λ o. o ≡ option_and_then (with_column names) (name_in part)) }
{
    let mut names = names;
    let Some(name) = name_in(part) else {
        return Ok(None);
    };
    if has_name(names.as_slice(), &name) {
        return Ok(None);
    }
    names.push(name)?;
    Ok(Some(State::Listed(names)))
}

fn with_test(select: Select, column: Text, condition: Condition) -> Result<State, OutOfMemory>
    ensures { IfOk result (λ s. s ≡ with_test select column condition) }
{
    let mut select = select;
    select.tests.push(Test { column, condition })?;
    Ok(State::Tested(select))
}

fn with_literal(
    select: Select,
    column: Text,
    by: Comparison,
    part: Part,
) -> Result<Option<State>, OutOfMemory>
    ensures { IfOk result (λ o. o ≡ option_map (λ l. with_test select column (Compares by l)) (literal_in part)) }
{
    match literal_in(part) {
        Some(literal) => Ok(Some(with_test(select, column, Condition::Compares { by, literal })?)),
        None => Ok(None),
    }
}

/// Behind `is`: `null` or `not`.
fn behind_is(select: Select, column: Text, part: &Part) -> Result<Option<State>, OutOfMemory>
    ensures { IfOk result (λ o. o ≡ step (Is select column) part.now) }
{
    if is_keyword(part, b"null") {
        return Ok(Some(with_test(select, column, Condition::IsNull)?));
    }
    Ok(goes(is_keyword(part, b"not"), State::IsNot(select, column)))
}

/// Behind `is not`: `null`.
fn behind_not(select: Select, column: Text, part: &Part) -> Result<Option<State>, OutOfMemory>
    ensures { IfOk result (λ o. o ≡ step (IsNot select column) part.now) }
{
    if !is_keyword(part, b"null") {
        return Ok(None);
    }
    Ok(Some(with_test(select, column, Condition::IsNotNull)?))
}

fn behind_select(alloc: Global, part: Part) -> Result<Option<State>, OutOfMemory>
    ensures { IfOk result (λ o. o ≡ step Selected part) }
{
    match part {
        Part::Star => Ok(Some(State::Starred)),
        name => with_column(List::new(alloc), name),
    }
}

fn behind_column(names: List<Text>, part: &Part) -> Option<State>
    ensures { result ≡ step (Listed names) part.now }
{
    match part {
        Part::Comma => Some(State::Comma(names)),
        word => goes(is_keyword(word, b"from"), State::From(Some(names))),
    }
}

fn behind_test_column(select: Select, column: Text, part: &Part) -> Option<State>
    ensures { result ≡ step (Column select column) part.now }
{
    match part {
        Part::Sign(by) => Some(State::Compared(select, column, *by)),
        word => goes(is_keyword(word, b"is"), State::Is(select, column)),
    }
}

fn named_table(alloc: Global, columns: Option<List<Text>>, part: Part) -> Option<State>
    ensures { result ≡ step (From columns) part }
{
    let table = name_in(part)?;
    Some(State::Named(Select {
        columns,
        table,
        tests: List::new(alloc),
    }))
}

fn named_column(select: Select, part: Part) -> Option<State>
    ensures { result ≡ step (Wanting select) part }
{
    Some(State::Column(select, name_in(part)?))
}

/// The state after one more part, where it fits.
pub(crate) fn step(alloc: Global, state: State, part: Part) -> Result<Option<State>, OutOfMemory>
    ensures { IfOk result (λ o. o ≡ step state part) }
{
    match state {
        State::Begin => Ok(goes(is_keyword(&part, b"select"), State::Selected)),
        State::Selected => behind_select(alloc, part),
        State::Starred => Ok(goes(is_keyword(&part, b"from"), State::From(None))),
        State::Listed(names) => Ok(behind_column(names, &part)),
        State::Comma(names) => with_column(names, part),
        State::From(columns) => Ok(named_table(alloc, columns, part)),
        State::Named(select) => Ok(goes(is_keyword(&part, b"where"), State::Wanting(select))),
        State::Wanting(select) => Ok(named_column(select, part)),
        State::Column(select, column) => Ok(behind_test_column(select, column, &part)),
        State::Compared(select, column, by) => with_literal(select, column, by, part),
        State::Is(select, column) => behind_is(select, column, &part),
        State::IsNot(select, column) => behind_not(select, column, &part),
        State::Tested(select) => Ok(goes(is_keyword(&part, b"and"), State::Wanting(select))),
    }
}

/// The select of a text that ends here.
pub(crate) fn done(state: State) -> Option<Select>
    ensures { result ≡ done state }
{
    match state {
        State::Named(select) | State::Tested(select) => Some(select),
        _ => None,
    }
}
