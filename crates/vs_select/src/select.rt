ghost use Rattle.std.specs.Prelude.{◌≡◌, Ok, IfOk, IfErr};
ghost use Rattle.vs_select.specs.Grammar.{select_of};
ghost use Rattle.vs_select.specs.Binding.{bound_select};
ghost use Rattle.vs_select.specs.Refusals.{BadSelectIs, UnboundIs};

use crate::bind::{bound_tests, columns_of, unknown_name};
use crate::cut::next_part;
use crate::state::State;
use crate::step::{done, step};
use crate::{BoundSelect, SelectRefusal};
use std::alloc::Global;
use vs_base::{List, Table, Text};

/// How a column's cell is compared.
#[derive(Debug, Clone, Copy, PartialEq, Eq)]
pub enum Comparison {
    Equal,
    NotEqual,
    Less,
    AtMost,
    Greater,
    AtLeast,
}

/// What a cell is compared with: a whole number, as a sign and how far it is from zero, or bytes.
#[derive(Debug, Drop)]
pub enum Literal {
    Number { negative: bool, size: u64 },
    Bytes(Text),
}

#[derive(Debug, Drop)]
pub enum Condition {
    Compares { by: Comparison, literal: Literal },
    IsNull,
    IsNotNull,
}

/// A condition on a column.
#[derive(Debug, Drop)]
pub struct Test {
    pub column: Text,
    pub condition: Condition,
}

/// Columns of a table, or all of them, and the conditions on its rows.
#[derive(Debug, Drop)]
pub struct Select {
    pub columns: Option<List<Text>>,
    pub table: Text,
    pub tests: List<Test>,
}

impl Select {
    /// Reads a select text, as `select id, v from t where id < 10 and v is not null`.
    pub fn read(alloc: Global, text: &[u8]) -> Result<Select, SelectRefusal>
        ensures ok { IfOk result (λ s. select_of text.now ≡ Ok s) }
        ensures bad { IfErr result (λ e. BadSelectIs (select_of text.now) e) }
    {
        let mut state = State::Begin;
        let mut left = text;
        while let Some(cut) = next_part(alloc, left)? {
            let at = text.len() - cut.left;
            match step(alloc, state, cut.part)? {
                Some(next) => state = next,
                None => return Err(SelectRefusal::BadSelect { at }),
            }
            left = cut.rest;
        }
        match done(state) {
            Some(select) => Ok(select),
            None => Err(SelectRefusal::BadSelect { at: text.len() }),
        }
    }

    /// The select over the columns of a table. A name that is no column is told before a literal that
    /// doesn't fit its column, and of each the first in the text.
    pub fn bind(&self, alloc: Global, table: &Table) -> Result<BoundSelect, SelectRefusal>
        ensures ok { IfOk result (λ b. bound_select table.now.columns self.now ≡ Ok b) }
        ensures unbound { IfErr result (λ e. UnboundIs (bound_select table.now.columns self.now) e) }
    {
        let columns = table.columns.as_slice();
        if let Some(name) = unknown_name(columns, self) {
            return Err(SelectRefusal::UnknownColumn {
                name: name.copy(alloc)?,
            });
        }
        let tests = bound_tests(alloc, columns, self.tests.as_slice())?;
        Ok(BoundSelect {
            columns: columns_of(alloc, columns, &self.columns)?,
            tests,
        })
    }
}
