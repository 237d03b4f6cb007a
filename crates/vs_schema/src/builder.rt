ghost use Rattle.std.specs.Prelude.{◌≡◌, ◌&&◌, None, Some, if◌then◌else◌, not};
ghost use Rattle.vs_schema.specs.Lines.{sole, words_of};
ghost use Rattle.vs_schema.specs.Reading.{GivesLine, Holds, draft_of};
ghost use Rattle.vs_schema.specs.Rules.{
  by_line,
  by_name,
  by_verb,
  by_words,
  closed,
  in_open,
  is_name,
  is_taken,
  opens,
  start,
  with_begun,
  with_column,
  with_key,
  with_skipped,
};

use crate::columns::{add_column, is_name, set_key};
use crate::cut::{cut_word, is_same, sole_word};
use crate::fault::LineFault;
use crate::skipped_names::SkippedNames;
use crate::tables_by_name::TablesByName;
use std::alloc::Global;
use vs_base::{List, Table, Text};

/// What the lines of a schema text have said so far. After want of memory it is of no use.
#[derive(Debug, Drop)]
pub struct Builder {
    /// those that are whole
    pub tables: TablesByName,
    pub skipped: SkippedNames,
    /// the table to which columns and a key still come
    pub current: Option<Table>,
}

impl Builder {
    pub fn new(alloc: Global) -> Builder
        ensures { draft_of result ≡ start }
    {
        Builder {
            tables: TablesByName::new(alloc),
            skipped: SkippedNames::new(alloc),
            current: None,
        }
    }

    /// Takes the next line.
    #[tactic(auto, unfolding(crate::specs::Rules::by_line))]
    pub fn take_line(&mut self, alloc: Global, line: &[u8]) -> Result<(), LineFault>
        ensures { Holds result (draft_of self.new) (by_line (draft_of self.old) line.now) }
    {
        match line {
            [] => Ok(()),
            [b'#', ..] => Ok(()),
            _ => self.take_words(alloc, line),
        }
    }

    #[tactic(auto, unfolding(crate::specs::Rules::by_words), using(crate::proofs::CutLemmas::some_words))]
    fn take_words(&mut self, alloc: Global, line: &[u8]) -> Result<(), LineFault>
        ensures { Holds result (draft_of self.new) (by_words (draft_of self.old) (words_of line.now)) }
    {
        let Some((verb, words)) = cut_word(line) else {
            return Err(LineFault::Wrong);
        };
        self.take_verb(alloc, verb, words)
    }

    #[tactic(auto, unfolding(crate::specs::Rules::by_verb))]
    fn take_verb(&mut self, alloc: Global, verb: &[u8], words: &[u8]) -> Result<(), LineFault>
        ensures { Holds result (draft_of self.new) (by_verb (draft_of self.old) verb.now (words_of words.now)) }
    {
        if is_same(verb, b"table") {
            return self.begin_table(alloc, words);
        }
        if is_same(verb, b"column") {
            return self.take_column(alloc, words);
        }
        if is_same(verb, b"key") {
            return self.take_key(alloc, words);
        }
        if is_same(verb, b"skip") {
            return self.skip_table(alloc, words);
        }
        Err(LineFault::Wrong)
    }

    fn begin_table(&mut self, alloc: Global, words: &[u8]) -> Result<(), LineFault>
        ensures { Holds result (draft_of self.new) (by_name (with_begun (draft_of self.old)) (sole (words_of words.now))) }
    {
        let Some(name) = sole_word(words) else {
            return Err(LineFault::Wrong);
        };
        self.begin(alloc, name)
    }

    /// Begins a table, behind one that has a column.
    #[tactic(auto, unfolding(crate::specs::Rules::with_begun))]
    fn begin(&mut self, alloc: Global, name: &[u8]) -> Result<(), LineFault>
        ensures { Holds result (draft_of self.new) (with_begun (draft_of self.old) name.now) }
    {
        let table = Table {
            name: self.new_name(alloc, name)?,
            columns: List::new(alloc),
            key: List::new(alloc),
        };
        self.close(alloc)?;
        self.current = Some(table);
        Ok(())
    }

    /// Puts the open table, which must have a column, to the others.
    pub fn close(&mut self, alloc: Global) -> Result<(), LineFault>
        ensures tables { Holds result self.new.tables (closed self.old.tables self.old.current) }
        ensures skipped { self.new.skipped ≡ self.old.skipped }
    {
        match self.current.take() {
            None => Ok(()),
            Some(table) => self.put(alloc, table),
        }
    }

    fn put(&mut self, alloc: Global, table: Table) -> Result<(), LineFault>
        ensures tables { Holds result self.new.tables (closed self.old.tables (Some table)) }
        ensures skipped { self.new.skipped ≡ self.old.skipped }
    {
        if table.columns.as_slice().len() == 0 {
            return Err(LineFault::Wrong);
        }
        self.tables.put(alloc, table)?;
        Ok(())
    }

    fn skip_table(&mut self, alloc: Global, words: &[u8]) -> Result<(), LineFault>
        ensures { Holds result (draft_of self.new) (by_name (with_skipped (draft_of self.old)) (sole (words_of words.now))) }
    {
        let Some(name) = sole_word(words) else {
            return Err(LineFault::Wrong);
        };
        self.skip(alloc, name)
    }

    #[tactic(auto, unfolding(crate::specs::Rules::with_skipped))]
    fn skip(&mut self, alloc: Global, name: &[u8]) -> Result<(), LineFault>
        ensures { Holds result (draft_of self.new) (with_skipped (draft_of self.old) name.now) }
    {
        let name = self.new_name(alloc, name)?;
        self.skipped.push(alloc, name)?;
        Ok(())
    }

    /// The name of a table, where none that was told has it.
    fn new_name(&self, alloc: Global, name: &[u8]) -> Result<Text, LineFault>
        ensures { GivesLine result (if is_name name.now && not (is_taken (draft_of self.now) name.now) then Some name.now else None) }
    {
        if !is_name(name) {
            return Err(LineFault::Wrong);
        }
        let name = Text::from_bytes(alloc, name)?;
        if self.is_taken(&name) {
            return Err(LineFault::Wrong);
        }
        Ok(name)
    }

    fn is_taken(&self, name: &Text) -> bool
        ensures { result ≡ is_taken (draft_of self.now) name.now }
    {
        self.tables.has(name) || self.skipped.has(name) || self.is_open(name)
    }

    fn is_open(&self, name: &Text) -> bool
        ensures { result ≡ opens name.now self.now.current }
    {
        match &self.current {
            Some(table) => is_same(table.name.as_bytes(), name.as_bytes()),
            None => false,
        }
    }

    fn take_column(&mut self, alloc: Global, words: &[u8]) -> Result<(), LineFault>
        ensures { Holds result (draft_of self.new) (in_open (λ table. with_column table (words_of words.now)) (draft_of self.old) self.old.current) }
    {
        match &mut self.current {
            None => Err(LineFault::Wrong),
            Some(table) => add_column(alloc, table, words),
        }
    }

    fn take_key(&mut self, alloc: Global, words: &[u8]) -> Result<(), LineFault>
        ensures { Holds result (draft_of self.new) (in_open (λ table. with_key table (words_of words.now)) (draft_of self.old) self.old.current) }
    {
        match &mut self.current {
            None => Err(LineFault::Wrong),
            Some(table) => set_key(alloc, table, words),
        }
    }
}
