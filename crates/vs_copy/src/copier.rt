ghost use Rattle.std.specs.Prelude.{[], ◌++◌, ◌∷◌, ◌≡◌, Err, IfErr, IfOk, IfSome, List, None, OnErr, OnOk, Some, map, true};
ghost use Rattle.std.specs.Map.{values_of};
ghost use Rattle.std.specs.Option.{option_map};
ghost use Rattle.vs_base.specs.Answers.{Unless};
ghost use Rattle.vs_tables.specs.Changes.{RefusalTells, first_unfit, tables_after};
ghost use Rattle.vs_tables.specs.Rows.{AreLawfulRows, table_rows};
ghost use Rattle.vs_base.specs.declared.change.Change.{Change};
ghost use Rattle.vs_schema.specs.Laws.{IsLawful};
ghost use Rattle.vs_model.specs.Copy.{next_rows};
ghost use Rattle.vs_copy.specs.Answers.{KeylessIs, NotResumedIs};
ghost use Rattle.vs_copy.specs.Runs.{CopyTurn, HasRun, applies};
ghost use Rattle.vs_copy.specs.Chunks.{ChunkIs, TellsNext, listed, next_told, rows_left, state_after, told_left};
ghost use Rattle.vs_copy.specs.Copying.{
  HasApplied,
  copied_bound,
  copied_of,
  fits_copy,
  image_told,
  is_row_after,
  keyless_in,
  told_within,
};

use crate::chunk::{ChunkRows, Taken, take_rows};
use crate::copied::{CopiedTable, copied_tables, find_copied, first_keyless, tables_of};
use crate::keys::are_key_cells;
use crate::refusal::CopyRefusal;
use std::alloc::Global;
use std::cmp::Ordering;
use std::collections::btree_map::Range;
use std::marker::Model;
use vs_base::{Change, Image, LastKey, List, OutOfMemory, Text};
use vs_filter::Bound;
use vs_schema::Schema;
use vs_tables::{PackedRow, RowKey, TableRefusal, Tables, compare_keys};

/// A copy of the picked tables of a shard.
#[derive(Debug, Drop)]
pub struct Copier {
    alloc: Global,
    tables: Tables,
    copied: List<CopiedTable>,
    /// the last row that was sent
    last: Option<LastKey>,
}

impl Model for Copier {
    ghost use Rattle.vs_copy.specs.Copying.{CopyState};
    ghost use Rattle.vs_copy.specs.CopiedTables.{AreKeyed};

    ghost Value = { CopyState };

    ghost view = { λ c. record { applied = c.tables; copied = c.copied; last = c.last } };

    ghost invariant = { λ c. AreKeyed c.copied };
}

/// A copy of which no row was sent.
fn begin(alloc: Global, schema: &Schema, bound: &Bound) -> Result<Copier, CopyRefusal>
    requires { IsLawful schema.now }
    ensures copied { IfOk result (λ c. c.copied ≡ copied_of schema.now.tables bound.now.tables) }
    ensures tables { IfOk result (λ c. HasApplied c []) }
    ensures last { IfOk result (λ c. c.last ≡ None) }
    ensures keyed { OnOk result (keyless_in schema.now.tables bound.now.tables ≡ None) }
    ensures refused { IfErr result (KeylessIs schema.now.tables bound.now.tables) }
{
    if let Some(picked) = first_keyless(schema.tables(), bound.tables.as_slice()) {
        return Err(CopyRefusal::NoKey {
            table: picked.name.copy(alloc)?,
        });
    }
    let copied = copied_tables(alloc, schema.tables(), bound.tables.as_slice())?;
    let own = Schema {
        tables: tables_of(alloc, copied.as_slice())?,
        skipped: List::new(alloc),
    };
    Ok(Copier {
        alloc,
        tables: Tables::new(alloc, &own)?,
        copied,
        last: None,
    })
}

impl Copier {
    /// A copy from its beginning. The filter was bound to a schema equal to this one.
    #[tactic(auto, using(crate::proofs::RunLemmas::fresh_runs))]
    pub fn fresh(alloc: Global, schema: &Schema, bound: &Bound) -> Result<Copier, CopyRefusal>
        requires { IsLawful schema.now }
        ensures copied { IfOk result (λ c. c.copied ≡ copied_of schema.now.tables bound.now.tables) }
        ensures tables { IfOk result (λ c. HasApplied c []) }
        ensures last { IfOk result (λ c. c.last ≡ None) }
        ensures run { IfOk result (λ c. HasRun [] c) }
        ensures keyed { OnOk result (keyless_in schema.now.tables bound.now.tables ≡ None) }
        ensures refused { IfErr result (KeylessIs schema.now.tables bound.now.tables) }
    {
        begin(alloc, schema, bound)
    }

    /// A copy that goes on behind its last row. The filter was bound to a schema equal to this one.
    pub fn resumed(
        alloc: Global,
        schema: &Schema,
        bound: &Bound,
        last: LastKey,
    ) -> Result<Copier, CopyRefusal>
        requires { IsLawful schema.now }
        ensures copied { IfOk result (λ c. c.copied ≡ copied_of schema.now.tables bound.now.tables) }
        ensures tables { IfOk result (λ c. HasApplied c []) }
        ensures last { IfOk result (λ c. c.last ≡ Some last) }
        ensures keyed { OnOk result (keyless_in schema.now.tables bound.now.tables ≡ None) }
        ensures fits { OnOk result (fits_copy (copied_of schema.now.tables bound.now.tables) last ≡ true) }
        ensures refused { IfErr result (NotResumedIs schema.now.tables bound.now.tables last) }
    {
        let mut copier = begin(alloc, schema, bound)?;
        if !fits_copy(copier.copied.as_slice(), &last) {
            return Err(CopyRefusal::BadLastKey);
        }
        copier.last = Some(last);
        Ok(copier)
    }

    /// Takes changes in order, and passes over those of tables that aren't copied. After a refusal each
    /// later call answers the same, and which rows there are isn't said.
    #[tactic(auto, using(crate::proofs::RunLemmas::apply_runs))]
    pub fn apply(&mut self, changes: &[Change]) -> Result<(), TableRefusal>
        ensures later { IfSome self.old.applied.refused (λ why. Unless TableRefusal.Memory result (Err why) × (self.new ≡ self.old)) }
        ensures applied { self.old.applied.refused ≡ None → OnOk result (self.new.applied ≡ record { tables = tables_after self.old.applied.tables changes.now; refused = None }) }
        ensures fits { self.old.applied.refused ≡ None → OnOk result (first_unfit self.old.applied.tables changes.now ≡ None) }
        ensures unfit { self.old.applied.refused ≡ None → IfErr result (RefusalTells (first_unfit self.old.applied.tables changes.now)) }
        ensures refused { self.old.applied.refused ≡ None → IfErr result (λ why. self.new.applied.refused ≡ Some why) }
        ensures all { (before : List Change) → HasApplied self.old before → OnOk result (HasApplied self.new (before ++ changes.now)) }
        ensures run { (turns : List CopyTurn) → HasRun turns self.old → OnOk result (HasRun (turns ++ applies self.old changes.now ∷ []) self.new) }
        ensures copied { self.new.copied ≡ self.old.copied }
        ensures last { self.new.last ≡ self.old.last }
    {
        self.tables.apply(changes)
    }

    /// The change with those images alone that the copy has passed, picked; none where no image is left.
    #[tactic(auto, using(crate::proofs::ToldLemmas::told_of, crate::proofs::ToldLemmas::none_of))]
    pub fn restrict(&self, alloc: Global, change: &Change) -> Result<Option<Change>, OutOfMemory>
        ensures { IfOk result (λ c. c ≡ told_within self.now change.now) }
    {
        let Some(last) = &self.last else {
            return Ok(None);
        };
        let Some(table) = find_copied(self.copied.as_slice(), change.table.as_bytes()) else {
            return Ok(None);
        };
        let before = image_told(alloc, table, change.table.as_bytes(), last, &change.before)?;
        let after = image_told(alloc, table, change.table.as_bytes(), last, &change.after)?;
        if before.is_none() && after.is_none() {
            return Ok(None);
        }
        Ok(Some(Change {
            table: change.table.copy(alloc)?,
            before,
            after,
        }))
    }
}

/// Whether a last key is one of a copied table.
fn fits_copy(copied: &[CopiedTable], last: &LastKey) -> bool
    ensures { result ≡ fits_copy copied.now last.now }
{
    match find_copied(copied, last.table.as_bytes()) {
        Some(table) => are_key_cells(table.kinds.as_slice(), last.key.cells()),
        None => false,
    }
}

/// Whether a row of the table of this name comes after the last row that was sent.
fn is_row_after(
    alloc: Global,
    table: &CopiedTable,
    name: &[u8],
    last: &LastKey,
    row: &Image,
) -> Result<bool, OutOfMemory>
    ensures { IfOk result (λ after. after ≡ is_row_after table.now name.now last.now row.now) }
{
    match name.cmp(last.table.as_bytes()) {
        Ordering::Less => Ok(false),
        Ordering::Equal => {
            let kinds = table.kinds.as_slice();
            let order = compare_keys(alloc, kinds, table.table.key.as_slice(), row, &last.key)?;
            Ok(order.is_gt())
        }
        Ordering::Greater => Ok(true),
    }
}

/// What is told of an image.
fn image_told(
    alloc: Global,
    table: &CopiedTable,
    name: &[u8],
    last: &LastKey,
    image: &Option<Image>,
) -> Result<Option<Image>, OutOfMemory>
    ensures { IfOk result (λ told. told ≡ image_told table.now name.now last.now image.now) }
{
    let Some(row) = image else {
        return Ok(None);
    };
    if is_row_after(alloc, table, name, last, row)? {
        return Ok(None);
    }
    table.picked.select.take_row(alloc, row)
}

impl Copier {
    /// The rows of a table behind the last row that was sent, picked or not.
    fn rows_left(&self, name: &[u8]) -> Result<Option<Range<'_, RowKey, PackedRow>>, OutOfMemory>
        ensures rows { IfOk result (λ rows. listed (option_map values_of rows) ≡ rows_left self.now name.now) }
        ensures lawful { IfOk result (λ rows. IfSome rows (λ _. IfSome (table_rows self.now.applied.tables name.now) AreLawfulRows)) }
    {
        let Some(last) = &self.last else {
            return self.tables.rows_after(name, None);
        };
        match name.cmp(last.table.as_bytes()) {
            Ordering::Less => Ok(None),
            Ordering::Equal => self.tables.rows_after(name, Some(&last.key)),
            Ordering::Greater => self.tables.rows_after(name, None),
        }
    }

    /// The next rows of a table.
    fn chunk_in(&self, name: &[u8]) -> Result<Option<ChunkRows>, OutOfMemory>
        ensures { (changes : List Change) → HasApplied self.now changes → IfOk result (ChunkIs name.now (told_left self.now name.now)) }
    {
        let Some(table) = find_copied(self.copied.as_slice(), name) else {
            return Ok(None);
        };
        let Some(rows) = self.rows_left(name)? else {
            return Ok(None);
        };
        let Taken { rows, last } = take_rows(self.alloc, table, rows)?;
        let Some(key) = last else {
            return Ok(None);
        };
        let name = Text::from_bytes(self.alloc, name)?;
        let Some(last_key) = LastKey::new(name.copy(self.alloc)?, key) else {
            return Ok(None);
        };
        Ok(Some(ChunkRows {
            table: name,
            rows,
            last_key,
        }))
    }

    /// The next rows of the first table that has some.
    fn find_chunk(&self) -> Result<Option<ChunkRows>, OutOfMemory>
        ensures { (changes : List Change) → HasApplied self.now changes → IfOk result (TellsNext (next_told self.now)) }
    {
        for table in self.copied.as_slice() {
            let chunk = self.chunk_in(table.picked.name.as_bytes())?;
            if chunk.is_some() {
                return Ok(chunk);
            }
        }
        Ok(None)
    }

    /// The picked rows that come next, of those that the applied changes leave: at most 100, and at most
    /// 4 MiB where it is more than one. None where no picked row is left. Which rows come after a refused
    /// change isn't said.
    pub fn next_chunk(&mut self) -> Result<Option<ChunkRows>, OutOfMemory>
        ensures rows { (changes : List Change) → HasApplied self.old changes →
            IfOk result (TellsNext (next_rows (copied_bound self.old.copied) changes self.old.last)) }
        ensures after { IfOk result (λ chunk. self.new ≡ state_after self.old chunk) }
        ensures run { (turns : List CopyTurn) → HasRun turns self.old → IfOk result (λ chunk. IfSome chunk (λ c. HasRun (turns ++ CopyTurn.Sends c ∷ []) self.new)) }
        ensures kept { OnErr result (self.new ≡ self.old) }
    {
        let Some(chunk) = self.find_chunk()? else {
            return Ok(None);
        };
        self.last = Some(chunk.last_key.copy(self.alloc)?);
        Ok(Some(chunk))
    }
}
