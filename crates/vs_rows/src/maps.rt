ghost use Rattle.std.specs.Prelude.{◌≡◌, ◌⊎◌, [], Err, Ok, OnErr, OnOk};
ghost use Rattle.vs_rows.specs.Rows.{rows_meant};
ghost use Rattle.vs_rows.specs.Tables.{done, with_map};

use crate::image::read_changes;
use crate::kind::RowsKind;
use crate::layout::read_rows;
use crate::table::{Mapped, map_table};
use crate::{RowRefusal, RowsOf};
use std::alloc::Global;
use std::collections::BTreeMap;
use std::marker::Model;
use vs_schema::Schema;

/// What is known of tables by the table maps of a transaction.
#[derive(Debug, Drop)]
pub struct Maps {
    alloc: Global,
    tables: BTreeMap<u64, Mapped>,
}

impl Model for Maps {
    ghost use Rattle.std.specs.Prelude.{List, ℕ};
    ghost use Rattle.vs_rows.specs.declared.table.Mapped.{Mapped};

    ghost Value = { List (ℕ × Mapped) };

    ghost view = { λ m. m.tables.entries };
}

impl Maps {
    pub fn new(alloc: Global) -> Maps
        ensures { result ≡ [] }
    {
        Maps {
            alloc,
            tables: BTreeMap::new(alloc),
        }
    }

    /// Takes the table map with this body, in the log of a shard of the keyspace. A table map of the
    /// same number goes.
    #[tactic(auto, unfolding(crate::specs::Tables::with_map))]
    pub fn put(&mut self, body: &[u8], schema: &Schema, keyspace: &[u8]) -> Result<(), RowRefusal>
        ensures told { (result ≡ Err RowRefusal.Memory) ⊎ (result ≡ done (with_map keyspace.now schema.now self.old body.now)) }
        ensures ok { OnOk result (with_map keyspace.now schema.now self.old body.now ≡ Ok self.new) }
        ensures err { OnErr result (self.new ≡ self.old) }
    {
        let (id, mapped) = map_table(self.alloc, body, schema, keyspace)?;
        self.tables.insert(id, mapped)?;
        Ok(())
    }

    /// What the rows event with this body tells. Its kind is its type in the log: 30 for inserts, 31 for
    /// updates, 32 for deletes, each of version 2; the body of another type is against the layout.
    #[tactic(auto, unfolding(crate::specs::Rows::rows_meant))]
    pub fn rows(&self, alloc: Global, kind: u8, body: &[u8]) -> Result<RowsOf, RowRefusal>
        ensures { (result ≡ Err RowRefusal.Memory) ⊎ (result ≡ rows_meant self.now kind body.now) }
    {
        let Some(kind) = RowsKind::of(kind) else {
            return Err(RowRefusal::BadBody);
        };
        let Some(said) = read_rows(kind, body) else {
            return Err(RowRefusal::BadBody);
        };
        match self.tables.get(&said.id) {
            None => Err(RowRefusal::UnknownTableId { id: said.id }),
            Some(Mapped::Passed) => Ok(RowsOf::Passed),
            Some(Mapped::Counted(table)) => {
                Ok(RowsOf::Changes(read_changes(alloc, kind, table, &said)?))
            }
            Some(Mapped::Journal(table)) => {
                Ok(RowsOf::Journal(read_changes(alloc, kind, table, &said)?))
            }
        }
    }

    /// Forgets all table maps, as a transaction begins.
    pub fn clear(&mut self)
        ensures { self.new ≡ [] }
    {
        self.tables.clear();
    }
}
