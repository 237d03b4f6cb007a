ghost use Rattle.std.specs.Prelude.{◌≡◌, [], IfOk, OnOk};
ghost use Rattle.std.specs.List.{list_any};
ghost use Rattle.vs_schema.specs.Rules.{names_table, with_table};

use std::alloc::Global;
use std::collections::BTreeMap;
use std::marker::Model;
use vs_base::{List, OutOfMemory, Table, Text};

/// Tables, each found by its name.
#[derive(Debug, Drop)]
pub struct TablesByName {
    /// each at its own name
    tables: BTreeMap<Text, Table>,
}

impl Model for TablesByName {
    ghost use Rattle.std.specs.Prelude.{List};
    ghost use Rattle.std.specs.BTreeMap.{values};
    ghost use Rattle.vs_base.specs.declared.table.Table.{Table};
    ghost use Rattle.vs_schema.specs.Named.{AreNamed};

    ghost Value = { List Table };

    ghost view = { λ t. values t.tables };

    ghost invariant = { λ t. AreNamed t.tables.entries };
}

impl TablesByName {
    pub fn new(alloc: Global) -> TablesByName
        ensures { result ≡ [] }
    {
        TablesByName {
            tables: BTreeMap::new(alloc),
        }
    }

    /// Puts the table to its place; one of the same name goes.
    pub fn put(&mut self, alloc: Global, table: Table) -> Result<(), OutOfMemory>
        ensures { OnOk result (self.new ≡ with_table self.old table) }
    {
        self.tables.insert(table.name.copy(alloc)?, table)?;
        Ok(())
    }

    pub fn has(&self, name: &Text) -> bool
        ensures { result ≡ list_any (names_table name.now) self.now }
    {
        self.tables.contains_key(name)
    }

    /// The tables, ascending by name.
    pub fn into_list(self, alloc: Global) -> Result<List<Table>, OutOfMemory>
        ensures { IfOk result (λ tables. tables ≡ self) }
    {
        let TablesByName { tables } = self;
        Ok(List::from_vec(tables.into_values().collect(alloc)?))
    }
}
