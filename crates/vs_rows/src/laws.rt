//! What the definitions keep to, as contracts of functions that do nothing.
ghost use Rattle.std.specs.Prelude.{◌≡◌, ◌≢◌, ◌↔◌, ◌∷◌, ◌++◌, [], List as Items, ℕ, Some};
ghost use Rattle.vs_base.specs.declared.change.Change.{Change};
ghost use Rattle.vs_schema.specs.declared.schema.Schema.{Schema};
ghost use Rattle.vs_rows.specs.Columns.{typed_columns};
ghost use Rattle.vs_rows.specs.Grammar.{AreRows, AreTyped, IsRowsEvent, IsTableMap};
ghost use Rattle.vs_rows.specs.Layouts.{MapSaid, RowsSaid, map_body, rows_body};
ghost use Rattle.vs_rows.specs.Rows.{changes_in};
ghost use Rattle.vs_rows.specs.Tables.{
  Tables,
  or_same,
  table_at,
  tables_behind,
  with_map,
  with_table,
};
ghost use Rattle.vs_rows.specs.declared.columns.TypedColumn.{TypedColumn};
ghost use Rattle.vs_rows.specs.declared.kind.RowsKind.{RowsKind};
ghost use Rattle.vs_rows.specs.declared.table.Mapped.{Mapped};
ghost use Rattle.vs_rows.specs.declared.table.RowTable.{RowTable};

/// A body is read as a table map, or up to its rows as a rows event, exactly where its bytes are the
/// fields of one, in order. So it says one thing at most.
pub fn law_layouts()
    ensures map { (body : Items ℕ) → (said : MapSaid) → (map_body body ≡ Some said) ↔ IsTableMap body said }
    ensures rows { (kind : RowsKind) → (body : Items ℕ) → (said : RowsSaid) → (rows_body kind body ≡ Some said) ↔ IsRowsEvent kind body said }
{}

/// The types and the metadata of a table map are those of columns exactly where each type has its own
/// piece, and the pieces are all of the metadata.
pub fn law_columns()
    ensures { (types metadata : Items ℕ) → (columns : Items TypedColumn) → (typed_columns types metadata ≡ Some columns) ↔ AreTyped types metadata columns }
{}

/// Bytes are read as rows of a table exactly where they are the rows' bytes, one behind the other.
pub fn law_rows()
    ensures { (kind : RowsKind) → (table : RowTable) → (bytes : Items ℕ) → (changes : Items Change) → (changes_in kind table bytes ≡ Some changes) ↔ AreRows kind table bytes changes }
{}

/// A table map counts for its number until another one of it comes, and for no other number.
pub fn law_tables()
    ensures there { (tables : Tables) → (id : ℕ) → (mapped : Mapped) → table_at (with_table tables id mapped) id ≡ Some mapped }
    ensures others { (tables : Tables) → (id other : ℕ) → (mapped : Mapped) → other ≢ id → table_at (with_table tables id mapped) other ≡ table_at tables other }
    ensures behind { (keyspace : Items ℕ) → (schema : Schema) → (tables : Tables) → (bodies : Items (Items ℕ)) → (body : Items ℕ) → tables_behind keyspace schema tables (bodies ++ body ∷ []) ≡ or_same (tables_behind keyspace schema tables bodies) (with_map keyspace schema (tables_behind keyspace schema tables bodies) body) }
{}
