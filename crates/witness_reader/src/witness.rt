//! The reader of a witness file.

ghost use Rattle.table_text.specs.Limits.{max_level, max_log_values};
ghost use Rattle.table_shape.specs.Limits.{max_tables, max_columns, max_rows};
ghost use Rattle.std.specs.Prelude.{◌≡◌, ◌≢◌, ◌&&◌, ◌+◌, ◌/◌, ◌^◌, ◌∷◌, ◌<◌, ◌≤◌, ℕ, List, [], codes, length, map, nat_lt, option_map, slice_get, slice_index, slice_index_or, slice_set, IfOk, Ok, Err, Some};
ghost use Rattle.std.specs.List.{list_any};
ghost use Rattle.std.specs.Str.{bytes_eq};
ghost use Rattle.serde_json.specs.Data.{Members};
ghost use Rattle.serde_json.specs.Find.{get_member};
ghost use Rattle.serde_json.specs.View.{view, members_view};
ghost use Rattle.witness_reader.specs.declared.fault.WitnessPlace.TheVariants.{Whole};
ghost use Rattle.witness_reader.specs.declared.fault.WitnessKind.TheVariants.{NotJson, BadHex};
ghost use Rattle.witness_reader.specs.declared.fault.WitnessStop.{WitnessStop};
ghost use Rattle.witness_reader.specs.declared.fault.WitnessStop.TheVariants.{Fault, NoMemory};
ghost use Rattle.column_store.specs.Digits.{number_of_bytes};
ghost use Rattle.table_shape.specs.Filling.{IsFilling};
ghost use Rattle.witness_reader.specs.WitnessMeaning.{IsReadWhereGiven};
ghost use Rattle.witness_reader.specs.WitnessGives.{Gives};
ghost use Rattle.table_shape.specs.Fits.{AreSized, TableFits};
ghost use Rattle.table_shape.specs.Shape.{table_names};
ghost use Rattle.table_shape.specs.declared.shape.TableShape.{TableShape as Table};
ghost use Rattle.witness_reader.specs.Witness.{IsOf, column_bytes, columns_bytes, committed_names, given_bytes, is_committed, has_other, hex_bytes, json_of, object_of, objects_of, or_refuse, rows_of, rows_of_tables, table_bytes, tables_bytes, witness_of};
ghost use Rattle.column_store.specs.Spelled.{all_values, table_values, written_bits};
ghost use Rattle.column_store.specs.Column.{lists};
ghost use Rattle.column_store.specs.Draft.{zero_columns, zero_tables};
ghost use Rattle.witness_reader.specs.Putting.{AreColumnsSpelled, AreTablesSpelled};

use crate::fault::{WitnessFault, WitnessKind, WitnessPlace, WitnessStop};
use column_store::{Draft, Store, spells_bits, written_bits};
use hex::FromHexError;
use serde_json::{Map, Value};
use sqlite_items::Items;
use std::alloc::Global;
use std::str;
use table_shape::{ColumnKind, ColumnShape, MAX_ROWS, Shape, SizeStop, TableShape};

/// The values that a witness file gives to the columns of tables, or its first fault.
///
/// The last of equal members of an object counts.
pub fn read_witness(alloc: Global, shape: &Shape, file: &[u8]) -> Result<Store, WitnessStop>
    ensures found { IfOk result (λ store. (store.shape ≡ shape.now) × IsOf shape.now.tables file.now store.rows store.filling) }
    ensures fills { IfOk result (λ store. IsFilling store.shape.tables store.rows store.filling) }
    ensures refused { (stop : WitnessStop) → result ≡ Err stop → stop ≢ WitnessStop.NoMemory → witness_of shape.now.tables file.now ≡ Err stop }
{
    let (mut draft, bytes) = witness_of(alloc, shape, file)?;
    put_tables(&mut draft, shape.tables(), bytes.as_slice());
    Ok(draft.fill())
}

/// What it means that a witness is read: the file has an object for each table, with its rows and
/// the bytes of each committed column, and nothing else.
pub fn read_where_given()
    ensures { IsReadWhereGiven }
{}

type TableBytes = Items<Items<u8>>;

/// A draft of zeros on the rows of the tables, and the bytes of their columns.
fn witness_of(
    alloc: Global,
    shape: &Shape,
    file: &[u8],
) -> Result<(Draft, Items<TableBytes>), WitnessStop>
    ensures given { Gives (λ w. record { rows = w.0.rows; bytes = w.1 }) result (witness_of shape.now.tables file.now) }
    ensures begun { IfOk result (λ w. w.0 ≡ record { shape = shape.now; rows = w.0.rows; values = zero_tables shape.now.tables w.0.rows }) }
{
    let json = json_of(alloc, file)?;
    let Some(whole) = json.as_object() else {
        return Err(refused(WitnessPlace::Whole, WitnessKind::NotAnObject));
    };
    let rows = rows_of_tables(alloc, shape.tables(), whole)?;
    let draft = match Draft::new(alloc, shape, rows.as_slice()) {
        Ok(draft) => draft,
        Err(SizeStop::TooLarge { log_bits }) => return Err(WitnessStop::TooLarge { log_bits }),
        Err(SizeStop::NoMemory) => return Err(WitnessStop::NoMemory),
    };
    let bytes = tables_bytes(alloc, shape.tables(), whole)?;
    if has_other_table(shape.tables(), whole) {
        return Err(refused(WitnessPlace::Whole, WitnessKind::ExtraTable));
    }
    Ok((draft, bytes))
}

/// Puts the bytes of all committed columns into a draft of zeros.
fn put_tables(draft: &mut Draft, tables: &[TableShape], bytes: &[TableBytes])
    requires shape { draft.old.shape.tables ≡ tables.now }
    requires few { length tables.now ≤ max_tables }
    requires fit { (t : ℕ) (table : Table) → slice_get tables.now t ≡ Some table → TableFits table }
    requires spelled { AreTablesSpelled tables.now draft.old.rows bytes.now }
    requires zero { draft.old.values ≡ zero_tables tables.now draft.old.rows }
    ensures { draft.new ≡ record draft.old { values = all_values tables.now draft.old.rows bytes.now } }
{
    for (t, table) in tables.iter().enumerate() {
        put_columns(draft, t as u32, table, bytes[t].as_slice());
    }
}

/// Puts those of a table's committed columns, which are zero.
fn put_columns(draft: &mut Draft, t: u32, table: &TableShape, bytes: &[Items<u8>])
    requires table { slice_get draft.old.shape.tables t ≡ Some table.now }
    requires few { length table.now.columns ≤ max_columns }
    requires place { t < length draft.old.values }
    requires spelled { AreColumnsSpelled (slice_index draft.old.rows t) table.now.columns bytes.now }
    requires zero { slice_index_or draft.old.values t [] ≡ lists (zero_columns (slice_index draft.old.rows t) table.now.columns) }
    ensures { draft.new ≡ record draft.old { values = slice_set draft.old.values t (table_values (slice_index draft.old.rows t) table.now.columns bytes.now) } }
{
    let columns = table.columns.as_slice();
    for c in 0..columns.len() {
        if is_committed(&columns[c]) {
            draft.put_bits(t, c as u32, bytes[c].as_slice());
        }
    }
}

fn is_committed(column: &ColumnShape) -> bool
    ensures { result ≡ is_committed column.now.kind }
{
    match column.kind {
        ColumnKind::Committed => true,
        ColumnKind::Virtual(_) => false,
    }
}

fn refused(place: WitnessPlace, kind: WitnessKind) -> WitnessStop
    ensures { result ≡ Fault (record { place = place; kind = kind }) }
{
    WitnessStop::Fault(WitnessFault { place, kind })
}

fn json_of(alloc: Global, file: &[u8]) -> Result<Value, WitnessStop>
    ensures { Gives view result (or_refuse Whole NotJson (json_of file.now)) }
{
    let Ok(text) = str::from_utf8(file) else {
        return Err(refused(WitnessPlace::Whole, WitnessKind::NotJson));
    };
    match Value::from_str(alloc, text) {
        Ok(json) => Ok(json),
        Err(e) => if e.is_memory() {
            Err(WitnessStop::NoMemory)
        } else {
            Err(refused(WitnessPlace::Whole, WitnessKind::NotJson))
        },
    }
}

/// The member of this name. Each name in an object is text.
fn member<'a>(object: &'a Map<String, Value>, name: &[u8]) -> Option<&'a Value>
    ensures { option_map (λ v. view v.now) result ≡ get_member name.now (members_view object.now.entries) }
{
    let Ok(name) = str::from_utf8(name) else {
        return None;
    };
    object.get(name)
}

fn rows_of(object: &Map<String, Value>) -> Option<u32>
    ensures { result ≡ rows_of (members_view object.now.entries) }
{
    let rows = member(object, b"rows")?.as_u64()?;
    if rows <= u64::from(MAX_ROWS) {
        Some(rows as u32)
    } else {
        None
    }
}

/// The object of table `t`, and its number of rows.
fn object_of<'a>(
    t: u32,
    table: &TableShape,
    whole: &'a Map<String, Value>,
) -> Result<(&'a Map<String, Value>, u32), WitnessStop>
    ensures object { Gives (λ o. (members_view o.0.now.entries, o.1)) result (object_of t table.now (members_view whole.now.entries)) }
    ensures few { IfOk result (λ o. o.1 ≤ max_rows) }
{
    let place = WitnessPlace::Table(t);
    let Some(found) = member(whole, table.name.as_slice()) else {
        return Err(refused(place, WitnessKind::MissingTable));
    };
    let Some(object) = found.as_object() else {
        return Err(refused(place, WitnessKind::NotAnObject));
    };
    let Some(rows) = rows_of(object) else {
        return Err(refused(place, WitnessKind::BadRows));
    };
    Ok((object, rows))
}

fn rows_of_tables(
    alloc: Global,
    tables: &[TableShape],
    whole: &Map<String, Value>,
) -> Result<Items<u32>, WitnessStop>
    requires { length tables.now ≤ max_tables }
    ensures { Gives (λ rows. rows) result (rows_of_tables tables.now (members_view whole.now.entries)) }
{
    let mut all = Items::new(alloc);
    for (t, table) in tables.iter().enumerate() {
        let (_, rows) = object_of(t as u32, table, whole)?;
        all.push(rows)?;
    }
    Ok(all)
}

/// The bytes of all columns of the tables, whose objects and rows are without fault.
fn tables_bytes(
    alloc: Global,
    tables: &[TableShape],
    whole: &Map<String, Value>,
) -> Result<Items<TableBytes>, WitnessStop>
    requires few { length tables.now ≤ max_tables }
    requires fit { (t : ℕ) (table : Table) → slice_get tables.now t ≡ Some table → TableFits table }
    ensures { (objects : List (Members × ℕ)) → objects_of 0 tables.now (members_view whole.now.entries) ≡ Ok objects
        → Gives (λ bytes. bytes) result (tables_bytes 0 tables.now objects) }
{
    let mut all = Items::new(alloc);
    for (t, table) in tables.iter().enumerate() {
        let (object, rows) = object_of(t as u32, table, whole)?;
        let bytes = table_bytes(alloc, t as u32, table, rows, object)?;
        all.push(bytes)?;
    }
    Ok(all)
}

fn table_bytes(
    alloc: Global,
    t: u32,
    table: &TableShape,
    rows: u32,
    object: &Map<String, Value>,
) -> Result<TableBytes, WitnessStop>
    requires fit { TableFits table.now }
    requires rows_few { rows ≤ max_rows }
    ensures { Gives (λ bytes. bytes) result (table_bytes t table.now (members_view object.now.entries, rows)) }
{
    let bytes = columns_bytes(alloc, t, rows, table.columns.as_slice(), object)?;
    if has_other_column(table.columns.as_slice(), object) {
        return Err(refused(WitnessPlace::Table(t), WitnessKind::ExtraColumn));
    }
    Ok(bytes)
}

fn columns_bytes(
    alloc: Global,
    t: u32,
    rows: u32,
    columns: &[ColumnShape],
    object: &Map<String, Value>,
) -> Result<TableBytes, WitnessStop>
    requires few { length columns.now ≤ max_columns }
    requires sized { AreSized columns.now }
    requires rows_few { rows ≤ max_rows }
    ensures { Gives (λ bytes. bytes) result (columns_bytes t 0 rows columns.now (members_view object.now.entries)) }
{
    let mut all = Items::new(alloc);
    for (c, column) in columns.iter().enumerate() {
        let bytes = given_bytes(alloc, t, c as u32, rows, column, object)?;
        all.push(bytes)?;
    }
    Ok(all)
}

/// The bytes that a column is given: a virtual one has none.
fn given_bytes(
    alloc: Global,
    t: u32,
    c: u32,
    rows: u32,
    column: &ColumnShape,
    object: &Map<String, Value>,
) -> Result<Items<u8>, WitnessStop>
    requires rows_few { rows ≤ max_rows }
    requires level { column.now.level ≤ max_level }
    requires values { column.now.log_values ≤ max_log_values }
    ensures { Gives (λ bytes. bytes) result (given_bytes t c rows column.now (members_view object.now.entries) column.now.kind) }
{
    match column.kind {
        ColumnKind::Committed => column_bytes(alloc, t, c, rows, column, object),
        ColumnKind::Virtual(_) => Ok(Items::new(alloc)),
    }
}

fn column_bytes(
    alloc: Global,
    t: u32,
    c: u32,
    rows: u32,
    column: &ColumnShape,
    object: &Map<String, Value>,
) -> Result<Items<u8>, WitnessStop>
    requires rows_few { rows ≤ max_rows }
    requires level { column.now.level ≤ max_level }
    requires values { column.now.log_values ≤ max_log_values }
    ensures { Gives (λ bytes. bytes) result (column_bytes t c rows column.now (members_view object.now.entries)) }
{
    let place = WitnessPlace::Column(t, c);
    let Some(found) = member(object, column.name.as_slice()) else {
        return Err(refused(place, WitnessKind::MissingColumn));
    };
    let Some(text) = found.as_str() else {
        return Err(refused(place, WitnessKind::NotAText));
    };
    let bytes = hex_bytes(alloc, place, text)?;
    let bits = written_bits(rows, column);
    if bytes.len() as u64 != (bits + 7) / 8 {
        return Err(refused(place, WitnessKind::WrongLength));
    }
    if !spells_bits(bytes.as_slice(), bits) {
        return Err(refused(place, WitnessKind::PaddingBits));
    }
    Ok(bytes)
}

fn hex_bytes(alloc: Global, place: WitnessPlace, text: &str) -> Result<Items<u8>, WitnessStop>
    ensures { Gives (λ bytes. bytes) result (or_refuse place BadHex (hex_bytes text.now)) }
{
    match hex::decode(alloc, text) {
        Ok(bytes) => Ok(Items::from_vec(bytes)),
        Err(FromHexError::OutOfMemory) => Err(WitnessStop::NoMemory),
        Err(_) => Err(refused(place, WitnessKind::BadHex)),
    }
}

fn has_other_column(columns: &[ColumnShape], object: &Map<String, Value>) -> bool
    ensures { result ≡ has_other (codes "rows" ∷ committed_names columns.now) (members_view object.now.entries) }
{
    object.keys().any(|key| !is_column(columns, key.as_bytes()))
}

fn is_column(columns: &[ColumnShape], key: &[u8]) -> bool
    ensures { result ≡ list_any (bytes_eq key.now) (codes "rows" ∷ committed_names columns.now) }
{
    key == b"rows".as_slice() || columns.iter().any(|column| is_given_as(column, key))
}

/// Whether a column is committed and has this name.
fn is_given_as(column: &ColumnShape, name: &[u8]) -> bool
    ensures { result ≡ (is_committed column.now.kind && bytes_eq name.now column.now.name) }
{
    is_committed(column) && name == column.name.as_slice()
}

fn has_other_table(tables: &[TableShape], whole: &Map<String, Value>) -> bool
    ensures { result ≡ has_other (table_names tables.now) (members_view whole.now.entries) }
{
    whole.keys().any(|key| !is_table(tables, key.as_bytes()))
}

fn is_table(tables: &[TableShape], key: &[u8]) -> bool
    ensures { result ≡ list_any (bytes_eq key.now) (table_names tables.now) }
{
    tables.iter().any(|table| key == table.name.as_slice())
}
