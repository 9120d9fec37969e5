//! Witnesses with each fault, and the values of some that have none.

use super::*;
use column_store::Store;
use sqlite_items::at;
use std::alloc::Global;
use std::test::Fail;
use table_shape::{Shape, ceil_log, resolve, size_log};
use table_text::read_tables;
use tower_field::Tower;

/// The shape of a text of at most a mebibyte.
fn shape_of(alloc: Global, text: &[u8]) -> Result<Shape, Fail> {
    let tables = read_tables(alloc, &text[..text.len().min(1 << 20)])?;
    Ok(resolve(alloc, &tables)?)
}

/// A column of a bit, and one of 128 bits, one of 1 bit and one of 8 in two tables.
const BITS: &[u8] = b"table t { column a : b1; }";

const TWO: &[u8] = b"table t { column a : b128; } table u { column b : b1; column c : b8; }";

/// The number of a value, where there is one.
fn value_at(store: &Store, table: u32, column: u32, row: u32, index: u32) -> Option<u128> {
    let own = at(store.shape().tables(), table as usize)?;
    let shape = at(own.columns.as_slice(), column as usize)?;
    let rows = at(store.rows(), table as usize)?;
    let log_rows = ceil_log(u64::from(*rows));
    if log_rows > 20
        || row >= 1 << log_rows
        || shape.log_values > 7
        || index >= 1 << shape.log_values
    {
        return None;
    }
    Some(store.value(table, column, row, index).number())
}

#[test]
fn one_table_is_judged(rt: HostRuntime) -> Result<(), Fail> {
    let whole = WitnessPlace::Whole;
    let table = WitnessPlace::Table(0);
    let column = WitnessPlace::Column(0, 0);
    for (file, place, kind) in [
        ("{", whole, WitnessKind::NotJson),
        ("[]", whole, WitnessKind::NotAnObject),
        ("{}", table, WitnessKind::MissingTable),
        (r#"{"t":""}"#, table, WitnessKind::NotAnObject),
        (r#"{"t":{"a":""}}"#, table, WitnessKind::BadRows),
        (
            r#"{"t":{"rows":1.0,"a":"01"}}"#,
            table,
            WitnessKind::BadRows,
        ),
        (
            r#"{"t":{"rows":1e0,"a":"01"}}"#,
            table,
            WitnessKind::BadRows,
        ),
        (r#"{"t":{"rows":-0,"a":""}}"#, table, WitnessKind::BadRows),
        (r#"{"t":{"rows":-1,"a":""}}"#, table, WitnessKind::BadRows),
        (
            r#"{"t":{"rows":"1","a":"01"}}"#,
            table,
            WitnessKind::BadRows,
        ),
        (
            r#"{"t":{"rows":1048577,"a":""}}"#,
            table,
            WitnessKind::BadRows,
        ),
        (r#"{"t":{"rows":1}}"#, column, WitnessKind::MissingColumn),
        (r#"{"t":{"rows":1,"a":1}}"#, column, WitnessKind::NotAText),
        (r#"{"t":{"rows":1,"a":"1"}}"#, column, WitnessKind::BadHex),
        (r#"{"t":{"rows":1,"a":"0g"}}"#, column, WitnessKind::BadHex),
        (
            r#"{"t":{"rows":1,"a":""}}"#,
            column,
            WitnessKind::WrongLength,
        ),
        (
            r#"{"t":{"rows":0,"a":"00"}}"#,
            column,
            WitnessKind::WrongLength,
        ),
        (
            r#"{"t":{"rows":1,"a":"03"}}"#,
            column,
            WitnessKind::PaddingBits,
        ),
        (
            r#"{"t":{"rows":9,"a":"ff02"}}"#,
            column,
            WitnessKind::PaddingBits,
        ),
        (
            r#"{"t":{"rows":1,"a":"01","a":"03"}}"#,
            column,
            WitnessKind::PaddingBits,
        ),
        (
            r#"{"t":{"rows":1,"a":"01","z":0}}"#,
            table,
            WitnessKind::ExtraColumn,
        ),
        (
            r#"{"t":{"rows":1,"a":"01"},"u":{}}"#,
            whole,
            WitnessKind::ExtraTable,
        ),
    ] {
        let stop = read_witness(rt.alloc(), &shape_of(rt.alloc(), BITS)?, file.as_bytes()).err();
        assert_eq!(rt;
            stop,
            Some(WitnessStop::Fault(WitnessFault { place, kind })),
            "at {file}"
        );
    }
    let stop = read_witness(rt.alloc(), &shape_of(rt.alloc(), BITS)?, b"\xff").err();
    assert_eq!(rt;
        stop,
        Some(WitnessStop::Fault(WitnessFault {
            place: whole,
            kind: WitnessKind::NotJson
        }))
    );
    Ok(())
}

#[test]
fn two_tables_are_judged_in_order(rt: HostRuntime) -> Result<(), Fail> {
    for (file, place, kind) in [
        (
            r#"{"t":{"rows":1048576},"u":{"rows":-1}}"#,
            WitnessPlace::Table(1),
            WitnessKind::BadRows,
        ),
        (
            r#"{"t":{"rows":1,"z":0},"u":{"rows":1}}"#,
            WitnessPlace::Column(0, 0),
            WitnessKind::MissingColumn,
        ),
        (
            r#"{"t":{"rows":0,"a":""},"u":{"rows":1,"b":"01"}}"#,
            WitnessPlace::Column(1, 1),
            WitnessKind::MissingColumn,
        ),
    ] {
        let stop = read_witness(rt.alloc(), &shape_of(rt.alloc(), TWO)?, file.as_bytes()).err();
        assert_eq!(rt;
            stop,
            Some(WitnessStop::Fault(WitnessFault { place, kind })),
            "at {file}"
        );
    }
    Ok(())
}

#[test]
fn virtual_columns_have_no_member(rt: HostRuntime) -> Result<(), Fail> {
    let text = b"table t { column a : b1 x 2; virtual p = pack(a, 1); column c : b2; }";
    let shape = shape_of(rt.alloc(), text)?;
    for (file, place, kind) in [
        (
            r#"{"t":{"rows":1,"a":"03","p":"03","c":"00"}}"#,
            WitnessPlace::Table(0),
            WitnessKind::ExtraColumn,
        ),
        (
            r#"{"t":{"rows":1,"a":"03"}}"#,
            WitnessPlace::Column(0, 2),
            WitnessKind::MissingColumn,
        ),
    ] {
        let stop = read_witness(rt.alloc(), &shape, file.as_bytes()).err();
        assert_eq!(rt;
            stop,
            Some(WitnessStop::Fault(WitnessFault { place, kind })),
            "at {file}"
        );
    }
    let file = br#"{"t":{"rows":1,"a":"03","c":"02"}}"#;
    let store = read_witness(rt.alloc(), &shape, file)?;
    assert_eq!(rt; value_at(&store, 0, 1, 0, 0), Some(3));
    assert_eq!(rt; value_at(&store, 0, 2, 0, 0), Some(2));
    Ok(())
}

#[test]
fn sizes_above_the_limit(rt: HostRuntime) -> Result<(), Fail> {
    let file = br#"{"t":{"rows":1048576,"a":""}}"#;
    for (text, log_bits) in [
        ("table t { column a : b32; }", 25),
        ("table t { column a : b128 x 128; }", 34),
        ("table t { column a : b16; virtual b = linear(a); }", 25),
    ] {
        let stop = read_witness(rt.alloc(), &shape_of(rt.alloc(), text.as_bytes())?, file).err();
        assert_eq!(rt; stop, Some(WitnessStop::TooLarge { log_bits }));
    }
    let shape = shape_of(rt.alloc(), b"table t { column a : b16; }")?;
    let stop = read_witness(rt.alloc(), &shape, file).err();
    assert_eq!(rt;
        stop,
        Some(WitnessStop::Fault(WitnessFault {
            place: WitnessPlace::Column(0, 0),
            kind: WitnessKind::WrongLength
        }))
    );
    Ok(())
}

#[test]
fn values_at_rows_and_indices(rt: HostRuntime) -> Result<(), Fail> {
    for (text, file, row, index, value) in [
        ("b1", r#"{"t":{"rows":0,"a":""}}"#, 0, 0, 0),
        ("b1", r#"{"t":{"rows":3,"a":"07"}}"#, 2, 0, 1),
        ("b1", r#"{"t":{"rows":3,"a":"07"}}"#, 3, 0, 0),
        ("b1 x 4", r#"{"t":{"rows":3,"a":"0b08"}}"#, 0, 2, 0),
        ("b1 x 4", r#"{"t":{"rows":3,"a":"0b08"}}"#, 2, 3, 1),
        ("b2", r#"{"t":{"rows":2,"a":"0d"}}"#, 0, 0, 1),
        ("b2", r#"{"t":{"rows":2,"a":"0d"}}"#, 1, 0, 3),
        ("b4", r#"{"t":{"rows":3,"a":"2103"}}"#, 1, 0, 2),
        ("b4", r#"{"t":{"rows":3,"a":"2103"}}"#, 2, 0, 3),
        ("b8", r#"{"t":{"rows":2,"a":"aBFf"}}"#, 0, 0, 171),
        ("b16 x 2", r#"{"t":{"rows":1,"a":"01020304"}}"#, 0, 1, 1027),
        ("b32", r#"{"t":{"rows":1,"a":"04030201"}}"#, 0, 0, 16909060),
        (
            "b64",
            r#"{"t":{"rows":1,"a":"0000000000000080"}}"#,
            0,
            0,
            9223372036854775808,
        ),
        (
            "b128",
            r#"{"t":{"rows":1,"a":"00000000000000000100000000000000"}}"#,
            0,
            0,
            18446744073709551616,
        ),
    ] {
        let text = format!(in rt.alloc(); "table t {{ column a : {text}; }}")?;
        let shape = shape_of(rt.alloc(), text.as_bytes())?;
        let store = read_witness(rt.alloc(), &shape, file.as_bytes())?;
        assert_eq!(rt;
            value_at(&store, 0, 0, row, index),
            Some(value),
            "at {file}"
        );
        assert_eq!(rt; value_at(&store, 0, 1, row, index), None);
        assert_eq!(rt; value_at(&store, 0, 0, 1 << 20, 0), None);
    }
    Ok(())
}

#[test]
fn a_store_keeps_shape_and_rows(rt: HostRuntime) -> Result<(), Fail> {
    let file = br#"{"u":{"rows":3,"b":"05","c":"0a0b0c"},"t":{"a":"","rows":0}}"#;
    let store = read_witness(rt.alloc(), &shape_of(rt.alloc(), TWO)?, file)?;
    assert_eq!(rt; store.rows(), [0, 3].as_slice());
    assert_eq!(rt; store.shape().tables().len(), 2);
    assert_eq!(rt; size_log(store.shape(), store.rows()), 8);
    assert_eq!(rt; value_at(&store, 1, 1, 1, 0), Some(11));
    Ok(())
}
