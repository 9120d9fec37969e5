//! Shapes of texts, with their names, copies and sizes.

use sqlite_items::at;
use std::alloc::{AllocError, Global};
use std::process::Abort;
use std::test::Fail;
use table_shape::{Shape, ShapeFault, ShapeKind, ShapeStop, resolve};
use table_text::{Side, read_tables};

const TWO: &[u8] =
    b"table t { column a : b1; column b : b8; zero z : a*b + 1; zero y : b*b*b; } table u { column c : b128; }";

/// Whether a channel of this number has this name.
fn is_channel(shape: &Shape, channel: u32, name: &[u8]) -> bool {
    let Some(_) = at(shape.channels(), channel as usize) else {
        return false;
    };
    shape.channel_name(channel).as_slice() == name
}

/// Whether a table of this number has this name.
fn is_table(shape: &Shape, table: u32, name: &[u8]) -> bool {
    let Some(_) = at(shape.tables(), table as usize) else {
        return false;
    };
    shape.table_name(table).as_slice() == name
}

/// Whether a column of this number has this name.
fn is_column(shape: &Shape, table: u32, column: u32, name: &[u8]) -> bool {
    let Some(found) = at(shape.tables(), table as usize) else {
        return false;
    };
    let Some(_) = at(found.columns.as_slice(), column as usize) else {
        return false;
    };
    shape.column_name(table, column).as_slice() == name
}

/// Whether a constraint of this number has this name and this degree.
fn is_constraint(shape: &Shape, table: u32, constraint: u32, name: &[u8], degree: u32) -> bool {
    let Some(found) = at(shape.tables(), table as usize) else {
        return false;
    };
    let Some(own) = at(found.constraints.as_slice(), constraint as usize) else {
        return false;
    };
    own.degree == degree && shape.constraint_name(table, constraint).as_slice() == name
}

#[test]
fn names_and_copies(rt: HostRuntime) -> Result<(), Fail> {
    let tables = read_tables(rt.alloc(), TWO)?;
    let shape = resolve(rt.alloc(), &tables)?;
    let copy = shape.copy(rt.alloc())?;
    for shape in [&shape, &copy] {
        assert!(rt; is_table(shape, 0, b"t") && is_table(shape, 1, b"u"));
        assert!(rt; is_column(shape, 0, 1, b"b") && is_column(shape, 1, 0, b"c"));
        assert!(rt; is_constraint(shape, 0, 0, b"z", 2) && is_constraint(shape, 0, 1, b"y", 3));
    }
    Ok(())
}

fn resolved(rt: &(impl Abort + AllocGlobal), text: &[u8]) -> Result<Shape, ShapeStop> {
    assert!(rt; text.len() < 1 << 32);
    match read_tables(rt.alloc(), text) {
        Ok(tables) => resolve(rt.alloc(), &tables),
        Err(_) => panic!(rt; "not read"),
    }
}

fn fault(item: u32, kind: ShapeKind) -> ShapeStop {
    ShapeStop::Fault(ShapeFault { item, kind })
}

#[test]
fn first_faults(rt: HostRuntime) -> Result<(), Fail> {
    for (text, item, kind) in [
        ("table t { } table t { }", 1, ShapeKind::DoubleName),
        (
            "table t { column a : b1; column a : b8; }",
            2,
            ShapeKind::DoubleName,
        ),
        (
            "table t { column a : b1; virtual a = pack(c, 9); }",
            2,
            ShapeKind::DoubleName,
        ),
        (
            "table t { virtual v = shl(v, 0, 0); }",
            1,
            ShapeKind::UnknownName,
        ),
        (
            "table t { virtual v = pack(a, 9); column a : b1; }",
            1,
            ShapeKind::UnknownName,
        ),
        (
            "table t { column a : b1; virtual v = linear(a + c + a); }",
            2,
            ShapeKind::UnknownName,
        ),
        (
            "table t { column a : b1; column b : b1 x 2; virtual v = linear(a + b + a); }",
            3,
            ShapeKind::RepeatedTerm,
        ),
        (
            "table t { column a : b1; column b : b1 x 2; virtual v = linear(a + b); }",
            3,
            ShapeKind::UnequalWidth,
        ),
        (
            "table t { column a : b1 x 4; virtual v = shl(a, 3, 8); }",
            2,
            ShapeKind::BlockTooLong,
        ),
        (
            "table t { column a : b1 x 4; virtual v = shr(a, 4294967296, 0); }",
            2,
            ShapeKind::BlockTooLong,
        ),
        (
            "table t { column a : b1 x 4; virtual v = rol(a, 2, 4); }",
            2,
            ShapeKind::OffsetOutOfRange,
        ),
        (
            "table t { column a : b1 x 4; virtual v = shl(a, 0, 4294967296); }",
            2,
            ShapeKind::OffsetOutOfRange,
        ),
        (
            "table t { column a : b1 x 4; virtual v = project(a, 3, 0); }",
            2,
            ShapeKind::BlockTooLong,
        ),
        (
            "table t { column a : b1 x 4; virtual v = project(a, 1, 2); }",
            2,
            ShapeKind::OffsetOutOfRange,
        ),
        (
            "table t { column a : b64 x 2; virtual v = pack(a, 2); }",
            2,
            ShapeKind::BlockTooLong,
        ),
        (
            "table t { column a : b64 x 4; virtual v = pack(a, 2); }",
            2,
            ShapeKind::LevelTooHigh,
        ),
        (
            "table t { column a : b1; column b : b1 x 2; zero z : a*a*a*a*a*a*a*a*b; }",
            3,
            ShapeKind::UnequalWidth,
        ),
        (
            "table t { column a : b1; zero z : a*a*a*a*a*a*a*a*a; }",
            2,
            ShapeKind::DegreeTooHigh,
        ),
        ("channel c : 0;", 0, ShapeKind::TupleWidth),
        ("channel c : 17;", 0, ShapeKind::TupleWidth),
        ("channel c : 4294967297;", 0, ShapeKind::TupleWidth),
        ("channel c : 1; channel c : 0;", 1, ShapeKind::DoubleName),
        (
            "boundary push c (1); channel c : 1;",
            0,
            ShapeKind::UnknownName,
        ),
        (
            "channel c : 2; boundary pull c (1);",
            1,
            ShapeKind::TupleWidth,
        ),
        (
            "channel c : 2; boundary pull c (1, 2, 3);",
            1,
            ShapeKind::TupleWidth,
        ),
        (
            "table t { column a : b1; push c (a); } channel c : 1;",
            2,
            ShapeKind::UnknownName,
        ),
        (
            "channel c : 1; table t { column a : b1 x 2; push d (a, a); }",
            3,
            ShapeKind::UnknownName,
        ),
        (
            "channel c : 1; table t { column a : b1 x 2; push c (a, b); }",
            3,
            ShapeKind::UnknownName,
        ),
        (
            "channel c : 1; table t { column a : b1 x 2; push c (a, a) if b; }",
            3,
            ShapeKind::UnknownName,
        ),
        (
            "channel c : 1; table t { column a : b1 x 2; push c (a, a) if a; }",
            3,
            ShapeKind::TupleWidth,
        ),
        (
            "channel c : 1; table t { column a : b1 x 2; push c (a) if a; }",
            3,
            ShapeKind::NotOneValue,
        ),
        (
            "channel c : 1; table t { column a : b1; column b : b2; push c (a) if b; }",
            4,
            ShapeKind::SelectorNotBit,
        ),
        (
            "channel c : 1; table t { column a : b1; column b : b1 x 2; pull c (a) if b; }",
            4,
            ShapeKind::SelectorNotBit,
        ),
    ] {
        match resolved(&rt, text.as_bytes()) {
            Ok(_) => panic!(rt; "a shape of {text}"),
            Err(stop) => assert_eq!(rt; stop, fault(item, kind), "at {text}"),
        }
    }
    Ok(())
}

/// A table with two columns of 8 values per row, and a virtual one of this form.
fn with_form(alloc: Global, form: &[u8]) -> Result<Vec<u8>, AllocError> {
    let mut text = Vec::from_slice(
        alloc,
        b"table t { column a : b4 x 8; column b : b1 x 8; virtual v = ",
    )?;
    text.extend_from_slice(form)?;
    text.extend_from_slice(b"; }")?;
    Ok(text)
}

#[test]
fn sizes_of_forms(rt: HostRuntime) -> Result<(), Fail> {
    for (form, level, log_values) in [
        ("shl(a, 3, 7)", 2, 3),
        ("shr(b, 0, 0)", 0, 3),
        ("rol(a, 2, 3)", 2, 3),
        ("pack(a, 3)", 5, 0),
        ("pack(b, 2)", 2, 1),
        ("project(a, 2, 3)", 2, 1),
        ("linear(b)", 0, 3),
        ("linear(a + b)", 2, 3),
        ("linear(15 + a)", 2, 3),
        ("linear(16 + b)", 3, 3),
        ("linear(255 + 65536 * b + a)", 5, 3),
        ("linear(18446744073709551616 * b)", 7, 3),
    ] {
        let text = with_form(rt.alloc(), form.as_bytes())?;
        let shape = resolved(&rt, text.as_slice())?;
        let [table] = shape.tables() else {
            panic!(rt; "not one table")
        };
        let [_, _, column] = table.columns.as_slice() else {
            panic!(rt; "not three columns")
        };
        assert_eq!(rt;
            (column.level, column.log_values),
            (level, log_values),
            "at {form}"
        );
    }
    Ok(())
}

/// A table with this many columns, and then the sum of this many of them.
fn summed(alloc: Global, columns: u32, terms: u32) -> Result<Vec<u8>, AllocError> {
    let mut text = Vec::from_slice(alloc, b"table t { ")?;
    for column in 0..columns {
        text.extend_from_slice(format!(in alloc; "column c{column} : b1; ")?.as_bytes())?;
    }
    text.extend_from_slice(b"virtual v = linear(0")?;
    for term in 0..terms {
        text.extend_from_slice(format!(in alloc; " + c{term}")?.as_bytes())?;
    }
    text.extend_from_slice(b"); }")?;
    Ok(text)
}

#[test]
fn limits(rt: HostRuntime) -> Result<(), Fail> {
    for (columns, terms, within) in [
        (64, 64, true),
        (65, 65, false),
        (255, 1, true),
        (256, 1, false),
    ] {
        let text = summed(rt.alloc(), columns, terms)?;
        match resolved(&rt, text.as_slice()) {
            Ok(_) => assert!(rt; within),
            Err(stop) => {
                assert!(rt; !within);
                assert_eq!(rt; stop, fault(columns + 1, ShapeKind::TooMany));
            }
        }
    }
    Ok(())
}

/// A text that repeats a piece between two others, with its number where the piece has a `#`.
fn repeated(
    alloc: Global,
    before: &str,
    piece: &str,
    count: u32,
    after: &str,
) -> Result<Vec<u8>, AllocError> {
    let mut text = Vec::from_slice(alloc, before.as_bytes())?;
    for number in 0..count {
        for &byte in piece.as_bytes() {
            if byte == b'#' {
                text.extend_from_slice(format!(in alloc; "{number}")?.as_bytes())?;
            } else {
                text.push(byte)?;
            }
        }
    }
    text.extend_from_slice(after.as_bytes())?;
    Ok(text)
}

#[test]
fn limits_of_channels(rt: HostRuntime) -> Result<(), Fail> {
    for (before, piece, after, most, first) in [
        ("", "channel c# : 1; ", "", 64, 0),
        ("channel c : 1; ", "boundary push c (#); ", "", 4096, 1),
        (
            "channel c : 1; table t { column a : b1; ",
            "pull c (a); ",
            "}",
            64,
            3,
        ),
    ] {
        let text = repeated(rt.alloc(), before, piece, most, after)?;
        let _ = resolved(&rt, text.as_slice())?;
        let text = repeated(rt.alloc(), before, piece, most + 1, after)?;
        match resolved(&rt, text.as_slice()) {
            Ok(_) => panic!(rt; "more than {most} times {piece}"),
            Err(stop) => assert_eq!(rt; stop, fault(first + most, ShapeKind::TooMany)),
        }
    }
    Ok(())
}

/// Sums of two 32-bit numbers, pulled as they are pushed.
const SUMS: &[u8] = b"channel sums : 3;
boundary pull sums (1, 2, 3);
boundary pull sums (0xffffffff, 1, 0);
boundary pull sums (0, 0, 0);
table adder {
  column a : b1 x 32;
  column b : b1 x 32;
  column cout : b1 x 32;
  virtual cin = shl(cout, 5, 1);
  virtual sum = linear(a + b + cin);
  virtual a32 = pack(a, 5);
  virtual b32 = pack(b, 5);
  virtual s32 = pack(sum, 5);
  zero carry : (a + cin) * (b + cin) + cin + cout;
  push sums (a32, b32, s32);
}
";

/// SHA-256 of that text with `4294967295` in place of `0xffffffff`.
const SUMS_DIGEST: [u8; 32] = [
    0x92, 0x7e, 0x78, 0xd5, 0xeb, 0xdc, 0xf3, 0x9a, 0xc2, 0x03, 0xd8, 0x90, 0xf1, 0x56, 0x97, 0xd7,
    0x27, 0x8b, 0xc8, 0xf8, 0x4e, 0x99, 0xf8, 0xe6, 0x2d, 0x43, 0x6a, 0xc2, 0x79, 0xc9, 0x87, 0xef,
];

#[test]
fn digest_of_the_canonical_text(rt: HostRuntime) -> Result<(), Fail> {
    let shape = resolved(&rt, SUMS)?;
    assert_eq!(rt; shape.digest(), SUMS_DIGEST);
    assert_eq!(rt; shape.copy(rt.alloc())?.digest(), SUMS_DIGEST);
    Ok(())
}

#[test]
fn channels_boundaries_and_flushes(rt: HostRuntime) -> Result<(), Fail> {
    let text = b"channel t : 2; channel u : 1; boundary pull u (7);
        table t { column a : b1; column b : b64; pull t (b, a) if a; push t (b, b); }";
    let shape = resolved(&rt, text)?;
    let [t, u] = shape.channels() else {
        panic!(rt; "not two channels")
    };
    assert_eq!(rt; (t.width, u.width), (2, 1));
    assert!(rt; is_channel(&shape, 0, b"t") && is_channel(&shape, 1, b"u"));
    let [boundary] = shape.boundaries() else {
        panic!(rt; "not one boundary")
    };
    assert_eq!(rt; (boundary.side, boundary.channel), (Side::Pull, 1));
    let [table] = shape.tables() else {
        panic!(rt; "not one table")
    };
    let [some, each] = table.flushes.as_slice() else {
        panic!(rt; "not two flushes")
    };
    assert_eq!(rt; (some.channel, some.selector), (0, Some(0)));
    assert_eq!(rt; some.columns.as_slice(), [1, 0].as_slice());
    assert_eq!(rt; (each.channel, each.selector), (0, None));
    assert_eq!(rt; each.columns.as_slice(), [1, 1].as_slice());
    Ok(())
}
