//! Runs over files in memory, each with its status and all that it puts.

use byte_ends::{MemShelf, MemSink};
use m3_tool::{HELP, Status, run};
use std::alloc::{AllocError, Global};
use std::process::Abort;
use std::test::Fail;

pub(super) struct Case {
    pub tables: &'static str,
    pub witness: &'static str,
    pub status: Status,
    pub text: &'static str,
}

const BITS: &str = "table t { column a : b1; zero z : a*a + a; }";

/// A statement of two tables, and one whose second table is violated at its second row.
const TWO: &str =
    "table t { column a : b1; } table u { column b : b1; zero z : (b + 1)*b; zero y : b; }";

static CHECKS: [Case; 65] = [
    // Satisfied and violated.
    Case {
        tables: BITS,
        witness: r#"{"t":{"rows":1,"a":"01"}}"#,
        status: Status::Yes,
        text: "satisfied\n",
    },
    Case {
        tables: "table t { column a : b2; zero z : a*a + a; }",
        witness: r#"{"t":{"rows":1,"a":"02"}}"#,
        status: Status::No,
        text: "violated: table t, zero z, row 0, index 0, value 0x1\n",
    },
    Case {
        tables: "table t { column a : b128; zero z : a*a + 0x1000000000000000000000001; }",
        witness: r#"{"t":{"rows":1,"a":"00000000000000000100000000000000"}}"#,
        status: Status::Yes,
        text: "satisfied\n",
    },
    Case {
        tables: "table t { column a : b128; zero z : a*a; }",
        witness: r#"{"t":{"rows":1,"a":"00000000000000000100000000000000"}}"#,
        status: Status::No,
        text: "violated: table t, zero z, row 0, index 0, value 0x1000000000000000000000001\n",
    },
    Case {
        tables: "table t { zero z : 1; }",
        witness: r#"{"t":{"rows":0}}"#,
        status: Status::Yes,
        text: "satisfied\n",
    },
    Case {
        tables: "table t { zero z : 1; }",
        witness: r#"{"t":{"rows":1}}"#,
        status: Status::No,
        text: "violated: table t, zero z, row 0, index 0, value 0x1\n",
    },
    Case {
        tables: "table t { column a : b1; zero z : a + 1; }",
        witness: r#"{"t":{"rows":3,"a":"07"}}"#,
        status: Status::Yes,
        text: "satisfied\n",
    },
    Case {
        tables: "table t { column a : b8; zero z : a*(a + 16); }",
        witness: r#"{"t":{"rows":3,"a":"001015"}}"#,
        status: Status::No,
        text: "violated: table t, zero z, row 2, index 0, value 0x58\n",
    },
    Case {
        tables: TWO,
        witness: r#"{"t":{"rows":1,"a":"01"},"u":{"rows":1,"b":"00"}}"#,
        status: Status::Yes,
        text: "satisfied\n",
    },
    Case {
        tables: TWO,
        witness: r#"{"t":{"rows":1,"a":"01"},"u":{"rows":2,"b":"02"}}"#,
        status: Status::No,
        text: "violated: table u, zero y, row 1, index 0, value 0x1\n",
    },
    Case {
        tables: "",
        witness: "{}",
        status: Status::Yes,
        text: "satisfied\n",
    },
    // Several values per row.
    Case {
        tables: "table t { column a : b1 x 4; zero z : a*a + a; }",
        witness: r#"{"t":{"rows":3,"a":"0b08"}}"#,
        status: Status::Yes,
        text: "satisfied\n",
    },
    Case {
        tables: "table t { column a : b2 x 2; zero z : a*a + a; }",
        witness: r#"{"t":{"rows":2,"a":"94"}}"#,
        status: Status::No,
        text: "violated: table t, zero z, row 1, index 1, value 0x1\n",
    },
    Case {
        tables: "table t { column a : b128 x 128; column b : b1; zero z : b; }",
        witness: r#"{"t":{"rows":1,"a":"","b":"00"}}"#,
        status: Status::Witness,
        text: "witness: WrongLength at table 0 column 0\n",
    },
    Case {
        tables: "table t { column a : b128 x 128; }",
        witness: r#"{"t":{"rows":1025,"a":""}}"#,
        status: Status::TooLarge,
        text: "too large: log bits 25\n",
    },
    Case {
        tables: "table t { column a : b1 x 2; column b : b1; zero z : a + 1; zero y : b*(b + a); }",
        witness: "{}",
        status: Status::Tables,
        text: "tables: UnequalWidth at item 4\n",
    },
    Case {
        tables: "table t { column a : b1 x 2; column b : b1; zero z : a*a*a*a*a*a*a*a*b; }",
        witness: "{}",
        status: Status::Tables,
        text: "tables: UnequalWidth at item 3\n",
    },
    // Virtual columns: each form against values worked out by hand, then the faults.
    Case {
        tables: "table t { column a : b1 x 8; column e : b1 x 8; virtual s = shl(a, 2, 1); zero z : s + e; }",
        witness: r#"{"t":{"rows":1,"a":"ad","e":"4a"}}"#,
        status: Status::Yes,
        text: "satisfied\n",
    },
    Case {
        tables: "table t { column a : b1 x 8; column e : b1 x 8; virtual s = shr(a, 2, 1); zero z : s + e; }",
        witness: r#"{"t":{"rows":1,"a":"ad","e":"56"}}"#,
        status: Status::Yes,
        text: "satisfied\n",
    },
    Case {
        tables: "table t { column a : b1 x 8; column e : b1 x 8; virtual s = rol(a, 2, 1); zero z : s + e; }",
        witness: r#"{"t":{"rows":1,"a":"ad","e":"5b"}}"#,
        status: Status::Yes,
        text: "satisfied\n",
    },
    Case {
        tables: "table t { column a : b1 x 8; column e : b1 x 8; virtual s = linear(1 + a); zero z : s + e; }",
        witness: r#"{"t":{"rows":1,"a":"ad","e":"52"}}"#,
        status: Status::Yes,
        text: "satisfied\n",
    },
    Case {
        tables: "table t { column a : b1 x 8; column e : b4 x 2; virtual s = pack(a, 2); zero z : s + e; }",
        witness: r#"{"t":{"rows":1,"a":"ad","e":"ad"}}"#,
        status: Status::Yes,
        text: "satisfied\n",
    },
    Case {
        tables: "table t { column a : b1 x 8; column e : b1 x 2; virtual s = project(a, 2, 1); zero z : s + e; }",
        witness: r#"{"t":{"rows":1,"a":"ad","e":"02"}}"#,
        status: Status::Yes,
        text: "satisfied\n",
    },
    Case {
        tables: "table t { column a : b2 x 4; column e : b4 x 2; virtual s = pack(a, 1); zero z : s + e; }",
        witness: r#"{"t":{"rows":1,"a":"e4","e":"e4"}}"#,
        status: Status::Yes,
        text: "satisfied\n",
    },
    Case {
        tables: "table t { column a : b2 x 4; column e : b2 x 4; virtual s = rol(a, 2, 3); zero z : s + e; }",
        witness: r#"{"t":{"rows":1,"a":"e4","e":"39"}}"#,
        status: Status::Yes,
        text: "satisfied\n",
    },
    Case {
        tables: "table t { column a : b8 x 4; column e : b8 x 4; virtual s = shl(a, 2, 1); zero z : s + e; }",
        witness: r#"{"t":{"rows":1,"a":"01020304","e":"00010203"}}"#,
        status: Status::Yes,
        text: "satisfied\n",
    },
    Case {
        tables: "table t { column a : b8 x 4; column e : b8 x 4; virtual s = shl(a, 1, 1); zero z : s + e; }",
        witness: r#"{"t":{"rows":1,"a":"01020304","e":"00010003"}}"#,
        status: Status::Yes,
        text: "satisfied\n",
    },
    Case {
        tables: "table t { column a : b8 x 4; column e : b8 x 4; virtual s = shr(a, 1, 1); zero z : s + e; }",
        witness: r#"{"t":{"rows":1,"a":"01020304","e":"02000400"}}"#,
        status: Status::Yes,
        text: "satisfied\n",
    },
    Case {
        tables: "table t { column a : b8 x 4; column e : b8 x 4; virtual s = rol(a, 2, 1); zero z : s + e; }",
        witness: r#"{"t":{"rows":1,"a":"01020304","e":"04010203"}}"#,
        status: Status::Yes,
        text: "satisfied\n",
    },
    Case {
        tables: "table t { column a : b8 x 4; column e : b8 x 4; virtual s = linear(7 + 5*a); zero z : s + e; }",
        witness: r#"{"t":{"rows":1,"a":"01020304","e":"020d080a"}}"#,
        status: Status::Yes,
        text: "satisfied\n",
    },
    Case {
        tables: "table t { column a : b8 x 4; column e : b16 x 2; virtual s = pack(a, 1); zero z : s + e; }",
        witness: r#"{"t":{"rows":1,"a":"01020304","e":"01020304"}}"#,
        status: Status::Yes,
        text: "satisfied\n",
    },
    Case {
        tables: "table t { column a : b8 x 4; column e : b8 x 2; virtual s = project(a, 1, 1); zero z : s + e; }",
        witness: r#"{"t":{"rows":1,"a":"01020304","e":"0204"}}"#,
        status: Status::Yes,
        text: "satisfied\n",
    },
    Case {
        tables: "table t { column a : b64 x 2; column e : b128; virtual s = pack(a, 1); zero z : s + e; }",
        witness: r#"{"t":{"rows":1,"a":"01020304050607081112131415161718","e":"01020304050607081112131415161718"}}"#,
        status: Status::Yes,
        text: "satisfied\n",
    },
    Case {
        tables: "table t { column a : b128 x 2; column e : b128 x 2; virtual s = shl(a, 1, 1); zero z : s + e; }",
        witness: r#"{"t":{"rows":1,"a":"0100000000000000000000000000000002000000000000000000000000000000","e":"0000000000000000000000000000000001000000000000000000000000000000"}}"#,
        status: Status::Yes,
        text: "satisfied\n",
    },
    Case {
        tables: "table t { column a : b1 x 128; column e : b128; virtual s = pack(a, 7); zero z : s + e; }",
        witness: r#"{"t":{"rows":0,"a":"","e":""}}"#,
        status: Status::Yes,
        text: "satisfied\n",
    },
    Case {
        tables: "table t { column a : b1 x 128; column e : b128; virtual s = pack(a, 7); zero z : s + e; }",
        witness: r#"{"t":{"rows":3,"a":"0f0f0f0f0f0f0f0f0f0f0f0f0f0f0f0f0f0f0f0f0f0f0f0f0f0f0f0f0f0f0f0f0f0f0f0f0f0f0f0f0f0f0f0f0f0f0f0f","e":"0f0f0f0f0f0f0f0f0f0f0f0f0f0f0f0f0f0f0f0f0f0f0f0f0f0f0f0f0f0f0f0f0f0f0f0f0f0f0f0f0f0f0f0f0f0f0f0f"}}"#,
        status: Status::Yes,
        text: "satisfied\n",
    },
    Case {
        tables: "table t { column a : b1 x 2; column e : b1; virtual s = project(a, 1, 0); zero z : s + e; }",
        witness: r#"{"t":{"rows":3,"a":"2d","e":"03"}}"#,
        status: Status::Yes,
        text: "satisfied\n",
    },
    Case {
        tables: "table t { column a : b1; virtual l = linear(1 + a); zero z : l; }",
        witness: r#"{"t":{"rows":3,"a":"07"}}"#,
        status: Status::Yes,
        text: "satisfied\n",
    },
    Case {
        tables: "table t { column a : b1; virtual l = linear(1 + a); zero z : l; }",
        witness: r#"{"t":{"rows":4,"a":"07"}}"#,
        status: Status::No,
        text: "violated: table t, zero z, row 3, index 0, value 0x1\n",
    },
    Case {
        tables: "table t { column a : b1 x 32; virtual s = shl(a, 5, 31); virtual p = pack(s, 5); zero z : p + 0x80000000; }",
        witness: r#"{"t":{"rows":1,"a":"01000000"}}"#,
        status: Status::Yes,
        text: "satisfied\n",
    },
    Case {
        tables: "table t { column a : b1 x 32; virtual s = shl(a, 5, 0); virtual p = pack(s, 5); zero z : p + 1; }",
        witness: r#"{"t":{"rows":1,"a":"01000000"}}"#,
        status: Status::Yes,
        text: "satisfied\n",
    },
    Case {
        tables: "table t { column a : b1 x 32; virtual s = shl(a, 5, 32); virtual p = pack(s, 5); zero z : p + 1; }",
        witness: r#"{"t":{"rows":1,"a":"01000000"}}"#,
        status: Status::Tables,
        text: "tables: OffsetOutOfRange at item 2\n",
    },
    Case {
        tables: "table t { column a : b128 x 128; }",
        witness: r#"{"t":{"rows":1048576,"a":""}}"#,
        status: Status::TooLarge,
        text: "too large: log bits 34\n",
    },
    Case {
        tables: "table t { column a : b64 x 4; virtual p = pack(a, 2); }",
        witness: r#"{}"#,
        status: Status::Tables,
        text: "tables: LevelTooHigh at item 2\n",
    },
    Case {
        tables: "table t { column a : b1 x 4; virtual s = shl(a, 3, 0); }",
        witness: r#"{}"#,
        status: Status::Tables,
        text: "tables: BlockTooLong at item 2\n",
    },
    Case {
        tables: "table t { column a : b1; virtual l = linear(a + a); }",
        witness: r#"{}"#,
        status: Status::Tables,
        text: "tables: RepeatedTerm at item 2\n",
    },
    Case {
        tables: "table t { column a : b1; virtual l = linear(a); }",
        witness: r#"{"t":{"rows":1,"a":"01","l":"01"}}"#,
        status: Status::Witness,
        text: "witness: ExtraColumn at table 0\n",
    },
    Case {
        tables: "table t { column a : b1; virtual l = linear(a); column b : b1; }",
        witness: r#"{"t":{"rows":1,"a":"01"}}"#,
        status: Status::Witness,
        text: "witness: MissingColumn at table 0 column 2\n",
    },
    Case {
        tables: "table t { column a : b8 x 128; virtual l = linear(a); }",
        witness: r#"{"t":{"rows":16384,"a":""}}"#,
        status: Status::TooLarge,
        text: "too large: log bits 25\n",
    },
    // The text, the shape.
    Case {
        tables: "table t { column a : b1 zero z : a*a + a; }",
        witness: "{}",
        status: Status::Tables,
        text: "tables: Unexpected at byte 24\n",
    },
    Case {
        tables: "table t { virtual a = pack(b, 1); }",
        witness: "{}",
        status: Status::Tables,
        text: "tables: UnknownName at item 1\n",
    },
    Case {
        tables: "table t { zero z : 340282366920938463463374607431768211456; }",
        witness: "{}",
        status: Status::Tables,
        text: "tables: NumberTooWide at byte 19\n",
    },
    Case {
        tables: "table t { } table t { }",
        witness: "{}",
        status: Status::Tables,
        text: "tables: DoubleName at item 1\n",
    },
    Case {
        tables: "table t { column a : b1; column a : b2; }",
        witness: "{}",
        status: Status::Tables,
        text: "tables: DoubleName at item 2\n",
    },
    Case {
        tables: "table t { zero z : a; column a : b1; }",
        witness: "{}",
        status: Status::Tables,
        text: "tables: UnknownName at item 1\n",
    },
    Case {
        tables: "table t { column a : b1; zero z : a*a*a*a*a*a*a*a*a; }",
        witness: "{}",
        status: Status::Tables,
        text: "tables: DegreeTooHigh at item 2\n",
    },
    // The witness.
    Case {
        tables: BITS,
        witness: r#"{"t":{"rows":1,"a":"1"}}"#,
        status: Status::Witness,
        text: "witness: BadHex at table 0 column 0\n",
    },
    Case {
        tables: BITS,
        witness: r#"{"t":{"rows":1,"a":"03"}}"#,
        status: Status::Witness,
        text: "witness: PaddingBits at table 0 column 0\n",
    },
    Case {
        tables: BITS,
        witness: r#"{"t":{"rows":1,"a":""}}"#,
        status: Status::Witness,
        text: "witness: WrongLength at table 0 column 0\n",
    },
    Case {
        tables: BITS,
        witness: r#"{"t":{"rows":1}}"#,
        status: Status::Witness,
        text: "witness: MissingColumn at table 0 column 0\n",
    },
    Case {
        tables: BITS,
        witness: r#"{"t":{"rows":1.0,"a":"01"}}"#,
        status: Status::Witness,
        text: "witness: BadRows at table 0\n",
    },
    Case {
        tables: BITS,
        witness: "{",
        status: Status::Witness,
        text: "witness: NotJson\n",
    },
    Case {
        tables: BITS,
        witness: r#"{"t":{"rows":1,"a":"01","b":0}}"#,
        status: Status::Witness,
        text: "witness: ExtraColumn at table 0\n",
    },
    Case {
        tables: BITS,
        witness: r#"{"t":{"rows":1,"a":"01"},"u":0}"#,
        status: Status::Witness,
        text: "witness: ExtraTable\n",
    },
    Case {
        tables: "table t { column a : b128; }",
        witness: r#"{"t":{"rows":1048576,"a":""}}"#,
        status: Status::TooLarge,
        text: "too large: log bits 27\n",
    },
];

/// Runs these words over these files, in pieces of some bytes, and compares the end.
pub(super) fn runs(
    rt: &(impl Abort + AllocGlobal),
    words: &[&str],
    shelf: &mut MemShelf,
    status: Status,
    text: &str,
) -> Result<(), Fail> {
    let alloc = rt.alloc();
    let mut given = Vec::new(alloc);
    for word in words {
        given.push(String::from_str(alloc, word)?)?;
    }
    let mut out = MemSink::new(alloc, 7, Vec::new(alloc), 4096)?;
    assert_eq!(rt; run(alloc, given.as_slice(), shelf, &mut out), status);
    assert_eq!(rt; out.bytes(), text.as_bytes());
    Ok(())
}

/// Runs a check over each of these files.
pub(super) fn checks_of(rt: &(impl Abort + AllocGlobal), cases: &[Case]) -> Result<(), Fail> {
    let alloc = rt.alloc();
    for case in cases {
        let mut shelf = MemShelf::new(alloc, 5, Vec::new(alloc));
        shelf.put_file("T", case.tables.as_bytes())?;
        shelf.put_file("W", case.witness.as_bytes())?;
        let words = ["check", "T", "W"];
        runs(rt, &words, &mut shelf, case.status, case.text)?;
    }
    Ok(())
}

#[test]
fn checks(rt: HostRuntime) -> Result<(), Fail> {
    checks_of(&rt, CHECKS.as_slice())
}

#[test]
fn words_and_missing_files(rt: HostRuntime) -> Result<(), Fail> {
    let alloc = rt.alloc();
    let mut shelf = MemShelf::new(alloc, 4096, Vec::new(alloc));
    shelf.put_file("T", BITS.as_bytes())?;
    runs(&rt, &[], &mut shelf, Status::Words, "words\n")?;
    runs(&rt, &["check", "T"], &mut shelf, Status::Words, "words\n")?;
    runs(&rt, &["print"], &mut shelf, Status::Words, "words\n")?;
    let printed = "table t {\n  column a : b1;\n  zero z : a * a + a;\n}\n";
    runs(&rt, &["print", "T"], &mut shelf, Status::Yes, printed)?;
    runs(
        &rt,
        &["print", "U"],
        &mut shelf,
        Status::ReadFault,
        "read fault\n",
    )?;
    runs(
        &rt,
        &["check", "T", "T", "T"],
        &mut shelf,
        Status::Words,
        "words\n",
    )?;
    runs(
        &rt,
        &["--help", "check"],
        &mut shelf,
        Status::Words,
        "words\n",
    )?;
    runs(&rt, &["--version"], &mut shelf, Status::Yes, "bm3 0.1.0\n")?;
    runs(&rt, &["--help"], &mut shelf, Status::Yes, HELP)?;
    runs(
        &rt,
        &["check", "U", "T"],
        &mut shelf,
        Status::ReadFault,
        "read fault\n",
    )?;
    runs(
        &rt,
        &["check", "T", "U"],
        &mut shelf,
        Status::ReadFault,
        "read fault\n",
    )
}

/// A text with spaces behind it, so many bytes in all.
fn padded(alloc: Global, text: &[u8], len: usize) -> Result<Vec<u8>, AllocError> {
    let mut bytes = Vec::from_slice(alloc, text)?;
    for _ in text.len()..len {
        bytes.push(b' ')?;
    }
    Ok(bytes)
}

#[test]
fn files_at_their_limit(rt: HostRuntime) -> Result<(), Fail> {
    let alloc = rt.alloc();
    let tables_text = "too long: more than 1048576 bytes\n";
    let witness_text = "too long: more than 16777216 bytes\n";
    for (tables, witness, status, text) in [
        (1_048_576, 2, Status::Yes, "satisfied\n"),
        (1_048_577, 2, Status::TooLong, tables_text),
        (0, 16_777_216, Status::Yes, "satisfied\n"),
        (0, 16_777_217, Status::TooLong, witness_text),
    ] {
        let mut shelf = MemShelf::new(alloc, 65_536, Vec::new(alloc));
        shelf.put_file("T", padded(alloc, b"", tables)?.as_slice())?;
        shelf.put_file("W", padded(alloc, b"{}", witness)?.as_slice())?;
        runs(&rt, &["check", "T", "W"], &mut shelf, status, text)?;
    }
    Ok(())
}

#[test]
fn a_sink_that_fails(rt: HostRuntime) -> Result<(), Fail> {
    let alloc = rt.alloc();
    let mut shelf = MemShelf::new(alloc, 4096, Vec::new(alloc));
    let mut failing = Vec::new(alloc);
    failing.push(1)?;
    let mut out = MemSink::new(alloc, 2, failing, 4096)?;
    let words = Vec::new(alloc);
    let status = run(alloc, words.as_slice(), &mut shelf, &mut out);
    assert_eq!(rt; status, Status::WriteFault);
    assert_eq!(rt; out.bytes(), b"wo".as_slice());
    Ok(())
}

/// Adds `front`, a number and `back` for each number below `count`, with commas between.
fn add_each(
    alloc: Global,
    text: &mut Vec<u8>,
    count: u32,
    comma: &str,
    front: &str,
    back: &str,
) -> Result<(), AllocError> {
    for number in 0..count {
        let comma = if number == 0 { "" } else { comma };
        let item = format!(in alloc; "{comma}{front}{number}{back}")?;
        text.extend_from_slice(item.as_bytes())?;
    }
    Ok(())
}

#[test]
fn as_many_tables_as_there_may_be(rt: HostRuntime) -> Result<(), Fail> {
    let alloc = rt.alloc();
    for (count, status, text) in [
        (64, Status::Yes, "satisfied\n"),
        (65, Status::Tables, "tables: TooMany at item 192\n"),
    ] {
        let mut tables = Vec::new(alloc);
        let back = " { column a : b1; zero z : a*a + a; }";
        add_each(alloc, &mut tables, count, "", "table t", back)?;
        let mut witness = Vec::from_slice(alloc, b"{".as_slice())?;
        let back = r#"":{"rows":1,"a":"01"}"#;
        add_each(alloc, &mut witness, count, ",", "\"t", back)?;
        witness.push(b'}')?;
        let mut shelf = MemShelf::new(alloc, 4096, Vec::new(alloc));
        shelf.put_file("T", tables.as_slice())?;
        shelf.put_file("W", witness.as_slice())?;
        runs(&rt, &["check", "T", "W"], &mut shelf, status, text)?;
    }
    Ok(())
}

#[test]
fn as_many_columns_as_there_may_be(rt: HostRuntime) -> Result<(), Fail> {
    let alloc = rt.alloc();
    for (count, status, text) in [
        (256, Status::Yes, "satisfied\n"),
        (257, Status::Tables, "tables: TooMany at item 257\n"),
    ] {
        let mut tables = Vec::from_slice(alloc, b"table t {".as_slice())?;
        add_each(alloc, &mut tables, count, "", " column c", " : b1;")?;
        tables.extend_from_slice(b" zero z : c0 + c255; }".as_slice())?;
        let mut witness = Vec::from_slice(alloc, br#"{"t":{"rows":1,"#.as_slice())?;
        add_each(alloc, &mut witness, count, ",", "\"c", "\":\"01\"")?;
        witness.extend_from_slice(b"}}".as_slice())?;
        let mut shelf = MemShelf::new(alloc, 4096, Vec::new(alloc));
        shelf.put_file("T", tables.as_slice())?;
        shelf.put_file("W", witness.as_slice())?;
        runs(&rt, &["check", "T", "W"], &mut shelf, status, text)?;
    }
    Ok(())
}

/// Sixteen columns of 2^20 bits, of which the last bit of the last is 1: 2^24 bits in all.
#[test]
fn as_many_bits_as_there_may_be(rt: HostRuntime) -> Result<(), Fail> {
    let alloc = rt.alloc();
    let mut tables = Vec::from_slice(alloc, b"table t {".as_slice())?;
    add_each(alloc, &mut tables, 16, "", " column c", " : b1;")?;
    tables.extend_from_slice(b" zero y : c0; zero z : c15; }".as_slice())?;
    let mut witness = Vec::from_slice(alloc, br#"{"t":{"rows":1048576"#.as_slice())?;
    for number in 0..16u32 {
        let front = format!(in alloc; ",\"c{number}\":\"")?;
        witness.extend_from_slice(front.as_bytes())?;
        for _ in 0..131_071u32 {
            witness.extend_from_slice(b"00".as_slice())?;
        }
        let last = if number == 15 { b"80\"" } else { b"00\"" };
        witness.extend_from_slice(last.as_slice())?;
    }
    witness.extend_from_slice(b"}}".as_slice())?;
    let mut shelf = MemShelf::new(alloc, 65_536, Vec::new(alloc));
    shelf.put_file("T", tables.as_slice())?;
    shelf.put_file("W", witness.as_slice())?;
    let text = "violated: table t, zero z, row 1048575, index 0, value 0x1\n";
    runs(&rt, &["check", "T", "W"], &mut shelf, Status::No, text)
}

#[test]
fn a_missing_witness_of_tables_that_are_refused(rt: HostRuntime) -> Result<(), Fail> {
    let alloc = rt.alloc();
    let mut shelf = MemShelf::new(alloc, 4096, Vec::new(alloc));
    shelf.put_file("T", b"table t { zero z : a; }".as_slice())?;
    let text = "tables: UnknownName at item 1\n";
    runs(&rt, &["check", "T", "W"], &mut shelf, Status::Tables, text)
}

/// After a fault of the sink nothing more is put, not even where nothing was put before.
#[test]
fn a_sink_that_fails_at_once(rt: HostRuntime) -> Result<(), Fail> {
    let alloc = rt.alloc();
    let mut shelf = MemShelf::new(alloc, 4096, Vec::new(alloc));
    let failing = Vec::from_slice(alloc, [0].as_slice())?;
    let mut out = MemSink::new(alloc, 4096, failing, 4096)?;
    let words = Vec::new(alloc);
    let status = run(alloc, words.as_slice(), &mut shelf, &mut out);
    assert_eq!(rt; status, Status::WriteFault);
    assert_eq!(rt; out.bytes(), b"".as_slice());
    Ok(())
}
