//! Runs that print the counted draws of a proof, and its length.

use crate::channels::ADDER;
use crate::runs::runs;
use byte_ends::{MemShelf, MemSink};
use m3_tool::{Status, run};
use std::test::Fail;

struct Case {
    tables: &'static str,
    rows: &'static [&'static str],
    status: Status,
    text: &'static str,
}

/// One column and one constraint, which is on its only value per row.
const ONE: &str = "table t { column a : b1; zero z : a; }";

/// Of one row: a group of one constraint, and a claim on one column.
const ONE_COUNTED: &str = "\
draw 1 constraint-batch at most 0
draw 3 bit-batch at most 0
draw 5 bit-round at most 2
draw 7 bit-round at most 2
draw 9 bit-round at most 2
draw 11 bit-round at most 2
draw 13 bit-round at most 2
draw 15 bit-round at most 2
draw 17 bit-round at most 2
draw 19 bit-round at most 2
draw 22 tensor-coordinate at most 1
draw 23 tensor-coordinate at most 1
draw 24 tensor-coordinate at most 1
draw 25 tensor-coordinate at most 1
draw 26 tensor-coordinate at most 1
draw 27 tensor-coordinate at most 1
draw 28 tensor-coordinate at most 1
draw 30 switch-round at most 2
total 25
bytes 8749
";

/// Of no tables: the claim on the bits, and the folds of one word.
const NONE_COUNTED: &str = "\
draw 1 bit-batch at most 0
draw 3 bit-round at most 2
draw 5 bit-round at most 2
draw 7 bit-round at most 2
draw 9 bit-round at most 2
draw 11 bit-round at most 2
draw 13 bit-round at most 2
draw 15 bit-round at most 2
draw 17 bit-round at most 2
draw 20 tensor-coordinate at most 1
draw 21 tensor-coordinate at most 1
draw 22 tensor-coordinate at most 1
draw 23 tensor-coordinate at most 1
draw 24 tensor-coordinate at most 1
draw 25 tensor-coordinate at most 1
draw 26 tensor-coordinate at most 1
draw 28 switch-round at most 2
total 25
bytes 8729
";

/// A table without constraints, and one with a constraint.
const TWO: &str = "table t { column a : b1; } table u { column b : b1; zero z : b; }";

/// Of no row of the first and three of the second, which are filled up to four.
const TWO_COUNTED: &str = "\
draw 1 constraint-batch at most 0
draw 2 zero-coordinate at most 1
draw 3 zero-coordinate at most 1
draw 5 zero-round at most 3
draw 7 zero-round at most 3
draw 9 bit-batch at most 0
draw 11 bit-round at most 2
draw 13 bit-round at most 2
draw 15 bit-round at most 2
draw 17 bit-round at most 2
draw 19 bit-round at most 2
draw 21 bit-round at most 2
draw 23 bit-round at most 2
draw 25 bit-round at most 2
draw 28 tensor-coordinate at most 1
draw 29 tensor-coordinate at most 1
draw 30 tensor-coordinate at most 1
draw 31 tensor-coordinate at most 1
draw 32 tensor-coordinate at most 1
draw 33 tensor-coordinate at most 1
draw 34 tensor-coordinate at most 1
draw 36 switch-round at most 2
total 33
bytes 8881
";

static COUNTED: [Case; 21] = [
    Case {
        tables: ONE,
        rows: &["1"],
        status: Status::Yes,
        text: ONE_COUNTED,
    },
    Case {
        tables: "",
        rows: &[],
        status: Status::Yes,
        text: NONE_COUNTED,
    },
    Case {
        tables: TWO,
        rows: &["0", "3"],
        status: Status::Yes,
        text: TWO_COUNTED,
    },
    // Numbers in other spellings.
    Case {
        tables: ONE,
        rows: &["0x01"],
        status: Status::Yes,
        text: ONE_COUNTED,
    },
    Case {
        tables: ONE,
        rows: &["001"],
        status: Status::Yes,
        text: ONE_COUNTED,
    },
    // Words that are no numbers of rows.
    Case {
        tables: ONE,
        rows: &["1048577"],
        status: Status::Words,
        text: "words\n",
    },
    Case {
        tables: ONE,
        rows: &["0x100001"],
        status: Status::Words,
        text: "words\n",
    },
    Case {
        tables: ONE,
        rows: &["340282366920938463463374607431768211456"],
        status: Status::Words,
        text: "words\n",
    },
    Case {
        tables: ONE,
        rows: &["x"],
        status: Status::Words,
        text: "words\n",
    },
    Case {
        tables: ONE,
        rows: &[""],
        status: Status::Words,
        text: "words\n",
    },
    Case {
        tables: TWO,
        rows: &["3", "-3"],
        status: Status::Words,
        text: "words\n",
    },
    Case {
        tables: "table t { zero z : a; }",
        rows: &["1048577"],
        status: Status::Words,
        text: "words\n",
    },
    // Another number of rows than tables, once the tables are judged.
    Case {
        tables: ONE,
        rows: &[],
        status: Status::Words,
        text: "words\n",
    },
    Case {
        tables: ONE,
        rows: &["1", "1"],
        status: Status::Words,
        text: "words\n",
    },
    Case {
        tables: "",
        rows: &["1"],
        status: Status::Words,
        text: "words\n",
    },
    Case {
        tables: TWO,
        rows: &["3"],
        status: Status::Words,
        text: "words\n",
    },
    Case {
        tables: "table t { column a : b1 zero z : a; }",
        rows: &["1", "1"],
        status: Status::Tables,
        text: "tables: Unexpected at byte 24\n",
    },
    Case {
        tables: "table t { zero z : a; }",
        rows: &["1", "1"],
        status: Status::Tables,
        text: "tables: UnknownName at item 1\n",
    },
    Case {
        tables: "table t { column a : b128 x 128; }",
        rows: &["1048576", "1048576"],
        status: Status::Words,
        text: "words\n",
    },
    // Columns that take too many bits.
    Case {
        tables: "table t { column a : b128 x 128; }",
        rows: &["1025"],
        status: Status::TooLarge,
        text: "too large: log bits 25\n",
    },
    Case {
        tables: "table t { column a : b128 x 128; }",
        rows: &["1048576"],
        status: Status::TooLarge,
        text: "too large: log bits 34\n",
    },
];

#[test]
fn counts(rt: HostRuntime) -> Result<(), Fail> {
    let alloc = rt.alloc();
    for case in COUNTED.as_slice() {
        let mut shelf = MemShelf::new(alloc, 5, Vec::new(alloc));
        shelf.put_file("T", case.tables.as_bytes())?;
        let mut words = Vec::new(alloc);
        words.push("count")?;
        words.push("T")?;
        for row in case.rows {
            words.push(*row)?;
        }
        runs(&rt, words.as_slice(), &mut shelf, case.status, case.text)?;
    }
    Ok(())
}

/// A line for each of 93 draws, and two more.
#[test]
fn counts_of_an_adder(rt: HostRuntime) -> Result<(), Fail> {
    let alloc = rt.alloc();
    let mut shelf = MemShelf::new(alloc, 4096, Vec::new(alloc));
    shelf.put_file("T", ADDER.as_bytes())?;
    let mut words = Vec::new(alloc);
    for word in ["count", "T", "3"] {
        words.push(String::from_str(alloc, word)?)?;
    }
    let mut out = MemSink::new(alloc, 4096, Vec::new(alloc), 65_536)?;
    assert_eq!(rt;
        run(alloc, words.as_slice(), &mut shelf, &mut out),
        Status::Yes
    );
    let text = out.bytes();
    assert!(rt; text.starts_with(b"draw 1 alpha at most 12\ndraw 2 gamma at most 3\n"));
    assert!(rt; text.ends_with(b"draw 164 switch-round at most 2\ntotal 181\nbytes 21277\n"));
    assert_eq!(rt; text.iter().filter(|byte| **byte == b'\n').count(), 95);
    Ok(())
}

#[test]
fn counts_without_a_file(rt: HostRuntime) -> Result<(), Fail> {
    let alloc = rt.alloc();
    let mut shelf = MemShelf::new(alloc, 4096, Vec::new(alloc));
    runs(&rt, &["count"], &mut shelf, Status::Words, "words\n")?;
    let missing = ["count", "T", "1"];
    runs(&rt, &missing, &mut shelf, Status::ReadFault, "read fault\n")?;
    let words = ["count", "T", "1048577"];
    runs(&rt, &words, &mut shelf, Status::Words, "words\n")
}
