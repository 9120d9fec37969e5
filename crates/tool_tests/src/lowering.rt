//! Runs that print the products of channels at two numbers.

use crate::runs::runs;
use byte_ends::MemShelf;
use m3_tool::Status;
use std::test::Fail;

struct Case {
    tables: &'static str,
    witness: &'static str,
    alpha: &'static str,
    gamma: &'static str,
    status: Status,
    text: &'static str,
}

/// Two rows push 5, and the boundary pulls it once.
const TWICE: &str = "channel c : 1; boundary pull c (5); table t { column a : b8; push c (a); }";

const FIVES: &str = r#"{"t":{"rows":2,"a":"0505"}}"#;

/// A constraint that isn't 0, beside a channel in balance.
const BESIDE: &str =
    "channel c : 1; boundary pull c (5); table t { column a : b8; push c (a); zero z : a + 4; }";

/// Tuples of two numbers, of which alpha weighs the second.
const TUPLES: &str =
    "channel c : 2; channel d : 1; boundary push c (2, 3); boundary pull c (3, 2); boundary pull d (0xf);";

static LOWERED: [Case; 21] = [
    Case {
        tables: TWICE,
        witness: FIVES,
        alpha: "1",
        gamma: "5",
        status: Status::Yes,
        text: "channel c push 0x0 pull 0x0\nholds\n",
    },
    Case {
        tables: TWICE,
        witness: FIVES,
        alpha: "1",
        gamma: "4",
        status: Status::Yes,
        text: "channel c push 0x1 pull 0x1\nholds\n",
    },
    Case {
        tables: TWICE,
        witness: FIVES,
        alpha: "1",
        gamma: "0",
        status: Status::Yes,
        text: "channel c push 0x8 pull 0x5\nfails\n",
    },
    // Numbers in other spellings.
    Case {
        tables: TWICE,
        witness: FIVES,
        alpha: "0x0010",
        gamma: "0x0004",
        status: Status::Yes,
        text: "channel c push 0x1 pull 0x1\nholds\n",
    },
    Case {
        tables: TWICE,
        witness: FIVES,
        alpha: "007",
        gamma: "0x5",
        status: Status::Yes,
        text: "channel c push 0x0 pull 0x0\nholds\n",
    },
    Case {
        tables: "channel c : 1; boundary push c (0);",
        witness: "{}",
        alpha: "0",
        gamma: "340282366920938463463374607431768211455",
        status: Status::Yes,
        text: "channel c push 0xffffffffffffffffffffffffffffffff pull 0x1\nfails\n",
    },
    Case {
        tables: "channel c : 1; boundary push c (0);",
        witness: "{}",
        alpha: "0",
        gamma: "0xFfFfFfFfFfFfFfFfFfFfFfFfFfFfFfFf",
        status: Status::Yes,
        text: "channel c push 0xffffffffffffffffffffffffffffffff pull 0x1\nfails\n",
    },
    // The products agree, and a constraint is violated.
    Case {
        tables: BESIDE,
        witness: r#"{"t":{"rows":1,"a":"05"}}"#,
        alpha: "1",
        gamma: "0",
        status: Status::Yes,
        text: "channel c push 0x5 pull 0x5\nfails\n",
    },
    // No channel, and rows that fill a table up.
    Case {
        tables: "table t { column a : b1; zero z : a + 1; }",
        witness: r#"{"t":{"rows":3,"a":"07"}}"#,
        alpha: "0",
        gamma: "0",
        status: Status::Yes,
        text: "holds\n",
    },
    Case {
        tables: TUPLES,
        witness: "{}",
        alpha: "1",
        gamma: "0",
        status: Status::Yes,
        text: "channel c push 0x1 pull 0x1\nchannel d push 0x1 pull 0xf\nfails\n",
    },
    Case {
        tables: TUPLES,
        witness: "{}",
        alpha: "0",
        gamma: "1",
        status: Status::Yes,
        text: "channel c push 0x3 pull 0x2\nchannel d push 0x1 pull 0xe\nfails\n",
    },
    Case {
        tables: TWICE,
        witness: r#"{"t":{"rows":2,"a":"05"}}"#,
        alpha: "1",
        gamma: "0",
        status: Status::Witness,
        text: "witness: WrongLength at table 0 column 0\n",
    },
    Case {
        tables: "table t { zero z : a; }",
        witness: "{",
        alpha: "1",
        gamma: "0",
        status: Status::Tables,
        text: "tables: UnknownName at item 1\n",
    },
    // Words that are no numbers below 2^128.
    Case {
        tables: TWICE,
        witness: FIVES,
        alpha: "x",
        gamma: "1",
        status: Status::Words,
        text: "words\n",
    },
    Case {
        tables: TWICE,
        witness: FIVES,
        alpha: "1",
        gamma: "",
        status: Status::Words,
        text: "words\n",
    },
    Case {
        tables: TWICE,
        witness: FIVES,
        alpha: "0x",
        gamma: "1",
        status: Status::Words,
        text: "words\n",
    },
    Case {
        tables: TWICE,
        witness: FIVES,
        alpha: "1",
        gamma: " 5",
        status: Status::Words,
        text: "words\n",
    },
    Case {
        tables: TWICE,
        witness: FIVES,
        alpha: "0x5g",
        gamma: "1",
        status: Status::Words,
        text: "words\n",
    },
    Case {
        tables: TWICE,
        witness: FIVES,
        alpha: "1",
        gamma: "-5",
        status: Status::Words,
        text: "words\n",
    },
    Case {
        tables: TWICE,
        witness: FIVES,
        alpha: "340282366920938463463374607431768211456",
        gamma: "0",
        status: Status::Words,
        text: "words\n",
    },
    Case {
        tables: TWICE,
        witness: FIVES,
        alpha: "0",
        gamma: "0x100000000000000000000000000000000",
        status: Status::Words,
        text: "words\n",
    },
];

#[test]
fn products(rt: HostRuntime) -> Result<(), Fail> {
    let alloc = rt.alloc();
    for case in LOWERED.as_slice() {
        let mut shelf = MemShelf::new(alloc, 5, Vec::new(alloc));
        shelf.put_file("T", case.tables.as_bytes())?;
        shelf.put_file("W", case.witness.as_bytes())?;
        let words = ["lower", "T", "W", case.alpha, case.gamma];
        runs(&rt, &words, &mut shelf, case.status, case.text)?;
    }
    Ok(())
}

#[test]
fn words_and_a_missing_witness(rt: HostRuntime) -> Result<(), Fail> {
    let alloc = rt.alloc();
    let mut shelf = MemShelf::new(alloc, 4096, Vec::new(alloc));
    shelf.put_file("T", TWICE.as_bytes())?;
    shelf.put_file("W", FIVES.as_bytes())?;
    let few = ["lower", "T", "W", "1"];
    runs(&rt, &few, &mut shelf, Status::Words, "words\n")?;
    let many = ["lower", "T", "W", "1", "5", "5"];
    runs(&rt, &many, &mut shelf, Status::Words, "words\n")?;
    let missing = ["lower", "T", "U", "1", "5"];
    runs(&rt, &missing, &mut shelf, Status::ReadFault, "read fault\n")
}
