//! Runs over tables with channels, and printed texts.

use crate::runs::{Case, checks_of, runs};
use byte_ends::MemShelf;
use m3_tool::Status;
use std::test::Fail;

/// Sums of words of 32 bits, which a channel takes from the rows and gives to boundaries.
pub(super) const ADDER: &str = "\
channel sums : 3;
boundary pull sums (1, 2, 3);
boundary pull sums (0xffffffff, 1, 0);
boundary pull sums (0, 0, 0);
table adder {
  column a : b1 x 32;
  column b : b1 x 32;
  column cout : b1 x 32;
  virtual cin = shl(cout, 5, 1);
  virtual sum = linear(a + b + cin);
  virtual a32 = pack(a, 5);
  virtual b32 = pack(b, 5);
  virtual s32 = pack(sum, 5);
  zero carry : (a + cin) * (b + cin) + cin + cout;
  push sums (a32, b32, s32);
}
";

const PRINTED_ADDER: &str = "\
channel sums : 3;
boundary pull sums (1, 2, 3);
boundary pull sums (4294967295, 1, 0);
boundary pull sums (0, 0, 0);
table adder {
  column a : b1 x 32;
  column b : b1 x 32;
  column cout : b1 x 32;
  virtual cin = shl(cout, 5, 1);
  virtual sum = linear(a + b + cin);
  virtual a32 = pack(a, 5);
  virtual b32 = pack(b, 5);
  virtual s32 = pack(sum, 5);
  zero carry : (a + cin) * (b + cin) + cin + cout;
  push sums (a32, b32, s32);
}
";

static CHECKS: [Case; 14] = [
    Case {
        tables: ADDER,
        witness: r#"{"adder":{"rows":3,"a":"01000000ffffffff00000000","b":"020000000100000000000000","cout":"00000000ffffffff00000000"}}"#,
        status: Status::Yes,
        text: "satisfied\n",
    },
    Case {
        tables: ADDER,
        witness: r#"{"adder":{"rows":3,"a":"01000000ffffffff00000000","b":"020000000100000000000000","cout":"01000000ffffffff00000000"}}"#,
        status: Status::No,
        text: "violated: table adder, zero carry, row 0, index 0, value 0x1\n",
    },
    Case {
        tables: "channel c : 1; boundary pull c (5); table t { column a : b8; push c (a); }",
        witness: r#"{"t":{"rows":2,"a":"0505"}}"#,
        status: Status::No,
        text: "violated: channel c, tuple (0x5), pushed 2, pulled 1\n",
    },
    Case {
        tables: "channel c : 1; boundary pull c (3); boundary pull c (0); table t { column a : b8; push c (a); }",
        witness: r#"{"t":{"rows":2,"a":"0102"}}"#,
        status: Status::No,
        text: "violated: channel c, tuple (0x0), pushed 0, pulled 1\n",
    },
    Case {
        tables: "channel c : 1; boundary pull c (5); table t { column a : b8; column s : b1; push c (a) if s; }",
        witness: r#"{"t":{"rows":2,"a":"0507","s":"01"}}"#,
        status: Status::Yes,
        text: "satisfied\n",
    },
    Case {
        tables: "channel c : 1; boundary pull c (5); table t { column a : b8; column s : b1; push c (a) if s; }",
        witness: r#"{"t":{"rows":2,"a":"0507","s":"02"}}"#,
        status: Status::No,
        text: "violated: channel c, tuple (0x5), pushed 0, pulled 1\n",
    },
    Case {
        tables: "channel c : 16;",
        witness: "{}",
        status: Status::Yes,
        text: "satisfied\n",
    },
    Case {
        tables: "channel c : 2; boundary push c (1, 0xffffffffffffffffffffffffffffffff); boundary pull c (1, 340282366920938463463374607431768211455);",
        witness: "{}",
        status: Status::Yes,
        text: "satisfied\n",
    },
    Case {
        tables: "channel c : 2; boundary push c (2, 0); boundary push c (1, 255); boundary pull c (1, 16);",
        witness: "{}",
        status: Status::No,
        text: "violated: channel c, tuple (0x1, 0x10), pushed 0, pulled 1\n",
    },
    // Equal as multisets, in another order and from columns of different levels.
    Case {
        tables: "channel c : 2; table t { column a : b8; push c (a, a); } table u { column a : b16; column b : b8; pull c (b, a); }",
        witness: r#"{"t":{"rows":3,"a":"070907"},"u":{"rows":3,"a":"070007000900","b":"070709"}}"#,
        status: Status::Yes,
        text: "satisfied\n",
    },
    // The rows that fill a table up to a power of two push nothing.
    Case {
        tables: "channel c : 1; table t { column a : b1; push c (a); } table u { column a : b1; pull c (a); }",
        witness: r#"{"t":{"rows":3,"a":"00"},"u":{"rows":4,"a":"00"}}"#,
        status: Status::No,
        text: "violated: channel c, tuple (0x0), pushed 3, pulled 4\n",
    },
    // The first channel that isn't in balance, after all constraints.
    Case {
        tables: "channel b : 1; channel c : 1; channel d : 1; boundary push d (1); boundary push c (8); table t { column a : b1; zero z : a; }",
        witness: r#"{"t":{"rows":2,"a":"02"}}"#,
        status: Status::No,
        text: "violated: table t, zero z, row 1, index 0, value 0x1\n",
    },
    Case {
        tables: "channel b : 1; channel c : 1; channel d : 1; boundary push d (1); boundary push c (8); table t { column a : b1; zero z : a; }",
        witness: r#"{"t":{"rows":2,"a":"00"}}"#,
        status: Status::No,
        text: "violated: channel c, tuple (0x8), pushed 1, pulled 0\n",
    },
    Case {
        tables: "channel c : 2; table t { column a : b1; push c (a); }",
        witness: "{}",
        status: Status::Tables,
        text: "tables: TupleWidth at item 3\n",
    },
];

#[test]
fn checks(rt: HostRuntime) -> Result<(), Fail> {
    checks_of(&rt, CHECKS.as_slice())
}

#[test]
fn prints(rt: HostRuntime) -> Result<(), Fail> {
    let alloc = rt.alloc();
    for (tables, status, text) in [
        (ADDER, Status::Yes, PRINTED_ADDER),
        (PRINTED_ADDER, Status::Yes, PRINTED_ADDER),
        ("# nothing", Status::Yes, ""),
        // The text alone is judged.
        (
            "table t{zero z:a*(b+1);}table t{}",
            Status::Yes,
            "table t {\n  zero z : a * (b + 1);\n}\ntable t {\n}\n",
        ),
        (
            "table t { push c a; }",
            Status::Tables,
            "tables: Unexpected at byte 17\n",
        ),
    ] {
        let mut shelf = MemShelf::new(alloc, 5, Vec::new(alloc));
        shelf.put_file("T", tables.as_bytes())?;
        runs(&rt, &["print", "T"], &mut shelf, status, text)?;
    }
    Ok(())
}

/// 2^20 tuples of 16 numbers that are pushed, and as many that are pulled in another order.
#[test]
fn as_many_tuples_as_a_flush_may_have(rt: HostRuntime) -> Result<(), Fail> {
    let alloc = rt.alloc();
    let tables =
        "channel c : 16; table t { column a : b8; push c (a, a, a, a, a, a, a, a, a, a, a, a, a, a, a, a); } table u { column b : b8; pull c (b, b, b, b, b, b, b, b, b, b, b, b, b, b, b, b); }";
    let mut witness = Vec::from_slice(alloc, br#"{"t":{"rows":1048576,"a":""#.as_slice())?;
    for _ in 0..524_288u32 {
        witness.extend_from_slice(b"0107".as_slice())?;
    }
    witness.extend_from_slice(br#""},"u":{"rows":1048576,"b":""#.as_slice())?;
    for _ in 0..524_287u32 {
        witness.extend_from_slice(b"0701".as_slice())?;
    }
    witness.extend_from_slice(br#"0707"}}"#.as_slice())?;
    let mut shelf = MemShelf::new(alloc, 65_536, Vec::new(alloc));
    shelf.put_file("T", tables.as_bytes())?;
    shelf.put_file("W", witness.as_slice())?;
    let text =
        "violated: channel c, tuple (0x1, 0x1, 0x1, 0x1, 0x1, 0x1, 0x1, 0x1, 0x1, 0x1, 0x1, 0x1, 0x1, 0x1, 0x1, 0x1), pushed 524288, pulled 524287\n";
    runs(&rt, &["check", "T", "W"], &mut shelf, Status::No, text)
}
