//! Texts, with their declarations or their faults.

use std::alloc::{AllocError, Global};
use std::process::Abort;
use std::test::Fail;
use table_text::{Tables, TextFault, TextKind, TextStop, read_tables};

fn answer(rt: &(impl Abort + AllocGlobal), text: &[u8]) -> Result<Tables, TextStop> {
    assert!(rt; text.len() < 1 << 32);
    read_tables(rt.alloc(), text)
}

/// What a text is refused for, where it is.
fn stop(rt: &(impl Abort + AllocGlobal), text: &[u8]) -> Option<TextStop> {
    answer(rt, text).err()
}

/// The declarations of a text, as they are printed for debugging.
fn shown(rt: &(impl Abort + AllocGlobal), text: &[u8]) -> Result<String, Fail> {
    let tables = answer(rt, text)?;
    Ok(format!(in rt.alloc(); "{tables:?}")?)
}

fn fault(place: u32, kind: TextKind) -> Option<TextStop> {
    Some(TextStop::Fault(TextFault { place, kind }))
}

static FAULTS: [(&str, u32, TextKind); 95] = [
    // What the grammar asks for isn't there.
    (
        "table t { column a : b1 zero z : a*a + a; }",
        24,
        TextKind::Unexpected,
    ),
    ("table t { column a : b3; }", 21, TextKind::Unexpected),
    ("table t { column a : b0; }", 21, TextKind::Unexpected),
    ("table t { column a : b1 x; }", 25, TextKind::Unexpected),
    ("table t { column a : b1 x 3; }", 26, TextKind::Unexpected),
    ("table t { column a : b1 x 0; }", 26, TextKind::Unexpected),
    ("table t { column a : b1 x 256; }", 26, TextKind::Unexpected),
    ("table t { column a : x 2; }", 21, TextKind::Unexpected),
    ("table t { column a : b1x2; }", 21, TextKind::Unexpected),
    ("table column { }", 6, TextKind::Unexpected),
    ("table if { }", 6, TextKind::Unexpected),
    ("column a : b1;", 0, TextKind::Unexpected),
    ("table t { zero z : (a; }", 21, TextKind::Unexpected),
    ("table t { zero z : a); }", 20, TextKind::Unexpected),
    ("table t { zero z : (); }", 20, TextKind::Unexpected),
    ("table t { zero z : a + ; }", 23, TextKind::Unexpected),
    ("table t { zero z : a a; }", 21, TextKind::Unexpected),
    ("table t { zero z : a = a; }", 21, TextKind::Unexpected),
    ("table t { zero z : ; }", 19, TextKind::Unexpected),
    ("table t { } }", 12, TextKind::Unexpected),
    // Virtual columns.
    (
        "table t { virtual : pack(a, 1); }",
        18,
        TextKind::Unexpected,
    ),
    (
        "table t { virtual x = pack(a, 1); }",
        18,
        TextKind::Unexpected,
    ),
    (
        "table t { virtual v : pack(a, 1); }",
        20,
        TextKind::Unexpected,
    ),
    ("table t { virtual v = sum(a); }", 22, TextKind::Unexpected),
    ("table t { virtual v = pull; }", 22, TextKind::Unexpected),
    ("table t { virtual v = shl a; }", 26, TextKind::Unexpected),
    (
        "table t { virtual v = shl(5, a, 1); }",
        26,
        TextKind::Unexpected,
    ),
    (
        "table t { virtual v = shl(a; 5, 1); }",
        27,
        TextKind::Unexpected,
    ),
    (
        "table t { virtual v = shr(a, b, 1); }",
        29,
        TextKind::Unexpected,
    ),
    (
        "table t { virtual v = rol(a, 5); }",
        30,
        TextKind::Unexpected,
    ),
    (
        "table t { virtual v = project(a, 5, 1, 2); }",
        37,
        TextKind::Unexpected,
    ),
    ("table t { virtual v = pack(a); }", 28, TextKind::Unexpected),
    (
        "table t { virtual v = pack(a, 1, 1); }",
        31,
        TextKind::Unexpected,
    ),
    (
        "table t { virtual v = pack(a, 1) }",
        33,
        TextKind::Unexpected,
    ),
    (
        "table t { virtual v = linear(); }",
        29,
        TextKind::Unexpected,
    ),
    (
        "table t { virtual v = linear(3); }",
        30,
        TextKind::Unexpected,
    ),
    (
        "table t { virtual v = linear(3 + ); }",
        33,
        TextKind::Unexpected,
    ),
    (
        "table t { virtual v = linear(3 + 4 + a); }",
        35,
        TextKind::Unexpected,
    ),
    (
        "table t { virtual v = linear(a * 3); }",
        31,
        TextKind::Unexpected,
    ),
    (
        "table t { virtual v = linear(3 * 4); }",
        33,
        TextKind::Unexpected,
    ),
    (
        "table t { virtual v = linear(a + 3 * 4); }",
        37,
        TextKind::Unexpected,
    ),
    (
        "table t { virtual v = linear(a + 3); }",
        34,
        TextKind::Unexpected,
    ),
    (
        "table t { virtual v = linear((a)); }",
        29,
        TextKind::Unexpected,
    ),
    (
        "table t { virtual v = linear(a, b); }",
        30,
        TextKind::Unexpected,
    ),
    (
        "table t { virtual v = linear(a) + b; }",
        32,
        TextKind::Unexpected,
    ),
    // The text ends too early.
    ("table", 5, TextKind::Unexpected),
    ("table t { column a : b1;\n", 25, TextKind::Unexpected),
    ("table t { } table t # {}", 24, TextKind::Unexpected),
    // A byte that begins no token.
    ("table t { column _a : b1; }", 17, TextKind::Unexpected),
    ("table t { zero z : a - a; }", 21, TextKind::Unexpected),
    // A byte that no text has comes before all else.
    ("table { \u{e9}", 8, TextKind::NotText),
    ("table t { } \u{7f}", 12, TextKind::NotText),
    ("table t { } # \0", 14, TextKind::NotText),
    // Channels, boundaries and flushes.
    ("channel : 1;", 8, TextKind::Unexpected),
    ("channel c 1;", 10, TextKind::Unexpected),
    ("channel c : w;", 12, TextKind::Unexpected),
    ("channel c : 1, 2;", 13, TextKind::Unexpected),
    ("channel push : 1;", 8, TextKind::Unexpected),
    ("channel c : 1 }", 14, TextKind::Unexpected),
    ("boundary c (1);", 9, TextKind::Unexpected),
    ("boundary push (1);", 14, TextKind::Unexpected),
    ("boundary push c 1;", 16, TextKind::Unexpected),
    ("boundary push c ();", 17, TextKind::Unexpected),
    ("boundary push c (a);", 17, TextKind::Unexpected),
    ("boundary push c (1;", 18, TextKind::Unexpected),
    ("boundary push c (1,);", 19, TextKind::Unexpected),
    ("boundary push c (1 2);", 19, TextKind::Unexpected),
    ("boundary push c (1) if s;", 20, TextKind::Unexpected),
    ("boundary boundary", 9, TextKind::Unexpected),
    ("push c (1);", 0, TextKind::Unexpected),
    ("pull c (a);", 0, TextKind::Unexpected),
    ("table push { }", 6, TextKind::Unexpected),
    ("table t { channel c : 1; }", 10, TextKind::Unexpected),
    ("table t { boundary push c (1); }", 10, TextKind::Unexpected),
    ("table t { push (a); }", 15, TextKind::Unexpected),
    ("table t { push c a; }", 17, TextKind::Unexpected),
    ("table t { push c (); }", 18, TextKind::Unexpected),
    ("table t { push c (1); }", 18, TextKind::Unexpected),
    ("table t { pull c (a,); }", 20, TextKind::Unexpected),
    ("table t { pull c (a b); }", 20, TextKind::Unexpected),
    ("table t { pull c (a) s; }", 21, TextKind::Unexpected),
    ("table t { pull c (a) if ; }", 24, TextKind::Unexpected),
    ("table t { pull c (a) if 7; }", 24, TextKind::Unexpected),
    ("table t { pull c (a) if s, u; }", 25, TextKind::Unexpected),
    ("table t { pull c (a) if s }", 26, TextKind::Unexpected),
    ("table t { push pull c (a); }", 15, TextKind::Unexpected),
    ("table t virtual", 8, TextKind::Unexpected),
    // Tokens are as long as possible.
    ("table t { zero z : 0x; }", 20, TextKind::Unexpected),
    ("table t { zero z : 12ab; }", 21, TextKind::Unexpected),
    ("table t { zero z : 0X1F; }", 20, TextKind::Unexpected),
    // 2 ^ 128.
    (
        "table t { zero z : 340282366920938463463374607431768211456; }",
        19,
        TextKind::NumberTooWide,
    ),
    (
        "table t { zero z : 0x100000000000000000000000000000000; }",
        19,
        TextKind::NumberTooWide,
    ),
    (
        "table 999999999999999999999999999999999999999999 { }",
        6,
        TextKind::NumberTooWide,
    ),
    // 65 bytes.
    (
        "a2345678901234567890123456789012345678901234567890123456789012345",
        0,
        TextKind::NameTooLong,
    ),
    (
        "table a2345678901234567890123456789012345678901234567890123456789012345",
        6,
        TextKind::NameTooLong,
    ),
];

#[test]
fn faults(rt: HostRuntime) -> Result<(), Fail> {
    for &(text, place, kind) in &FAULTS {
        assert_eq!(rt; stop(&rt, text.as_bytes()), fault(place, kind), "{text}");
    }
    Ok(())
}

static READINGS: [(&str, &str); 13] = [
    (
        "table t { column a : b1; zero z : a*a + a; }",
        "Tables { decls: Items { items: [Table { name: Items { items: [116] }, items: Items { items: [Column { name: Items { items: [97] }, level: 0, log_values: 0 }, Zero { name: Items { items: [122] }, expr: Sum(Items { items: [Product(Items { items: [Column(Items { items: [97] }), Column(Items { items: [97] })] }), Column(Items { items: [97] })] }) }] } }] } }",
    ),
    (
        "table t { column a : b1 x 1; column b : b2 x 2; column c : b4 x 0x20; column d : b8 x 032; column e : b128 x 128; }",
        "Tables { decls: Items { items: [Table { name: Items { items: [116] }, items: Items { items: [Column { name: Items { items: [97] }, level: 0, log_values: 0 }, Column { name: Items { items: [98] }, level: 1, log_values: 1 }, Column { name: Items { items: [99] }, level: 2, log_values: 5 }, Column { name: Items { items: [100] }, level: 3, log_values: 5 }, Column { name: Items { items: [101] }, level: 7, log_values: 7 }] } }] } }",
    ),
    (
        "channel sums : 3;",
        "Tables { decls: Items { items: [Channel { name: Items { items: [115, 117, 109, 115] }, width: 3 }] } }",
    ),
    (
        "boundary pull sums (1, 2, 3);",
        "Tables { decls: Items { items: [Boundary { side: Pull, channel: Items { items: [115, 117, 109, 115] }, values: Items { items: [1, 2, 3] } }] } }",
    ),
    (
        "boundary push c(0xffffffffffffffffffffffffffffffff);",
        "Tables { decls: Items { items: [Boundary { side: Push, channel: Items { items: [99] }, values: Items { items: [340282366920938463463374607431768211455] } }] } }",
    ),
    (
        "table t { push c (a); }",
        "Tables { decls: Items { items: [Table { name: Items { items: [116] }, items: Items { items: [Flush { side: Push, channel: Items { items: [99] }, columns: Items { items: [Items { items: [97] }] }, selector: None }] } }] } }",
    ),
    (
        "table t{pull b1(a,b,a)if s;}",
        "Tables { decls: Items { items: [Table { name: Items { items: [116] }, items: Items { items: [Flush { side: Pull, channel: Items { items: [98, 49] }, columns: Items { items: [Items { items: [97] }, Items { items: [98] }, Items { items: [97] }] }, selector: Some(Items { items: [115] }) }] } }] } }",
    ),
    ("", "Tables { decls: Items { items: [] } }"),
    ("# nothing", "Tables { decls: Items { items: [] } }"),
    ("\t\r\n #table\n", "Tables { decls: Items { items: [] } }"),
    (
        "table t{}",
        "Tables { decls: Items { items: [Table { name: Items { items: [116] }, items: Items { items: [] } }] } }",
    ),
    (
        "table t{}table t#\n{}",
        "Tables { decls: Items { items: [Table { name: Items { items: [116] }, items: Items { items: [] } }, Table { name: Items { items: [116] }, items: Items { items: [] } }] } }",
    ),
    // A type's word is a name elsewhere.
    (
        "table b1 { column b8 : b128; }",
        "Tables { decls: Items { items: [Table { name: Items { items: [98, 49] }, items: Items { items: [Column { name: Items { items: [98, 56] }, level: 7, log_values: 0 }] } }] } }",
    ),
];

#[test]
fn readings(rt: HostRuntime) -> Result<(), Fail> {
    for &(text, want) in &READINGS {
        assert_eq!(rt; shown(&rt, text.as_bytes())?.as_str(), want, "{text}");
    }
    Ok(())
}

static FORMS: [(&str, &str); 10] = [
    (
        "shl(a, 5, 1)",
        "Shl { column: Items { items: [97] }, block: 5, offset: 1 }",
    ),
    (
        "shr(a,0x5,01)",
        "Shr { column: Items { items: [97] }, block: 5, offset: 1 }",
    ),
    (
        "rol(b32, 0, 340282366920938463463374607431768211455)",
        "Rol { column: Items { items: [98, 51, 50] }, block: 0, offset: 340282366920938463463374607431768211455 }",
    ),
    (
        "project(a, 5, 31)",
        "Project { column: Items { items: [97] }, log: 5, index: 31 }",
    ),
    (
        "pack(a, 5)",
        "Pack { column: Items { items: [97] }, log: 5 }",
    ),
    (
        "linear(a)",
        "Linear { constant: 0, terms: Items { items: [Term { coefficient: 1, column: Items { items: [97] } }] } }",
    ),
    (
        "linear(3 + a)",
        "Linear { constant: 3, terms: Items { items: [Term { coefficient: 1, column: Items { items: [97] } }] } }",
    ),
    (
        "linear(3 * a)",
        "Linear { constant: 0, terms: Items { items: [Term { coefficient: 3, column: Items { items: [97] } }] } }",
    ),
    (
        "linear(2 + 3 * a + b + 0 * c)",
        "Linear { constant: 2, terms: Items { items: [Term { coefficient: 3, column: Items { items: [97] } }, Term { coefficient: 1, column: Items { items: [98] } }, Term { coefficient: 0, column: Items { items: [99] } }] } }",
    ),
    (
        "linear(a + a)",
        "Linear { constant: 0, terms: Items { items: [Term { coefficient: 1, column: Items { items: [97] } }, Term { coefficient: 1, column: Items { items: [97] } }] } }",
    ),
];

#[test]
fn forms(rt: HostRuntime) -> Result<(), Fail> {
    for &(text, want) in &FORMS {
        let file = format!(in rt.alloc(); "table t {{ virtual v = {text}; }}")?;
        let want = format!(in rt.alloc();
            "Tables {{ decls: Items {{ items: [Table {{ name: Items {{ items: [116] }}, items: Items {{ items: [Virtual {{ name: Items {{ items: [118] }}, form: {want} }}] }} }}] }} }}"
        )?;
        assert_eq!(rt;
            shown(&rt, file.as_bytes())?.as_str(),
            want.as_str(),
            "{text}"
        );
    }
    Ok(())
}

static EXPRESSIONS: [(&str, &str); 14] = [
    // Parts of one are what they are of.
    ("7", "Number(7)"),
    ("((7))", "Number(7)"),
    ("0x1f", "Number(31)"),
    (
        "000000000000000000000000000000000000000000000000000000000000010",
        "Number(10)",
    ),
    (
        "0x00000000000000000000000000000000000000000000000000000000000aB",
        "Number(171)",
    ),
    (
        "340282366920938463463374607431768211455",
        "Number(340282366920938463463374607431768211455)",
    ),
    (
        "0xffffffffffffffffffffffffffffffff",
        "Number(340282366920938463463374607431768211455)",
    ),
    (
        "1+2+3",
        "Sum(Items { items: [Number(1), Number(2), Number(3)] })",
    ),
    (
        "1*2*3",
        "Product(Items { items: [Number(1), Number(2), Number(3)] })",
    ),
    (
        "1+2*3",
        "Sum(Items { items: [Number(1), Product(Items { items: [Number(2), Number(3)] })] })",
    ),
    (
        "(1*2)*3",
        "Product(Items { items: [Product(Items { items: [Number(1), Number(2)] }), Number(3)] })",
    ),
    (
        "1+(2+3)",
        "Sum(Items { items: [Number(1), Sum(Items { items: [Number(2), Number(3)] })] })",
    ),
    (
        "(b + 1)*b",
        "Product(Items { items: [Sum(Items { items: [Column(Items { items: [98] }), Number(1)] }), Column(Items { items: [98] })] })",
    ),
    (
        "(1*(2+3)*4+5)",
        "Sum(Items { items: [Product(Items { items: [Number(1), Sum(Items { items: [Number(2), Number(3)] }), Number(4)] }), Number(5)] })",
    ),
];

#[test]
fn expressions(rt: HostRuntime) -> Result<(), Fail> {
    for &(text, want) in &EXPRESSIONS {
        let file = format!(in rt.alloc(); "table t {{ zero z : {text}; }}")?;
        let want = format!(in rt.alloc();
            "Tables {{ decls: Items {{ items: [Table {{ name: Items {{ items: [116] }}, items: Items {{ items: [Zero {{ name: Items {{ items: [122] }}, expr: {want} }}] }} }}] }} }}"
        )?;
        assert_eq!(rt;
            shown(&rt, file.as_bytes())?.as_str(),
            want.as_str(),
            "{text}"
        );
    }
    Ok(())
}

#[test]
fn name_of_64_bytes(rt: HostRuntime) -> Result<(), Fail> {
    let text = b"table a234567890123456789012345678901234567890123456789012345678901234{}";
    assert_eq!(rt; text.len(), 6 + 64 + 2);
    assert_eq!(rt; stop(&rt, text), None);
    Ok(())
}

/// A constraint whose expression, at byte 18, has so many parentheses behind its front.
fn nested(alloc: Global, front: &str, count: usize) -> Result<Vec<u8>, AllocError> {
    let mut text = Vec::from_slice(alloc, b"table t { zero z: ")?;
    text.extend_from_slice(front.as_bytes())?;
    for _ in 0..count {
        text.push(b'(')?;
    }
    text.push(b'1')?;
    for _ in 0..count {
        text.push(b')')?;
    }
    text.extend_from_slice(b"; }")?;
    Ok(text)
}

#[test]
fn open_parentheses(rt: HostRuntime) -> Result<(), Fail> {
    for (front, count, want) in [
        ("", 32, None),
        ("", 33, fault(50, TextKind::TooDeep)),
        ("(1)+", 32, None),
        ("(1)+", 33, fault(54, TextKind::TooDeep)),
    ] {
        let text = nested(rt.alloc(), front, count)?;
        assert_eq!(rt; stop(&rt, &text), want, "{count} behind {front}");
    }
    // An unfinished text of them.
    let text = b"table t { zero z: (((((((((((((((((((((((((((((((((";
    assert_eq!(rt; stop(&rt, text), fault(50, TextKind::TooDeep));
    Ok(())
}

/// 65,534 times a piece of text, behind its front and before its back.
fn repeated(alloc: Global, front: &str, piece: &str, back: &str) -> Result<Vec<u8>, AllocError> {
    let mut text = Vec::from_slice(alloc, front.as_bytes())?;
    for _ in 0..65534 {
        text.extend_from_slice(piece.as_bytes())?;
    }
    text.extend_from_slice(back.as_bytes())?;
    Ok(text)
}

#[test]
fn many_declarations(rt: HostRuntime) -> Result<(), Fail> {
    for (front, piece, back, want) in [
        ("table t{", "column a:b1;", "}", None),
        (
            "table t{",
            "column a:b1;",
            "}table",
            fault(786417, TextKind::TooMany),
        ),
        // A boundary is one declaration, and so is a flush.
        (
            "",
            "boundary push c(1);",
            "table t{pull",
            fault(65534 * 19 + 8, TextKind::TooMany),
        ),
    ] {
        let text = repeated(rt.alloc(), front, piece, back)?;
        assert_eq!(rt; stop(&rt, &text), want, "{front}{piece}{back}");
    }
    Ok(())
}

#[test]
fn long_text(rt: HostRuntime) -> Result<(), Fail> {
    let mut text = Vec::from_slice(rt.alloc(), b"table t { zero z: ")?;
    for _ in 0..262000 {
        text.extend_from_slice(b"a*1+")?;
    }
    text.extend_from_slice(b"1; }")?;
    assert!(rt; 1048000 < text.len() && text.len() <= 1048576);
    assert_eq!(rt; stop(&rt, &text), None);
    Ok(())
}
