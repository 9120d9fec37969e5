//! Canonical texts.

use std::process::Abort;
use std::test::Fail;
use table_text::{NoMemory, print_tables, read_tables};

fn printed(rt: &(impl Abort + AllocGlobal), text: &str) -> Vec<u8> {
    assert!(rt; text.len() < 1 << 32);
    match read_tables(rt.alloc(), text.as_bytes()) {
        Ok(tables) => match print_tables(rt.alloc(), &tables) {
            Ok(printed) => printed,
            Err(NoMemory) => panic!(rt; "no memory: {text}"),
        },
        Err(_) => panic!(rt; "not read: {text}"),
    }
}

static TEXTS: [(&str, &str); 6] = [
    ("", ""),
    (
        "channel c:03;boundary push c(1,0x10,0);boundary pull c(7);table t{push c(a,b,a);pull c(a)if s;}",
        "channel c : 3;\nboundary push c (1, 16, 0);\nboundary pull c (7);\ntable t {\n  push c (a, b, a);\n  pull c (a) if s;\n}\n",
    ),
    ("# nothing\n", ""),
    ("table t{}table\tu{\r\n}", "table t {\n}\ntable u {\n}\n"),
    (
        "table adder{column a:b1 x 0x20;column b:b128;column c:b4 x 01;virtual v=shl(a,5,01);virtual w=shr(a,0,0);virtual x1=rol(a,7,340282366920938463463374607431768211455);virtual p=pack(a,5);virtual q=project(a,5,0x1F);virtual l=linear(a);virtual m=linear(0+a+1*b);virtual n=linear(7+0*a+b+12*c);}",
        "table adder {\n  column a : b1 x 32;\n  column b : b128;\n  column c : b4;\n  virtual v = shl(a, 5, 1);\n  virtual w = shr(a, 0, 0);\n  virtual x1 = rol(a, 7, 340282366920938463463374607431768211455);\n  virtual p = pack(a, 5);\n  virtual q = project(a, 5, 31);\n  virtual l = linear(a);\n  virtual m = linear(a + b);\n  virtual n = linear(7 + 0 * a + b + 12 * c);\n}\n",
    ),
    (
        "table t { zero a : ((1)); zero b : 1+(2+3)+4*5; zero c : (1*2)*3; zero d : (1+2)*3*((4)+5); zero e : 1+(2*3); zero f : (((a+b)*c)+d)*e; }",
        "table t {\n  zero a : 1;\n  zero b : 1 + (2 + 3) + 4 * 5;\n  zero c : (1 * 2) * 3;\n  zero d : (1 + 2) * 3 * (4 + 5);\n  zero e : 1 + 2 * 3;\n  zero f : ((a + b) * c + d) * e;\n}\n",
    ),
];

#[test]
fn texts(rt: HostRuntime) -> Result<(), Fail> {
    for &(text, want) in &TEXTS {
        assert_eq!(rt; printed(&rt, text).as_slice(), want.as_bytes(), "{text}");
        // The canonical text is its own.
        assert_eq!(rt; printed(&rt, want).as_slice(), want.as_bytes(), "{want}");
    }
    Ok(())
}
