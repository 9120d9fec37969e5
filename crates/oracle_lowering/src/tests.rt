//! Witnesses lowered: products at challenges, and bits at their places.

ghost use Rattle.std.specs.Prelude.{◌≡◌, ◌<◌, ◌^◌};
ghost use Rattle.table_shape.specs.Placement.{blocks, places_log};

use crate::leaf::element;
use crate::*;
use column_store::Store;
use std::alloc::Global;
use std::test::Fail;
use table_shape::resolve;
use table_text::read_tables;
use tower_field::{B128, Tower};
use witness_reader::read_witness;

/// The values of a witness for a text of at most a mebibyte.
fn stored(alloc: Global, text: &[u8], witness: &[u8]) -> Result<Store, Fail> {
    let tables = read_tables(alloc, &text[..text.len().min(1 << 20)])?;
    let shape = resolve(alloc, &tables)?;
    Ok(read_witness(alloc, &shape, witness)?)
}

/// Two rows push 5, and the boundary pulls it once.
const UNBALANCED: &[u8] =
    b"channel c : 1; boundary pull c (5); table t { column a : b8; push c (a); }";

/// One row pushes 5, but may not have it.
const NONZERO: &[u8] =
    b"channel c : 1; boundary pull c (5); table t { column a : b8; push c (a); zero z : a; }";

#[test]
fn products_of_examples(rt: HostRuntime) -> Result<(), Fail> {
    let two = br#"{"t":{"rows":2,"a":"0505"}}"#;
    let one = br#"{"t":{"rows":1,"a":"05"}}"#;
    for (text, witness, gamma, push, pull, holds) in [
        (UNBALANCED, two.as_slice(), 5, 0, 0, true),
        (UNBALANCED, two.as_slice(), 4, 1, 1, true),
        (UNBALANCED, two.as_slice(), 0, 8, 5, false),
        (NONZERO, one.as_slice(), 3, 6, 6, false),
    ] {
        let store = stored(rt.alloc(), text, witness)?;
        let lowered = lower(rt.alloc(), &store)?;
        let products = products_at(rt.alloc(), &lowered, B128::ONE, element(gamma))?;
        assert!(rt; products.pairs.as_slice().len() == 1);
        for pair in products.pairs.as_slice() {
            assert_eq!(rt; pair.push, element(push), "at {gamma}");
            assert_eq!(rt; pair.pull, element(pull), "at {gamma}");
        }
        assert_eq!(rt; products.holds, holds, "at {gamma}");
    }
    Ok(())
}

/// Tables of 3 rows, of which one is taken, 1 row and none; the channel e has no flushes.
const SATISFIED: &[u8] = b"channel c : 2; channel d : 1; channel e : 3; boundary pull c (3, 7);
    table t { column a : b8; column b : b8; column s : b1; push c (a, b) if s; zero z : s * (a + 3); }
    table u { column a : b128; push c (a, a); pull c (a, a); }
    table v { column a : b1; pull d (a); }";

#[test]
fn satisfied_tables_hold(rt: HostRuntime) -> Result<(), Fail> {
    let witness =
        br#"{"t":{"rows":3,"a":"090305","b":"060700","s":"02"},"u":{"rows":1,"a":"ff0000000000000000000000000000ff"},"v":{"rows":0,"a":""}}"#;
    let store = stored(rt.alloc(), SATISFIED, witness)?;
    let lowered = lower(rt.alloc(), &store)?;
    for (alpha, gamma) in [(0, 0), (1, 4), (2, 1 << 127), (u128::MAX, 3)] {
        let products = products_at(rt.alloc(), &lowered, element(alpha), element(gamma))?;
        assert!(rt; products.pairs.as_slice().len() == 3);
        assert!(rt; products.holds, "at {alpha} and {gamma}");
    }
    Ok(())
}

/// Columns that tie in size, in two tables.
const TIES: &[u8] =
    b"table t { column a : b8; column s : b1; column b : b1 x 8; virtual v = pack(b, 3); } table u { column w : b32; column c : b4 x 2; }";

/// A column of each level.
const LEVELS: &[u8] =
    b"table t { column a : b1; column b : b2; column c : b4; column d : b8; column e : b16; column f : b32; column g : b64; column h : b128; }";

/// More than two words.
const LONG: &[u8] = b"table t { column a : b1; column b : b128; }";

#[test]
fn bits_stand_at_their_places(rt: HostRuntime) -> Result<(), Fail> {
    let ties =
        br#"{"t":{"rows":4,"a":"01020480","s":"0a","b":"01000080"},"u":{"rows":3,"w":"000000800100000000010000","c":"210084"}}"#;
    let levels =
        br#"{"t":{"rows":1,"a":"01","b":"02","c":"08","d":"10","e":"0080","f":"01000000","g":"0000000000000080","h":"01000000000000000000000000000080"}}"#;
    let long =
        br#"{"t":{"rows":2,"a":"02","b":"0000000000000000000000000000000800100000000000000000000000000000"}}"#;
    let in_ties = [
        31, 32, 72, 128, 137, 146, 159, 160, 191, 192, 197, 210, 215, 225, 227,
    ];
    let in_levels = [0, 127, 191, 192, 239, 244, 251, 253, 254];
    let in_long = [123, 140, 257];
    for (text, witness, places, ones) in [
        (TIES, ties.as_slice(), 256, in_ties.as_slice()),
        (LEVELS, levels.as_slice(), 256, in_levels.as_slice()),
        (LONG, long.as_slice(), 512, in_long.as_slice()),
    ] {
        let store = stored(rt.alloc(), text, witness)?;
        let lowered = lower(rt.alloc(), &store)?;
        assert_eq!(rt; number_of_places(&lowered), places);
        for place in 0..number_of_places(&lowered) {
            let bit = lowered.bit(place);
            assert_eq!(rt; bit, ones.contains(&place), "at {place}");
            assert_eq!(rt; packed_bit(&lowered, place), bit, "at {place}");
        }
    }
    Ok(())
}

/// How many places the table of bits has.
fn number_of_places(lowered: &Lowered) -> u64
    ensures { result ≡ 2 ^ places_log (blocks lowered.now.shape.tables lowered.now.rows) }
{
    let placement = lowered.placement();
    let _blocks = placement.blocks();
    1u64 << placement.log_bits()
}

/// The bit of a place in its packed word.
fn packed_bit(lowered: &Lowered, place: u64) -> bool
    requires { place < 2 ^ places_log (blocks lowered.now.shape.tables lowered.now.rows) }
{
    lowered.packed(place / 128).number() >> (place % 128) as u32 & 1 == 1
}
