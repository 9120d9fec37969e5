//! Values worked out by another program, and each call at a small and a large size.

ghost use Rattle.std.specs.Prelude.{◌≡◌, ◌<◌, ◌≤◌, ◌^◌, length, IfOk};

use additive_transform::Basis;
use fri_fold::{FoldProver, QueryCheck, QueryFault, fold_pair};
use sha2::{Digest, Sha256};
use std::alloc::{AllocError, Global};
use std::test::Fail;
use tower_field::{B128, Tower};

// The first half of a digest, as it is written in hexadecimal digits.
fn first_half(digest: &[u8; 32]) -> u128 {
    let mut half = [0u8; 16];
    half.copy_from_slice(&digest[..16]);
    u128::from_be_bytes(half)
}

fn wide(number: u128) -> B128 {
    B128::from_bytes(number.to_le_bytes())
}

#[test]
fn smallest_table(rt: HostRuntime) -> Result<(), Fail> {
    let folded = fold_pair(wide(4), wide(9), wide(11), wide(4));
    assert_eq!(rt; folded.number(), 13);

    let basis = Basis::new(rt.alloc(), 3)?;
    let values = vec![in rt.alloc(); wide(1), wide(2)]?;
    let mut prover = FoldProver::commit(rt.alloc(), &basis, values)?;
    let root = prover.root();
    assert_eq!(rt; first_half(&root), 0xba4d31c921f515e195bfb7a8803565d9);
    assert_eq!(rt; prover.bind(&basis, wide(4))?, None);
    assert_eq!(rt; prover.tree(0).root(), root);
    let constant = prover.constant();
    assert_eq!(rt; constant.number(), 13);
    let mut out: Vec<u8> = Vec::new(rt.alloc());
    prover.open_query(3, &mut out)?;
    assert_eq!(rt; out.len(), 96);
    assert_eq!(rt;
        first_half(&Sha256::digest(out.as_slice())),
        0xa7dd67ea84422c49eb41a3a900464fb1
    );

    let mut leaf = [0u8; 32];
    leaf.copy_from_slice(&out.as_slice()[..32]);
    let path = &out.as_slice()[32..];
    assert!(rt; path.len() % 32 == 0);
    let mut check = QueryCheck::begin(7, 3);
    assert_eq!(rt; check.opening(&basis, &root, wide(4), &leaf, path), Ok(()));
    assert_eq!(rt; check.end(constant), Ok(()));
    assert_eq!(rt;
        check.end(wide(12)),
        Err(QueryFault::FoldBad {
            query: 7,
            round: 1,
            left: constant,
            right: wide(12)
        })
    );
    let mut check = QueryCheck::begin(7, 2);
    let refused = check.opening(&basis, &root, wide(4), &leaf, path);
    assert!(rt;
        matches!(
            refused,
            Err(QueryFault::PathBad {
                query: 7,
                round: 0,
                ..
            })
        )
    );
    Ok(())
}

fn table(alloc: Global, log: u32) -> Result<Vec<B128>, AllocError>
    requires { log ≤ 22 }
    ensures { IfOk result (λ values. length values.items ≡ 2 ^ log) }
{
    let mut values: Vec<B128> = Vec::new(alloc);
    'values: for i in 0..1usize << log {
        values.push(B128::from_bytes([((i * 7 + 3) % 256) as u8; 16]))?;
    }
    Ok(values)
}

// Whether the openings of a query pass, in the eight rounds of the test below.
fn passes(basis: &Basis, roots: &[[u8; 32]], openings: &[u8], index: u64, constant: B128) -> bool
    requires basis { basis.now ≡ 10 }
    requires index { index < 512 }
{
    let mut check = QueryCheck::begin(0, index);
    let mut rest = openings;
    'rounds: for j in 0..8u8 {
        let opening = 32 * (10 - j as usize);
        if rest.len() < 32 || rest.len() < opening || roots.len() != 8 {
            return false;
        }
        let mut leaf = [0u8; 32];
        leaf.copy_from_slice(&rest[..32]);
        let path = &rest[32..opening];
        let r = B128::from_bytes([j + 1; 16]);
        let answer = check.opening(basis, &roots[j as usize], r, &leaf, path);
        if answer.is_err() {
            return false;
        }
        rest = &rest[opening..];
    }
    check.end(constant).is_ok()
}

// The roots, the constant and the openings of a table of 256 values, as a short program in Python
// makes them from the definitions; and the openings pass.
#[test]
fn eight_folds(rt: HostRuntime) -> Result<(), Fail> {
    let basis = Basis::new(rt.alloc(), 10)?;
    let values = table(rt.alloc(), 8)?;
    let mut prover = FoldProver::commit(rt.alloc(), &basis, values)?;
    let mut roots: Vec<[u8; 32]> = Vec::new(rt.alloc());
    roots.push(prover.root())?;
    'folds: for j in 0..8u8 {
        let answer = prover.bind(&basis, B128::from_bytes([j + 1; 16]))?;
        assert_eq!(rt; answer.is_none(), j == 7);
        if let Some(root) = answer {
            roots.push(root)?;
        }
    }
    let want = [
        0x59af0bc1b3662e12b4bec457d02f443b,
        0x0e83deca3792f6477b11bff3c5bd8dda,
        0xaa49d1b5558c7fd0d7571b0efe446940,
        0xa9438d850a5bb0fda67a312e02822678,
        0x3121b81b95c5d615c0cbc5b868421b8c,
        0xcf7591670328a08f13305212abbc3e06,
        0xb8ea6cfa4f372f3251f1e22f94e86600,
        0x54b4fb02f119dd25a9daa4a4969cdccb,
    ];
    assert_eq!(rt; roots.len(), want.len());
    for (root, half) in roots.iter().zip(want.iter()) {
        assert_eq!(rt; first_half(root), *half);
    }
    let constant = prover.constant();
    assert_eq!(rt; constant.number(), 0x4940d0545fb10fcedf54b713ceed56c6);

    let mut out: Vec<u8> = Vec::new(rt.alloc());
    prover.open_query(300, &mut out)?;
    assert_eq!(rt; out.len(), 1664);
    assert_eq!(rt;
        first_half(&Sha256::digest(out.as_slice())),
        0xd90263f6418b9d4f41d8e365139c34c7
    );
    assert!(rt; passes(&basis, roots.as_slice(), out.as_slice(), 300, constant));
    assert!(rt; !passes(&basis, roots.as_slice(), out.as_slice(), 301, constant));
    Ok(())
}
