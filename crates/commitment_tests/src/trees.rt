//! Values worked out by other programs, and each call at a small and a large size.

ghost use Rattle.std.specs.Prelude.{◌≡◌, ◌≤◌, ◌^◌, length, IfOk};

use hash_tree::{Clash, NoMemory, Tree, check_path, find_clash, root_of};
use sha2::{Digest, Sha256};
use std::alloc::Global;
use std::test::Fail;

// The two halves of a digest, as they are written in hexadecimal digits.
fn halves(digest: &[u8; 32]) -> (u128, u128) {
    let mut high = [0u8; 16];
    high.copy_from_slice(&digest[..16]);
    let mut low = [0u8; 16];
    low.copy_from_slice(&digest[16..]);
    (u128::from_be_bytes(high), u128::from_be_bytes(low))
}

// Leaf i is the bytes of i and then 7s.
fn leaf(i: usize) -> [u8; 32] {
    let mut leaf = [7u8; 32];
    leaf[0] = (i % 256) as u8;
    leaf[1] = (i / 256 % 256) as u8;
    leaf
}

fn tree_over(alloc: Global, log: u32) -> Result<Tree, NoMemory>
    requires { log ≤ 32 }
    ensures { IfOk result (λ tree. length tree ≡ 2 ^ log) }
{
    let mut leaves: Vec<[u8; 32]> = Vec::new(alloc);
    'leaves: for i in 0..1usize << log {
        leaves.push(leaf(i))?;
    }
    Tree::build(alloc, leaves.as_slice())
}

// "abc" and the message of two blocks, with the digests that the examples of FIPS 180-4 give.
#[test]
fn published_digests(rt: HostRuntime) {
    let long = b"abcdbcdecdefdefgefghfghighijhijkijkljklmklmnlmnomnopnopq";
    assert_eq!(rt;
        halves(&Sha256::digest(b"abc")),
        (
            0xba7816bf8f01cfea414140de5dae2223,
            0xb00361a396177a9cb410ff61f20015ad
        )
    );
    assert_eq!(rt;
        halves(&Sha256::digest(long)),
        (
            0x248d6a61d20638b8e5c026930c3e6039,
            0xa33ce45964ff2167f6ecedd419db06c1
        )
    );
}

// Roots, and the digests of paths, as Python's hashlib makes them.
#[test]
fn roots_and_paths(rt: HostRuntime) -> Result<(), Fail> {
    for (log, root, path_digest) in [
        (
            0,
            (
                0x1060f42b337397c9ffff58d57fa5674f,
                0x279543fb050277efec68df5639cdbd7b,
            ),
            (
                0xe3b0c44298fc1c149afbf4c8996fb924,
                0x27ae41e4649b934ca495991b7852b855,
            ),
        ),
        (
            1,
            (
                0x5bacea65c18b90dad5c3a40b10093f9e,
                0x8be603f0b090e1f055468b5d3a50213a,
            ),
            (
                0x5226fba89e194438ec058376d277136b,
                0xd80147454a587e50f1f28114e06495c9,
            ),
        ),
        (
            3,
            (
                0x7fc49d26aa0c4295b57b403b554eddc0,
                0x66acb29ccac72f9843d9122bc41c4129,
            ),
            (
                0x48fa4616f4f7622ef0b95cd89dea8c63,
                0x43945b42f3ee343302d8d6b169233486,
            ),
        ),
        (
            12,
            (
                0xb970c2cf724bdea49fc974757bda3a7a,
                0xa9635f00ea6bd978f12bd64f1a166de9,
            ),
            (
                0xf26834f63a9d0c65a5667b9409d4cb6c,
                0xbda2b15c5969fc7a8f795407b6ee1b4f,
            ),
        ),
    ] {
        assert!(rt; log <= 12);
        let tree = tree_over(rt.alloc(), log)?;
        let index = (5u64 << log) / 8;
        let path = tree.path(rt.alloc(), index)?;
        assert_eq!(rt; halves(&tree.root()), root, "of 2^{log} leaves");
        assert_eq!(rt;
            halves(&Sha256::digest(path.as_slice())),
            path_digest,
            "in 2^{log} leaves"
        );
        assert_eq!(rt; path.len(), 32 * log as usize);
    }
    Ok(())
}

#[test]
fn paths_of_leaves(rt: HostRuntime) -> Result<(), Fail> {
    let tree = tree_over(rt.alloc(), 3)?;
    let root = tree.root();
    let path = tree.path(rt.alloc(), 5)?;
    assert_eq!(rt; path.len(), 96);
    let path = path.as_slice();
    assert_eq!(rt; *tree.leaf(5), leaf(5));
    assert_eq!(rt; root_of(5, &leaf(5), path), root);
    assert!(rt; check_path(&root, 5, &leaf(5), path));
    assert!(rt; !check_path(&root, 4, &leaf(5), path));
    assert!(rt; !check_path(&root, 5, &leaf(4), path));
    let clash: Option<Clash> = find_clash(&tree, 5, &leaf(4), path);
    assert_eq!(rt; clash, None);
    Ok(())
}
