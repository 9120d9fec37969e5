//! Paths from a leaf to the root.

ghost use Rattle.std.specs.Prelude.{◌≡◌, ◌↔◌, ◌%◌, length, IsTrue};
ghost use Rattle.hash_tree.specs.Tree.{OwnPathsCheck, root_by_path};

use crate::bytes::{bytes_over, leaf_bytes};
use sha2::{Digest, Sha256};

/// The root to which a path leads from a leaf. Bit k of the index says whether the digest at height
/// k is the right one of its two. It takes no memory.
pub fn root_of(index: u64, leaf: &[u8; 32], path: &[u8]) -> [u8; 32]
    requires { length path.now % 32 ≡ 0 }
    ensures { result ≡ root_by_path index leaf.now path.now }
{
    let mut place = index;
    let mut digest = Sha256::digest(&leaf_bytes(leaf));
    for height in 0..path.len() / 32 {
        let beside = &path[32 * height..32 * height + 32];
        digest = Sha256::digest(&bytes_over(place, &digest, beside));
        place /= 2;
    }
    digest
}

/// Whether a path leads from a leaf to this root. It takes no memory.
pub fn check_path(root: &[u8; 32], index: u64, leaf: &[u8; 32], path: &[u8]) -> bool
    requires { length path.now % 32 ≡ 0 }
    ensures { IsTrue result ↔ (root_by_path index leaf.now path.now ≡ root.now) }
{
    root_of(index, leaf, path) == *root
}

/// The path that a tree gives for a leaf leads from that leaf to the tree's root.
pub fn own_paths()
    ensures { OwnPathsCheck }
{}
