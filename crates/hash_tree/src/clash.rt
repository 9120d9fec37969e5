//! Two strings with one hash.

ghost use Rattle.std.specs.Prelude.{◌≡◌, ◌≢◌, ◌↔◌, ◌⊎◌, ◌<◌, ◌/◌, ◌%◌, ◌^◌, [], get_or, length, IfSome, IsNone};
ghost use Rattle.hash_tree.specs.Clash.{IsClash, IsFirstMeeting};
ghost use Rattle.hash_tree.specs.Tree.{digest_at, root_by_path};

use crate::bytes::{beside, bytes_over, leaf_bytes};
use crate::path::check_path;
use crate::tree::Tree;
use sha2::{Digest, Sha256};

/// Two different strings with one SHA-256: the tree's own, and the one that was found.
#[derive(Clone, Copy, PartialEq, Eq, Debug)]
pub enum Clash {
    /// The strings of two leaves.
    Leaves { kept: [u8; 33], found: [u8; 33] },
    /// The strings of two nodes.
    Nodes { kept: [u8; 65], found: [u8; 65] },
}

/// The clash that stands where another leaf than the tree's has a path to the tree's root: the
/// strings at the least height where both have one digest. It takes no memory.
pub fn find_clash(tree: &Tree, index: u64, leaf: &[u8; 32], path: &[u8]) -> Option<Clash>
    requires index { index < length tree.now }
    requires whole { length path.now % 32 ≡ 0 }
    requires depth { length tree.now ≡ 2 ^ (length path.now / 32) }
    ensures none { IsNone result ↔ ((leaf.now ≡ get_or tree.now index []) ⊎ (root_by_path index leaf.now path.now ≢ digest_at tree.now (length path.now / 32) 0)) }
    ensures clash { IfSome result IsClash }
    ensures place { IfSome result (IsFirstMeeting tree.now index leaf.now path.now) }
{
    let own = tree.leaf(index);
    if *own == *leaf {
        return None;
    }
    if !check_path(&tree.root(), index, leaf, path) {
        return None;
    }
    let mut digest = Sha256::digest(&leaf_bytes(leaf));
    if digest == *tree.node(0, index) {
        return Some(Clash::Leaves {
            kept: leaf_bytes(own),
            found: leaf_bytes(leaf),
        });
    }
    for height in 0..tree.depth() {
        let place = index >> height;
        let kept = bytes_over(
            place,
            tree.node(height, place),
            tree.node(height, beside(place)),
        );
        let at = 32 * height as usize;
        let found = bytes_over(place, &digest, &path[at..at + 32]);
        digest = Sha256::digest(&found);
        if digest == *tree.node(height + 1, place / 2) {
            return Some(Clash::Nodes { kept, found });
        }
    }
    unreachable!()
}
