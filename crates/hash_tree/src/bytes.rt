//! The strings that are hashed.

ghost use Rattle.std.specs.Prelude.{◌≡◌, ◌+◌, ◌<◌, ◌^◌, length};
ghost use Rattle.hash_tree.specs.Tree.{beside, leaf_bytes, node_bytes, over};

/// The string whose hash is a leaf's digest.
pub(crate) fn leaf_bytes(leaf: &[u8; 32]) -> [u8; 33]
    ensures { result ≡ leaf_bytes leaf.now }
{
    let mut bytes = [0u8; 33];
    bytes[1..].copy_from_slice(leaf);
    bytes
}

/// The string whose hash is the digest of a node with these children.
pub(crate) fn node_bytes(left: &[u8], right: &[u8]) -> [u8; 65]
    requires left { length left.now ≡ 32 }
    requires right { length right.now ≡ 32 }
    ensures { result ≡ node_bytes left.now right.now }
{
    let mut bytes = [1u8; 65];
    bytes[1..33].copy_from_slice(left);
    bytes[33..].copy_from_slice(right);
    bytes
}

/// The string of the node over a place, by the digest there and the one beside it.
pub(crate) fn bytes_over(place: u64, digest: &[u8; 32], beside: &[u8]) -> [u8; 65]
    requires { length beside.now ≡ 32 }
    ensures { result ≡ over place digest.now beside.now }
{
    if place % 2 == 1 {
        node_bytes(beside, digest)
    } else {
        node_bytes(digest, beside)
    }
}

/// The place beside this one, under the same node.
pub(crate) fn beside(place: u64) -> u64
    requires { place + 1 < 2 ^ 64 }
    ensures { result ≡ beside place }
{
    if place % 2 == 1 { place - 1 } else { place + 1 }
}
