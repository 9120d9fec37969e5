//! Trees over a list of leaves.

ghost use Rattle.std.specs.Prelude.{◌≡◌, ◌<◌, ◌≤◌, ℕ, ◌+◌, ◌*◌, ◌^◌, List, get_or, [], length, IfOk};
ghost use Rattle.hash_tree.specs.Built.{IsBuilt};
ghost use Rattle.hash_tree.specs.Tree.{IsPath, IsRoot, IsTreeLength, digest_at};

use crate::bytes::{beside, leaf_bytes, node_bytes};
use crate::no_memory::NoMemory;
use sha2::{Digest, Sha256};
use std::alloc::Global;
use std::marker::Model;

/// A tree over 2^k leaves of 32 bytes, k at most 32. A contract sees the list of its leaves.
///
/// `digests` has those of all nodes, level by level from the leaves up.
#[derive(Drop)]
pub struct Tree {
    leaves: Vec<[u8; 32]>,
    digests: Vec<[u8; 32]>,
    depth: u32,
}

impl Model for Tree {
    ghost Value = { List (List ℕ) };

    ghost view = { λ tree. tree.leaves.items };

    ghost invariant = { λ tree. IsBuilt tree.leaves.items tree.digests.items tree.depth };
}

/// The digests of all nodes: those of the leaves, and then each made of two before it.
fn digests_of(alloc: Global, leaves: &[[u8; 32]], depth: u32) -> Result<Vec<[u8; 32]>, NoMemory>
    requires low { depth ≤ 32 }
    requires full { length leaves.now ≡ 2 ^ depth }
    ensures { IfOk result (λ digests. IsBuilt leaves.now digests.items depth) }
{
    let count = leaves.len();
    let mut digests: Vec<[u8; 32]> = Vec::with_capacity(alloc, 2 * count)?;
    'leaves: for i in 0..count {
        let digest = Sha256::digest(&leaf_bytes(&leaves[i]));
        digests.push(digest)?;
    }
    'nodes: for j in 0..count - 1 {
        let digest = Sha256::digest(&node_bytes(&digests[2 * j], &digests[2 * j + 1]));
        digests.push(digest)?;
    }
    Ok(digests)
}

impl Tree {
    /// The tree over these leaves.
    pub fn build(alloc: Global, leaves: &[[u8; 32]]) -> Result<Tree, NoMemory>
        requires { IsTreeLength (length leaves.now) }
        ensures { IfOk result (λ tree. tree ≡ leaves.now) }
    {
        let depth = leaves.len().ilog2();
        let digests = digests_of(alloc, leaves, depth)?;
        let leaves = Vec::from_slice(alloc, leaves)?;
        Ok(Tree {
            leaves,
            digests,
            depth,
        })
    }

    /// How many levels of nodes stand over the leaves.
    pub(crate) fn depth(&self) -> u32
        ensures leaves { length self.now ≡ 2 ^ result }
        ensures low { result ≤ 32 }
    {
        self.depth
    }

    /// A leaf. It takes no memory.
    pub fn leaf(&self, index: u64) -> &[u8; 32]
        requires { index < length self.now }
        ensures { result.now ≡ get_or self.now index [] }
    {
        &self.leaves[index as usize]
    }

    /// The digest of the node at a height and a place, all of whose leaves are leaves of the tree.
    pub(crate) fn node(&self, height: u32, place: u64) -> &[u8; 32]
        requires { (place + 1) * 2 ^ height ≤ length self.now }
        ensures { result.now ≡ digest_at self.now height place }
    {
        let width = 2 * self.leaves.len();
        &self.digests[width - (width >> height) + place as usize]
    }

    /// The digest of the highest node. It takes no memory.
    pub fn root(&self) -> [u8; 32]
        ensures { IsRoot self.now result }
    {
        *self.node(self.depth(), 0)
    }

    /// The digests beside the line of a leaf, from the leaf up, 32 bytes each.
    pub fn path(&self, alloc: Global, index: u64) -> Result<Vec<u8>, NoMemory>
        requires { index < length self.now }
        ensures { IfOk result (λ path. IsPath self.now index path.items) }
    {
        let depth = self.depth();
        let mut path: Vec<u8> = Vec::with_capacity(alloc, 32 * depth as usize)?;
        for height in 0..depth {
            path.extend_from_slice(self.node(height, beside(index >> height)))?;
        }
        Ok(path)
    }
}
