//! Trees of SHA-256 digests over leaves of 32 bytes, and the paths that show a leaf.

#![tactic(auto)]

mod bytes;
mod clash;
mod no_memory;
mod path;
mod tree;

pub use clash::{Clash, find_clash};
pub use no_memory::NoMemory;
pub use path::{check_path, own_paths, root_of};
pub use tree::Tree;
