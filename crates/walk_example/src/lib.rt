//! A worked example of a walk: the claim that a column's extension at a point is a value, moved to
//! another point by a sum claim.
//!
//! It shows what the author of a walk writes: what its sum is (`moved`), the walk (`move_walk`), its
//! prover (`move_prover`), and what follows from their clauses where walk and prover go side by side
//! (`meeting`).

#![tactic(auto)]

mod meeting;
mod move_prover;
mod move_walk;
mod moved;

pub use meeting::{meet, step};
pub use move_prover::MoveProver;
pub use move_walk::{MoveWalk, move_again};
pub use moved::Moved;
