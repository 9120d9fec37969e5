//! The prover.

ghost use Rattle.std.specs.Prelude.{◌≡◌, ◌<◌, ◌≤◌, ◌^◌, ℕ, [], length, IfOk};
ghost use Rattle.sumcheck.specs.Machine.{Filling};
ghost use Rattle.sumcheck.specs.Rounds.{sum_claim};
ghost use Rattle.sumcheck.specs.Summing.{adding};
ghost use Rattle.sumcheck.specs.Pair.{pair_form};
ghost use Rattle.sumcheck.specs.Proving.{Accompanies};
ghost use Rattle.walk_example.specs.Move.{the_sum};
ghost use Rattle.walk_example.specs.declared.moved.Moved.{Moved};

use crate::move_walk::MoveWalk;
use cube_mle::eq_table;
use std::alloc::Global;
use sumcheck::{Honest, NoMemory, Pair, SumProver, Tables128};
use tower_field::{B128, Values};

/// The prover of a claim on a column that is moved.
#[derive(Drop)]
pub struct MoveProver {
    sum: SumProver<Pair>,
}

impl MoveProver {
    /// The prover for a column, whose values are `cells`, and a claim at a point.
    pub fn begin(alloc: Global, point: &[B128], cells: Values) -> Result<MoveProver, NoMemory>
        requires few { length point.now ≤ 32 }
        requires whole { length cells ≡ 2 ^ length point.now }
        ensures { IfOk result (λ prover. (F : Filling) (t : Moved) (c : ℕ) → t.claim.point ≡ point.now → F t.claim.table t.claim.column ≡ cells → Accompanies the_sum pair_form prover.sum F (adding t (sum_claim 2 (length point.now) [] c))) }
    {
        let Ok(weights) = eq_table(alloc, point) else {
            return Err(NoMemory);
        };
        let mut tables = Tables128::new(alloc);
        tables.push(Values::from_vec(weights))?;
        tables.push(cells)?;
        let sum = SumProver::begin(alloc, Pair, 2, tables)?;
        Ok(MoveProver { sum })
    }
}

impl Honest for MoveProver {
    type Walk = MoveWalk;

    ghost follows = { λ p F s. Accompanies the_sum pair_form p.sum F s };

    fn message(&mut self, out: &mut Vec<B128>) -> Result<(), NoMemory> {
        if self.sum.left() > 0 {
            self.sum.round(out)?;
            return Ok(());
        }
        let finals = self.sum.finals();
        if out.push(finals[1]).is_err() {
            return Err(NoMemory);
        }
        Ok(())
    }

    fn draw(&mut self, c: B128) {
        self.sum.bind(c);
    }
}
