//! The hand-over from a prover that is done to the next.

ghost use Rattle.std.specs.Prelude.{reverse};
ghost use Rattle.sumcheck.specs.Machine.{Filling};
ghost use Rattle.walk_chain.specs.Chain.{Chained, settle};
ghost use Rattle.walk_chain.specs.Following.{Goes};

use crate::linked::Linked;
use crate::linked_prover::LinkedProver;

/// While the active prover is done, the next is entered. The next stands last in `todo`.
pub fn settle_provers<P: LinkedProver + Drop>(
    active: &mut P,
    todo: &mut Vec<P>,
    kept: &mut P::Waiting,
)
where
    P::Walk: Linked,
    ensures { (F : Filling) (s : Chained P.Walk P.Walk.Kept) → Goes P.follows P.made_for P.alike active.old todo.old.items kept.old F s → Goes P.follows P.made_for P.alike active.new todo.new.items kept.new F (settle P.Walk.chain s.todo s.active s.kept) }
{
    while active.is_done() {
        let Some(next) = todo.pop() else {
            return;
        };
        let done = std::mem::replace(active, next);
        done.leave(kept);
        active.enter(kept);
    }
}
