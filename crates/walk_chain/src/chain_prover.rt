//! The provers of a chain, as one prover.

ghost use Rattle.sumcheck.specs.Machine.{Filling};
ghost use Rattle.walk_chain.specs.Chain.{Chained, settle};
ghost use Rattle.walk_chain.specs.Following.{Goes};

use crate::chain_walk::ChainWalk;
use crate::linked::Linked;
use crate::linked_prover::LinkedProver;
use crate::settle_prover::settle_provers;
use sumcheck::{Honest, NoMemory};
use tower_field::B128;

/// A prover at work, those that come after it (the next one last), and what waits.
#[derive(Drop)]
pub struct ChainProver<P: LinkedProver + Drop>
where
    P::Walk: Linked,
{
    active: P,
    todo: Vec<P>,
    kept: P::Waiting,
}

impl<P: LinkedProver + Drop> ChainProver<P>
where
    P::Walk: Linked,
{
    /// The provers of a chain, of which the first has entered its walk. The next one of the others
    /// stands last.
    pub fn begin(active: P, todo: Vec<P>, kept: P::Waiting) -> ChainProver<P>
        ensures { (F : Filling) (s : Chained P.Walk P.Walk.Kept) → Goes P.follows P.made_for P.alike active todo.items kept F s → Goes P.follows P.made_for P.alike result.active result.todo.items result.kept F (settle P.Walk.chain s.todo s.active s.kept) }
    {
        let mut active = active;
        let mut todo = todo;
        let mut kept = kept;
        settle_provers(&mut active, &mut todo, &mut kept);
        ChainProver { active, todo, kept }
    }
}

impl<P: LinkedProver + Drop> Honest for ChainProver<P>
where
    P::Walk: Linked + Drop,
{
    type Walk = ChainWalk<P::Walk>;

    ghost follows = { λ p F s. Goes P.follows P.made_for P.alike p.active p.todo.items p.kept F s };

    fn message(&mut self, out: &mut Vec<B128>) -> Result<(), NoMemory> {
        P::Walk::is_linked();
        self.active.message(out)?;
        settle_provers(&mut self.active, &mut self.todo, &mut self.kept);
        Ok(())
    }

    fn draw(&mut self, c: B128) {
        P::Walk::is_linked();
        self.active.draw(c);
        settle_provers(&mut self.active, &mut self.todo, &mut self.kept);
    }
}
