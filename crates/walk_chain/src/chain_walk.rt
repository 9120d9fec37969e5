//! The walks of a chain, as one walk.

ghost use Rattle.std.specs.Prelude.{◌≡◌, ◌≤◌, ◌^◌, length, reverse};
ghost use Rattle.walk_chain.specs.Chain.{chained, settle, Suits};

use crate::hand_over::settle;
use crate::linked::Linked;
use crate::waiting::{count_waiting, waiting_at};
use std::marker::Model;
use sumcheck::{Entry, Pending, Refused, Steps};
use tower_field::B128;

/// A walk, those that come after it, and the claims that wait. A walk that is done hands over at
/// once, so the active one is done only at the end.
#[derive(Drop)]
pub struct ChainWalk<A: Linked + Drop> {
    active: A,
    todo: Vec<A>,
    kept: A::Kept,
}

impl<A: Linked + Drop> Model for ChainWalk<A> {
    ghost use Rattle.std.specs.Prelude.{reverse};
    ghost use Rattle.walk_chain.specs.Chain.{Chained, Ready};

    ghost Value = { Chained A A.Kept };

    ghost view = { λ w. record { active = w.active; todo = reverse w.todo.items; kept = w.kept } };

    ghost invariant = { λ w. Ready A.chain w.active w.todo.items w.kept };
}

impl<A: Linked + Drop> ChainWalk<A> {
    /// The chain of a walk that is entered already and at most 131,072 others, of which the next
    /// stands last.
    pub fn begin(active: A, todo: Vec<A>, kept: A::Kept) -> ChainWalk<A>
        requires suits { Suits A.chain (A.chain.left_key active (A.chain.key kept)) (reverse todo.items) }
        requires few { length todo.items ≤ 2 ^ 17 }
        ensures { result ≡ settle A.chain (reverse todo.items) active kept }
    {
        let mut active = active;
        let mut todo = todo;
        let mut kept = kept;
        settle(&mut active, &mut todo, &mut kept);
        ChainWalk { active, todo, kept }
    }

    /// The walk that is at work.
    pub fn active(&self) -> &A
        ensures { result.now ≡ self.now.active }
    {
        &self.active
    }

    /// The claims that wait.
    pub fn kept(&self) -> &A::Kept
        ensures { result.now ≡ self.now.kept }
    {
        &self.kept
    }
}

impl<A: Linked + Drop> Steps for ChainWalk<A> {
    ghost machine = { chained A.chain };

    fn is_lawful() {
        A::is_linked();
    }

    fn due(&self) -> Option<Entry> {
        A::is_linked();
        self.active.due()
    }

    fn message(&mut self, values: &[B128]) -> Result<(), Refused> {
        A::is_linked();
        if let Err(refused) = self.active.message(values) {
            return Err(refused);
        }
        settle(&mut self.active, &mut self.todo, &mut self.kept);
        Ok(())
    }

    fn draw(&mut self, c: B128) {
        A::is_linked();
        self.active.draw(c);
        settle(&mut self.active, &mut self.todo, &mut self.kept);
    }

    fn round_claim(&self) -> Option<B128> {
        A::is_linked();
        self.active.round_claim()
    }

    fn pending_count(&self) -> u32 {
        A::is_linked();
        self.active.is_short();
        let own = self.active.pending_count();
        let kept = A::kept_count(&self.kept);
        own + kept + count_waiting(self.todo.as_slice())
    }

    fn pending(&self, i: u32) -> Pending<'_> {
        A::is_linked();
        let own = self.active.pending_count();
        if i < own {
            return self.active.pending(i);
        }
        let kept = A::kept_count(&self.kept);
        if i - own < kept {
            return A::kept_pending(&self.kept, i - own);
        }
        waiting_at(self.todo.as_slice(), i - own - kept)
    }
}
