//! What the provers of a chain share.

ghost use Rattle.std.specs.Prelude.{◌≡◌, ◌↔◌, [], IsTrue};
ghost use Rattle.sumcheck.specs.Machine.{Filling};

use crate::linked::Linked;
use sumcheck::Honest;

/// A prover of a chain. It goes along with its walk, whatever values that walk was told.
pub trait LinkedProver: Honest
where
    Self::Walk: Linked,
{
    /// What the prover knows of the claims that wait.
    type Waiting: Drop;

    /// The prover was made for this walk, which isn't entered yet.
    ghost made_for: { Self → Self.Walk → Type 0 };

    /// The claims that wait are on the same columns at the same points; the values may differ.
    ghost alike: { Self.Waiting → Self.Walk.Kept → Type 0 };

    fn is_done(&self) -> bool
        ensures { (F : Filling) (a : Self.Walk) → Self.follows self.now F a → IsTrue result ↔ (Self.Walk.chain.walk.entries a ≡ []) };

    /// Takes its claims out of those that wait.
    fn enter(&mut self, kept: &mut Self::Waiting)
        ensures { (F : Filling) (g : Self.Walk) (w : Self.Walk.Kept) → made_for self.old g → alike kept.old w → (_ : Self.follows self.new F (Self.Walk.chain.enter g w)) × alike kept.new (Self.Walk.chain.stays g w) };

    /// Adds the claims that it leaves to those that wait.
    fn leave(self, kept: &mut Self::Waiting)
        ensures { (F : Filling) (a : Self.Walk) (w : Self.Walk.Kept) → Self.follows self F a → Self.Walk.chain.walk.entries a ≡ [] → alike kept.old w → alike kept.new (Self.Walk.chain.leaves a w) };
}
