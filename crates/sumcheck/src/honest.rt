//! What every prover does.

ghost use Rattle.std.specs.Prelude.{◌≡◌, ℕ, List, ◌++◌, length, IfOk};
ghost use Rattle.sumcheck.specs.Machine.{AwaitsDraw, AwaitsSome, Filling, Machine};

use crate::no_memory::NoMemory;
use crate::steps::Steps;
use tower_field::B128;

/// A prover, who gives the true values of its walk's messages.
pub trait Honest {
    type Walk: Steps;

    /// The prover goes along with a walk in this state, for a filling.
    ghost follows: { Self → Filling → Self.Walk → Type 0 };

    /// Appends the true values of the message that is due.
    fn message(&mut self, out: &mut Vec<B128>) -> Result<(), NoMemory>
        requires { (F : Filling) × (s : Self.Walk) × (_ : follows self.old F s) × AwaitsSome (Self.Walk.machine.entries s) }
        ensures values { IfOk result (λ _. (F : Filling) (s : Self.Walk) → follows self.old F s → AwaitsSome (Self.Walk.machine.entries s) → out.new.items ≡ out.old.items ++ Self.Walk.machine.honest F s) }
        ensures state { IfOk result (λ _. (F : Filling) (s : Self.Walk) → follows self.old F s → AwaitsSome (Self.Walk.machine.entries s) → follows self.new F (Self.Walk.machine.after_message s (Self.Walk.machine.honest F s))) };

    fn draw(&mut self, c: B128)
        requires { (F : Filling) × (s : Self.Walk) × (_ : follows self.old F s) × AwaitsDraw (Self.Walk.machine.entries s) }
        ensures { (F : Filling) (s : Self.Walk) → follows self.old F s → AwaitsDraw (Self.Walk.machine.entries s) → follows self.new F (Self.Walk.machine.after_draw s c) };
}
