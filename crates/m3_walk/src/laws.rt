//! Laws of the reductions of a proof.

ghost use Rattle.m3_walk.specs.Course.{AreShort, ArePlans, AreSuited};

/// The reductions of a shape's tables on some rows, in their order: what is due of them is the plan of
/// their proof, each can be entered when its turn comes, and they are few. Does nothing.
pub fn courses_are_plans()
    ensures plans { ArePlans }
    ensures suited { AreSuited }
    ensures short { AreShort }
{}
