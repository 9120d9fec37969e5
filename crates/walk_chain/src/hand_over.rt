//! The hand-over from a walk that is done to the next.

ghost use Rattle.std.specs.Prelude.{◌≡◌, ◌≤◌, length, reverse};
ghost use Rattle.walk_chain.specs.Chain.{Suits, settle};

use crate::linked::Linked;

/// While the active walk is done, the next is entered. The next stands last in `todo`.
pub fn settle<A: Linked + Drop>(active: &mut A, todo: &mut Vec<A>, kept: &mut A::Kept)
    requires { Suits A.chain (A.chain.left_key active.old (A.chain.key kept.old)) (reverse todo.old.items) }
    ensures state { record { active = active.new; todo = reverse todo.new.items; kept = kept.new } ≡ settle A.chain (reverse todo.old.items) active.old kept.old }
    ensures suits { Suits A.chain (A.chain.left_key active.new (A.chain.key kept.new)) (reverse todo.new.items) }
    ensures fewer { length todo.new.items ≤ length todo.old.items }
{
    A::is_linked();
    while active.due().is_none() {
        let Some(next) = todo.pop() else {
            return;
        };
        let done = std::mem::replace(active, next);
        done.leave(kept);
        active.enter(kept);
    }
}
