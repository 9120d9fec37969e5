//! The claims of walks that are to come.

ghost use Rattle.std.specs.Prelude.{◌≡◌, ◌<◌, ◌≤◌, ◌^◌, flat_map, length, reverse, slice_get, Some};
ghost use Rattle.sumcheck.specs.Claim.{claim_of};

use crate::linked::Linked;
use sumcheck::Pending;

/// How many claims are those of walks that are to come.
pub fn count_waiting<A: Linked>(todo: &[A]) -> u32
    requires { length todo.now ≤ 2 ^ 17 }
    ensures count { result ≡ length (flat_map A.chain.stage_pending (reverse todo.now)) }
    ensures few { result ≤ 2 ^ 30 }
{
    let mut count = 0;
    for walk in todo {
        count += walk.waiting_count();
    }
    count
}

/// A claim of the walks that are to come, of which the next stands last.
pub fn waiting_at<A: Linked>(todo: &[A], i: u32) -> Pending<'_>
    requires { i < length (flat_map A.chain.stage_pending (reverse todo.now)) }
    ensures { slice_get (flat_map A.chain.stage_pending (reverse todo.now)) i ≡ Some (claim_of result) }
{
    let mut left = i;
    let mut k = todo.len();
    while k > 0 {
        k -= 1;
        let walk = &todo[k];
        let count = walk.waiting_count();
        if left < count {
            return walk.waiting(left);
        }
        left -= count;
    }
    unreachable!()
}
