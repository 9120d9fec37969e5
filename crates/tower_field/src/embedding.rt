//! Elements as the same numbers at other levels.

ghost use Rattle.std.specs.Prelude.{◌≡◌, ◌↔◌, ℕ, ◌^◌, ◌≤◌, IfSome, IsNone};

use crate::element::Tower;

/// The element of the level of `K` with the same number.
#[tactic(auto, using(crate::proofs::LevelsNest::fits_above))]
pub fn lift<F: Tower, K: Tower>(a: F) -> K
    requires { F.LEVEL ≤ K.LEVEL }
    ensures { K.number result ≡ F.number a }
{
    match K::from_number(a.number()) {
        Some(element) => element,
        None => unreachable!(),
    }
}

/// The element of the level of `K` with the same number, if that level has it.
pub fn lower<F: Tower, K: Tower>(a: F) -> Option<K>
    ensures some { IfSome result (λ element. K.number element ≡ F.number a) }
    ensures none { IsNone result ↔ (2 ^ (2 ^ K.LEVEL) ≤ F.number a) }
{
    K::from_number(a.number())
}
