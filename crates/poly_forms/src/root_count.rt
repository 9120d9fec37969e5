//! The number of roots of a polynomial.

ghost use Rattle.std.specs.Prelude.{◌<◌, ◌≤◌, ℕ, length};
ghost use Rattle.counting_laws.specs.Counting.{Distinct};
ghost use Rattle.poly_forms.specs.Roots.{AreRoots, IsDegree, IsNonzero};

use tower_field::B128;

/// A polynomial that is not 0 has a degree, and at most as many roots. The coefficients stand with
/// the lowest first.
pub fn roots_bound(coefficients: &[B128], roots: &[B128])
    requires nonzero { IsNonzero coefficients.now }
    requires are_roots { AreRoots coefficients.now roots.now }
    requires distinct { Distinct roots.now }
    ensures has_degree { (d : ℕ) × IsDegree coefficients.now d }
    ensures at_most_degree { (d : ℕ) → IsDegree coefficients.now d → length roots.now ≤ d }
    ensures fewer_than_coefficients { length roots.now < length coefficients.now }
{}
