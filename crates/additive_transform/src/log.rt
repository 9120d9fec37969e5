//! Logarithms of powers of 2.

ghost use Rattle.std.specs.Prelude.{◌≡◌, ◌^◌, ℕ};

/// The logarithm of a power of 2.
pub(crate) fn log_of(count: usize) -> u32
    requires { (m : ℕ) × (count ≡ 2 ^ m) }
    ensures value { count ≡ 2 ^ result }
    ensures only { (m : ℕ) → count ≡ 2 ^ m → result ≡ m }
{
    count.ilog2()
}
