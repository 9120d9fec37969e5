ghost use Rattle.std.specs.Prelude.{◌≡◌};
ghost use Rattle.byte_ends.specs.Counts.{raised};

/// One more, up to the largest number.
pub fn raise(count: u64) -> u64
    ensures { result ≡ raised count }
{
    count.saturating_add(1)
}
