//! Rows and columns of 128 words exchanged.

ghost use Rattle.std.specs.Prelude.{◌≡◌, ◌+◌, ◌<◌, [], ◌∷◌, ℕ, slice_index};
ghost use Rattle.cube_laws.specs.Extension.{bit};
ghost use Rattle.packed_words.specs.Exchange.{with_bit};

/// For each bit of a position, the positions that have 0 there.
pub(crate) const CLEAR: [u128; 7] = [
    0x5555_5555_5555_5555_5555_5555_5555_5555,
    0x3333_3333_3333_3333_3333_3333_3333_3333,
    0x0f0f_0f0f_0f0f_0f0f_0f0f_0f0f_0f0f_0f0f,
    0x00ff_00ff_00ff_00ff_00ff_00ff_00ff_00ff,
    0x0000_ffff_0000_ffff_0000_ffff_0000_ffff,
    0x0000_0000_ffff_ffff_0000_0000_ffff_ffff,
    0x0000_0000_0000_0000_ffff_ffff_ffff_ffff,
];

/// Two rows, of which the first has 0 as bit k of its number and the other 1, with that bit
/// exchanged with bit k of the position.
#[inline(always)]
fn exchanged(rows: (u128, u128), k: u32) -> (u128, u128)
    requires { k < 7 }
    ensures first { (v : ℕ) → v < 128 → bit result.0 v ≡ bit (slice_index (rows.0 ∷ rows.1 ∷ []) (bit v k)) (with_bit k v 0) }
    ensures second { (v : ℕ) → v < 128 → bit result.1 v ≡ bit (slice_index (rows.0 ∷ rows.1 ∷ []) (bit v k)) (with_bit k v 1) }
{
    let width = 1u32 << k;
    let moved = ((rows.0 >> width) ^ rows.1) & CLEAR[k as usize];
    (rows.0 ^ (moved << width), rows.1 ^ moved)
}

/// Exchanges bit k of a row's number with bit k of the position.
#[inline(always)]
fn exchange(rows: &mut [u128; 128], k: u32)
    requires { k < 7 }
    ensures { (u v : ℕ) → u < 128 → v < 128 → bit (slice_index rows.new u) v ≡ bit (slice_index rows.old (with_bit k u (bit v k))) (with_bit k v (bit u k)) }
{
    for u in 0..128usize {
        if u >> k & 1 == 0 {
            let beside = u + (1usize << k);
            let (first, second) = exchanged((rows[u], rows[beside]), k);
            rows[u] = first;
            rows[beside] = second;
        }
    }
}

/// Exchanges rows and columns: bit v of row u becomes bit u of row v.
pub fn transpose128(rows: &mut [u128; 128])
    ensures { (u v : ℕ) → u < 128 → v < 128 → bit (slice_index rows.new u) v ≡ bit (slice_index rows.old v) u }
{
    for k in 0..7 {
        exchange(rows, k);
    }
}
