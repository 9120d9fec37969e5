//! Where the bits of a claim's column stand.

ghost use Rattle.std.specs.Prelude.{◌≡◌, ◌≤◌, ◌<◌, ◌+◌, ◌*◌, ◌^◌, drop, length, take};
ghost use Rattle.cube_laws.specs.Extension.{bits_of, eq_points};
ghost use Rattle.column_laws.specs.Basis.{basis_at};
ghost use Rattle.bit_claim.specs.Bits.{above_in, claim_at, level_in, part_in, size_in, IsPlaced};

use crate::placement::Placement;
use cube_mle::eq_at;
use sumcheck::ColumnClaim;
use tower_field::{B128, Tower};

/// The bits of a claim's column, `2 ^ level` for each value: of `2 ^ above` parts of the table of bits
/// that with this index.
#[derive(Clone, Copy)]
pub struct Part {
    pub level: u32,
    pub above: u32,
    pub index: u64,
}

impl Part {
    /// That of a claim.
    pub fn of(placement: &Placement, claim: &ColumnClaim) -> Part
        requires { IsPlaced placement.now claim.now }
        ensures part { result ≡ record { level = level_in placement.now claim.now; above = above_in placement.now claim.now; index = part_in placement.now claim.now } }
        ensures low { result.level ≤ 7 }
        ensures small { result.index * 2 ^ size_in placement.now claim.now + 2 ^ size_in placement.now claim.now ≤ 2 ^ 24 }
    {
        let Some(block) = placement.block_in(claim.table, claim.column) else {
            unreachable!();
        };
        Part {
            level: block.level,
            above: placement.vars() - block.log_bits,
            index: placement.offset(claim.table, claim.column) >> block.log_bits,
        }
    }
}

/// The extension at a point of the table of a claim. It takes no memory.
pub fn claim_at(placement: &Placement, point: &[B128], claim: &ColumnClaim) -> B128
    requires { IsPlaced placement.now claim.now }
    ensures { result ≡ claim_at placement.now point.now claim.now }
{
    let part = Part::of(placement, claim);
    let (low, rest) = split(point, part.level as usize);
    let (mid, top) = split(rest, claim.point.as_slice().len());
    basis_at(low) * eq_at(claim.point.as_slice(), mid) * eq_of_bits(part.above, part.index, top)
}

/// The first coordinates of a point, and the others.
pub(crate) fn split(point: &[B128], count: usize) -> (&[B128], &[B128])
    ensures first { result.0.now ≡ take count point.now }
    ensures rest { result.1.now ≡ drop count point.now }
{
    point.split_at(count.min(point.len()))
}

/// The extension at a point of the table of 2 ^ 0, 2 ^ 1, 2 ^ 2, ..
fn basis_at(point: &[B128]) -> B128
    requires { length point.now ≤ 7 }
    ensures { result ≡ basis_at 0 point.now }
{
    let mut product = B128::ONE;
    let mut k = point.len();
    while k > 0 {
        k -= 1;
        product = (B128::ONE + point[k] * (B128::ONE + generator(k))) * product;
    }
    product
}

/// 2 ^ (2 ^ k).
fn generator(k: usize) -> B128
    requires { k < 7 }
    ensures { result ≡ 2 ^ (2 ^ k) }
{
    match B128::from_number(1 << (1usize << k)) {
        Some(generator) => generator,
        None => unreachable!(),
    }
}

/// eq of the bits of a number, the lowest first, and a point, as far as both go.
fn eq_of_bits(count: u32, number: u64, point: &[B128]) -> B128
    ensures { result ≡ eq_points (bits_of count number) point.now }
{
    let mut product = B128::ONE;
    let mut rest = number;
    for k in 0..point.len().min(count as usize) {
        let factor = if rest % 2 == 0 {
            B128::ONE + point[k]
        } else {
            point[k]
        };
        product = product * factor;
        rest /= 2;
    }
    product
}
