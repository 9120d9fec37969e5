//! The products of the sides of channels, and the first channel whose sides differ.

ghost use Rattle.std.specs.Prelude.{◌≡◌, ◌<◌, ◌^◌, length};
ghost use Rattle.table_shape.specs.Lowering.{boundaries_product};
ghost use Rattle.channel_products.specs.Balancing.{first_unequal, flushed_value, side_value};

use crate::channels::Channels;
use crate::fingerprint::collapse;
use crate::flushed::Flushed;
use crate::sides::{is_boundary_of, is_flush_of};
use poly_forms::CheckKind;
use sumcheck::Refused;
use table_shape::BoundaryShape;
use table_text::Side;
use tower_field::{B128, Tower};

/// Of values, one for each flush, the product of those of one side of a channel.
fn flushed_value(side: Side, channel: u32, flushes: &[Flushed], values: &[B128]) -> B128
    requires { length values.now ≡ length flushes.now }
    ensures { result ≡ flushed_value side channel flushes.now values.now }
{
    let mut product = B128::ONE;
    for (i, flush) in flushes.iter().enumerate() {
        if is_flush_of(side, channel, &flush.shape) {
            product = product * values[i];
        }
    }
    product
}

/// The product of the boundaries of one side of a channel.
fn boundaries_product(
    side: Side,
    channel: u32,
    alpha: B128,
    gamma: B128,
    boundaries: &[BoundaryShape],
) -> B128
    ensures { result ≡ boundaries_product side channel alpha gamma boundaries.now }
{
    let mut product = B128::ONE;
    for boundary in boundaries {
        if is_boundary_of(side, channel, boundary) {
            product = product * (gamma + collapse(alpha, boundary.values.as_slice()));
        }
    }
    product
}

/// Of values, one for each flush, the product of those of one side of a channel, with its boundaries.
fn side_value(
    side: Side,
    channel: u32,
    alpha: B128,
    gamma: B128,
    channels: &Channels,
    values: &[B128],
) -> B128
    requires { length values.now ≡ length channels.now.flushes }
    ensures { result ≡ side_value side channel alpha gamma channels.now values.now }
{
    let flushed = flushed_value(side, channel, channels.flushes.as_slice(), values);
    let boundaries = channels.boundaries.as_slice();
    flushed * boundaries_product(side, channel, alpha, gamma, boundaries)
}

/// The first channel whose sides differ, as a refusal.
pub(crate) fn first_unequal(
    alpha: B128,
    gamma: B128,
    channels: &Channels,
    values: &[B128],
) -> Option<Refused>
    requires equal { length values.now ≡ length channels.now.flushes }
    requires few { length channels.now.widths < 2 ^ 32 }
    ensures { result ≡ first_unequal alpha gamma channels.now values.now 0 (length channels.now.widths) }
{
    for channel in 0..channels.widths.len() as u32 {
        let left = side_value(Side::Push, channel, alpha, gamma, channels, values);
        let right = side_value(Side::Pull, channel, alpha, gamma, channels, values);
        if left != right {
            return Some(Refused {
                check: CheckKind::Products,
                left,
                right,
            });
        }
    }
    None
}
