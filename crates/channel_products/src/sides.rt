//! What belongs to a side of a channel.

ghost use Rattle.std.specs.Prelude.{◌≡◌};
ghost use Rattle.table_shape.specs.Channels.{is_boundary_of, is_flush_of, same_side};

use table_shape::{BoundaryShape, FlushShape};
use table_text::Side;

/// Whether two sides are one.
fn is_side(one: Side, other: Side) -> bool
    ensures { result ≡ same_side one other }
{
    match (one, other) {
        (Side::Push, Side::Push) | (Side::Pull, Side::Pull) => true,
        (Side::Push, Side::Pull) | (Side::Pull, Side::Push) => false,
    }
}

/// Whether a flush is of this side of this channel.
pub(crate) fn is_flush_of(side: Side, channel: u32, flush: &FlushShape) -> bool
    ensures { result ≡ is_flush_of side channel flush.now }
{
    is_side(side, flush.side) && channel == flush.channel
}

/// Whether a boundary is of this side of this channel.
pub(crate) fn is_boundary_of(side: Side, channel: u32, boundary: &BoundaryShape) -> bool
    ensures { result ≡ is_boundary_of side channel boundary.now }
{
    is_side(side, boundary.side) && channel == boundary.channel
}
