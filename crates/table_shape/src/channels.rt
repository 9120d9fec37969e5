//! Channels and boundaries: names, widths, and tuples of values.

ghost use Rattle.std.specs.Prelude.{◌≡◌, ◌≤◌, ◌++◌, ◌∷◌, [], false, length, IfOk};
ghost use Rattle.std.specs.List.{AllByRecursion, list_any};
ghost use Rattle.std.specs.Str.{bytes_eq};
ghost use Rattle.table_shape.specs.Fits.{BoundaryFits, ChannelFits};
ghost use Rattle.table_shape.specs.Limits.{max_channels};
ghost use Rattle.table_shape.specs.Shape.{number_of_channel, with_boundary, with_channel};
ghost use Rattle.table_shape.specs.ShapeGives.{Gives};
ghost use Rattle.table_shape.specs.Width.{width_at};

use crate::copying::copied_name;
use crate::fault::{ShapeKind, ShapeStop, refused};
use crate::limits::{MAX_BOUNDARIES, MAX_CHANNEL_WIDTH, MAX_CHANNELS};
use crate::numbering::Numbers;
use crate::numbers::elements;
use crate::shape::{BoundaryShape, BoundaryShapes, ChannelShape, ChannelShapes};
use sqlite_items::Items;
use std::alloc::{AllocError, Global};
use std::marker::Model;
use table_text::{Name, Side};

/// How many numbers the tuples of a channel have, and 0 where there is no such channel.
pub(crate) fn width_at(channels: &[ChannelShape], channel: u32) -> u32
    ensures { result ≡ width_at channels.now channel }
{
    match channels.get(channel as usize) {
        Some(channel) => channel.width,
        None => 0,
    }
}

/// Channels, and the numbers of their names.
#[derive(Drop)]
pub(crate) struct Channels<'a> {
    channels: ChannelShapes,
    names: Numbers<'a>,
}

impl<'a> Model for Channels<'a> {
    ghost use Rattle.std.specs.Prelude.{◌≡◌, List, map};
    ghost use Rattle.table_shape.specs.declared.shape.ChannelShape.{ChannelShape as Channel};

    ghost Value = { List Channel };

    ghost view = { λ s. s.channels };

    ghost invariant = { λ s. s.names ≡ map (λ c. c.name) s.channels };
}

impl<'a> Channels<'a> {
    pub(crate) fn new(alloc: Global) -> Channels<'a>
        ensures { result ≡ [] }
    {
        Channels {
            channels: Items::new(alloc),
            names: Numbers::new(alloc),
        }
    }

    pub(crate) fn as_slice(&self) -> &[ChannelShape]
        ensures { result.now ≡ self.now }
    {
        self.channels.as_slice()
    }

    /// The number of the channel of this name.
    pub(crate) fn number_of(&self, name: &Name) -> Option<u32>
        requires { length self.now ≤ max_channels }
        ensures { result ≡ number_of_channel name.now self.now }
    {
        self.names.number_of(name)
    }

    pub(crate) fn has(&self, name: &Name) -> bool
        ensures { result ≡ list_any (λ c. bytes_eq name.now c.name) self.now }
    {
        self.names.has(name)
    }

    /// The channels with one more.
    pub(crate) fn add(
        self,
        alloc: Global,
        name: &'a Name,
        width: u32,
    ) -> Result<Channels<'a>, AllocError>
        requires { list_any (λ c. bytes_eq name.now c.name) self ≡ false }
        ensures { IfOk result (λ channels. channels ≡ self.entry ++ record { name = name.now; width = width } ∷ []) }
    {
        let Channels {
            mut channels,
            mut names,
        } = self;
        names.add(name)?;
        channels.push(ChannelShape {
            name: copied_name(alloc, name)?,
            width,
        })?;
        Ok(Channels { channels, names })
    }

    /// The channels without the numbers of their names.
    pub(crate) fn into_shapes(self) -> ChannelShapes
        ensures { result ≡ self.entry }
    {
        self.channels
    }
}

/// The channels with one more, declared by `item`.
pub(crate) fn with_channel<'a>(
    alloc: Global,
    item: u32,
    name: &'a Name,
    width: u128,
    channels: Channels<'a>,
) -> Result<Channels<'a>, ShapeStop>
    ensures { Gives result (with_channel item name.now width channels.entry) }
{
    if channels.as_slice().len() >= MAX_CHANNELS {
        return refused(item, ShapeKind::TooMany);
    }
    if channels.has(name) {
        return refused(item, ShapeKind::DoubleName);
    }
    if width == 0 || width > u128::from(MAX_CHANNEL_WIDTH) {
        return refused(item, ShapeKind::TupleWidth);
    }
    Ok(channels.add(alloc, name, width as u32)?)
}

/// The boundaries with one more, declared by `item` after these channels.
pub(crate) fn with_boundary(
    alloc: Global,
    item: u32,
    side: Side,
    channel: &Name,
    values: &[u128],
    channels: &Channels<'_>,
    mut boundaries: BoundaryShapes,
) -> Result<BoundaryShapes, ShapeStop>
    requires { length channels.now ≤ max_channels }
    ensures { Gives result (with_boundary item side channel.now values.now channels.now boundaries) }
{
    if boundaries.len() >= MAX_BOUNDARIES {
        return refused(item, ShapeKind::TooMany);
    }
    let Some(channel) = channels.number_of(channel) else {
        return refused(item, ShapeKind::UnknownName);
    };
    if values.len() != width_at(channels.as_slice(), channel) as usize {
        return refused(item, ShapeKind::TupleWidth);
    }
    let values = elements(alloc, values)?;
    boundaries.push(BoundaryShape {
        side,
        channel,
        values,
    })?;
    Ok(boundaries)
}
