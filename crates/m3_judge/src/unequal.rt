//! The least tuple that goes into a channel and comes out of it unequally often.

ghost use Rattle.std.specs.Prelude.{IfOk};
ghost use Rattle.m3_judge.specs.Judging.{FindsLeastUnequal};

use crate::no_memory::NoMemory;
use crate::sorted::{count_of, first_difference, in_order};
use crate::source::{sources_of, tuple_of};
use column_store::Store;
use std::alloc::Global;
use table_text::Side;
use tower_field::Values;

/// A tuple of a channel, and how often it is pushed and pulled.
#[derive(Debug, Drop)]
pub(crate) struct Unequal {
    pub tuple: Values,
    pub pushed: u64,
    pub pulled: u64,
}

/// The least tuple of a channel that is pushed and pulled unequally often.
pub(crate) fn least_unequal(
    alloc: Global,
    store: &Store,
    channel: u32,
) -> Result<Option<Unequal>, NoMemory>
    ensures { IfOk result (FindsLeastUnequal store.now.shape store.now.rows store.now.filling channel) }
{
    let pushed = in_order(store, sources_of(alloc, store, Side::Push, channel)?);
    let pulled = in_order(store, sources_of(alloc, store, Side::Pull, channel)?);
    let Some(source) = first_difference(store, pushed.as_slice(), pulled.as_slice()) else {
        return Ok(None);
    };
    let tuple = tuple_of(alloc, store, source)?;
    Ok(Some(Unequal {
        tuple,
        pushed: count_of(store, source, pushed.as_slice()),
        pulled: count_of(store, source, pulled.as_slice()),
    }))
}
