//! Whether values satisfy tables, and the first violation where they don't.

ghost use Rattle.std.specs.Prelude.{IfOk};
ghost use Rattle.m3_judge.specs.Judging.{IsVerdict};

use crate::constraints::first_nonzero;
use crate::no_memory::NoMemory;
use crate::unequal::least_unequal;
use column_store::Store;
use std::alloc::Global;
use tower_field::{B128, Values};

/// Where values first violate tables.
#[derive(Debug, Drop)]
pub enum Violation {
    /// A constraint whose value at a row and an index isn't 0.
    Constraint {
        table: u32,
        constraint: u32,
        row: u32,
        index: u32,
        value: B128,
    },
    /// A channel, and the tuple that is pushed into it and pulled out of it unequally often.
    Channel {
        channel: u32,
        tuple: Values,
        pushed: u64,
        pulled: u64,
    },
}

#[derive(Debug, Drop)]
pub enum Verdict {
    Satisfied,
    Violated(Violation),
}

/// Whether the values satisfy the tables, and the first violation where they don't: the first
/// value of a constraint that isn't 0, in the order of table, constraint, row and index; where each
/// is 0, the least tuple of unequal counts of the first channel that has one.
///
/// It takes 16 bytes for each tuple of one channel, whatever its width, and sorts them.
pub fn judge(alloc: Global, store: &Store) -> Result<Verdict, NoMemory>
    ensures { IfOk result (IsVerdict store.now.shape store.now.rows store.now.filling) }
{
    if let Some(found) = first_nonzero(store) {
        return Ok(Verdict::Violated(Violation::Constraint {
            table: found.table,
            constraint: found.constraint,
            row: found.row,
            index: found.index,
            value: found.value,
        }));
    }
    for channel in 0..store.shape().channels().len() as u32 {
        if let Some(found) = least_unequal(alloc, store, channel)? {
            return Ok(Verdict::Violated(Violation::Channel {
                channel,
                tuple: found.tuple,
                pushed: found.pushed,
                pulled: found.pulled,
            }));
        }
    }
    Ok(Verdict::Satisfied)
}
