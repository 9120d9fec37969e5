//! The reductions of a proof, each as one of them.

ghost use Rattle.m3_walk.specs.Stages.{staged};

use crate::merging::Merging;
use crate::switch::Switch;
use bit_claim::{BitWalk, batches_keep_truth};
use channel_products::{BalanceWalk, ProductWalk, balances_keep_truth, products_keep_truth};
use eval_reduce::{
    LinearStep, PackWalk, ProjectStep, ShiftWalk, combinations_keep_truth, merges_keep_truth,
    packings_keep_truth, shiftings_keep_truth,
};
use ring_switch::{SwitchWalk, switchings_keep_truth};
use sumcheck::{ColumnClaim, Entry, Pending, Refused, Steps};
use tower_field::B128;
use zerocheck::{ZeroWalk, zeros_keep_truth};

/// A reduction of a proof: what it is about, and how far it has come.
#[derive(Drop)]
pub enum Stage {
    /// Nothing is due: what stands before the first reduction.
    Start,
    /// Channels that are in balance.
    Channels(BalanceWalk),
    /// The product of a flush.
    Flush(ProductWalk),
    /// Constraints that are 0 on rows.
    Constraints(ZeroWalk),
    /// Claims on one column.
    Merge(Merging),
    Linear(LinearStep),
    /// A projected column, on which no claim is stated yet.
    Project(ProjectStep),
    /// The claim on a column that a projected one is made from.
    Claimed(ColumnClaim),
    Pack(PackWalk),
    Shift(ShiftWalk),
    /// Claims on committed columns.
    Bits(BitWalk),
    /// The ring switch, before a value of the table of bits is stated.
    Words(SwitchWalk),
    /// The ring switch of a table of bits.
    Switch(Switch),
}

impl Steps for Stage {
    ghost machine = { staged };

    fn is_lawful() {
        balances_keep_truth();
        products_keep_truth();
        zeros_keep_truth();
        merges_keep_truth();
        combinations_keep_truth();
        packings_keep_truth();
        shiftings_keep_truth();
        batches_keep_truth();
        switchings_keep_truth();
    }

    fn due(&self) -> Option<Entry> {
        match self {
            Stage::Channels(walk) => walk.due(),
            Stage::Flush(walk) => walk.due(),
            Stage::Constraints(walk) => walk.due(),
            Stage::Merge(merging) => merging.walk.due(),
            Stage::Linear(step) => step.due(),
            Stage::Pack(walk) => walk.due(),
            Stage::Shift(walk) => walk.due(),
            Stage::Bits(walk) => walk.due(),
            Stage::Switch(switch) => switch.walk.due(),
            Stage::Start | Stage::Project(_) | Stage::Claimed(_) | Stage::Words(_) => None,
        }
    }

    fn message(&mut self, values: &[B128]) -> Result<(), Refused> {
        match self {
            Stage::Channels(walk) => walk.message(values),
            Stage::Flush(walk) => walk.message(values),
            Stage::Constraints(walk) => walk.message(values),
            Stage::Merge(merging) => merging.walk.message(values),
            Stage::Linear(step) => step.message(values),
            Stage::Pack(walk) => walk.message(values),
            Stage::Shift(walk) => walk.message(values),
            Stage::Bits(walk) => walk.message(values),
            Stage::Switch(switch) => switch.walk.message(values),
            Stage::Start | Stage::Project(_) | Stage::Claimed(_) | Stage::Words(_) =>
                unreachable!(),
        }
    }

    fn draw(&mut self, c: B128) {
        match self {
            Stage::Channels(walk) => walk.draw(c),
            Stage::Flush(walk) => walk.draw(c),
            Stage::Constraints(walk) => walk.draw(c),
            Stage::Merge(merging) => merging.walk.draw(c),
            Stage::Pack(walk) => walk.draw(c),
            Stage::Shift(walk) => walk.draw(c),
            Stage::Bits(walk) => walk.draw(c),
            Stage::Switch(switch) => switch.walk.draw(c),
            Stage::Start
            | Stage::Project(_)
            | Stage::Claimed(_)
            | Stage::Words(_)
            | Stage::Linear(_) => { unreachable!() }
        }
    }

    fn round_claim(&self) -> Option<B128> {
        match self {
            Stage::Channels(walk) => walk.round_claim(),
            Stage::Flush(walk) => walk.round_claim(),
            Stage::Constraints(walk) => walk.round_claim(),
            Stage::Merge(merging) => merging.walk.round_claim(),
            Stage::Pack(walk) => walk.round_claim(),
            Stage::Shift(walk) => walk.round_claim(),
            Stage::Bits(walk) => walk.round_claim(),
            Stage::Switch(switch) => switch.walk.round_claim(),
            Stage::Start
            | Stage::Project(_)
            | Stage::Claimed(_)
            | Stage::Words(_)
            | Stage::Linear(_) => None,
        }
    }

    fn pending_count(&self) -> u32 {
        match self {
            Stage::Channels(walk) => walk.pending_count(),
            Stage::Flush(walk) => walk.pending_count(),
            Stage::Constraints(walk) => walk.pending_count(),
            Stage::Merge(merging) => merging.walk.pending_count(),
            Stage::Linear(step) => step.pending_count(),
            Stage::Pack(walk) => walk.pending_count(),
            Stage::Shift(walk) => walk.pending_count(),
            Stage::Bits(walk) => walk.pending_count(),
            Stage::Switch(switch) => switch.walk.pending_count(),
            Stage::Claimed(_) => 1,
            Stage::Start | Stage::Project(_) | Stage::Words(_) => 0,
        }
    }

    fn pending(&self, i: u32) -> Pending<'_> {
        match self {
            Stage::Channels(walk) => walk.pending(i),
            Stage::Flush(walk) => walk.pending(i),
            Stage::Constraints(walk) => walk.pending(i),
            Stage::Merge(merging) => merging.walk.pending(i),
            Stage::Linear(step) => step.pending(i),
            Stage::Pack(walk) => walk.pending(i),
            Stage::Shift(walk) => walk.pending(i),
            Stage::Bits(walk) => walk.pending(i),
            Stage::Switch(switch) => switch.walk.pending(i),
            Stage::Claimed(claim) => Pending::Column { claim },
            Stage::Start | Stage::Project(_) | Stage::Words(_) => unreachable!(),
        }
    }
}
