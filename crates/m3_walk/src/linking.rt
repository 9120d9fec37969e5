//! How the reductions of a proof hand over to each other.

ghost use Rattle.std.specs.Prelude.{◌≡◌, ◌<◌, [], length, option_map, option_to_list};
ghost use Rattle.sumcheck.specs.Claim.{claim_of};
ghost use Rattle.m3_walk.specs.Linking.{entered, left, sizes, sizes_left, staying, waiting_claims};
ghost use Rattle.m3_walk.specs.Linked.{linking, HasRoom, Takes};
ghost use Rattle.m3_walk.specs.Stages.{staged};

use crate::kept::Kept;
use crate::kept_sizes::KeptSizes;
use crate::merging::Merging;
use crate::packed::Packed;
use crate::stage::Stage;
use crate::switch::Switch;
use bit_claim::BitValue;
use channel_products::products_keep_truth;
use eval_reduce::{projections_keep_truth, shiftings_keep_truth};
use std::mem;
use sumcheck::{Pending, Steps};
use tower_field::Values;
use walk_chain::Linked;

/// A reduction that takes its claims out of those that wait.
fn entered(stage: Stage, kept: &mut Kept) -> Stage
    requires { Takes stage (sizes kept.old) }
    ensures state { result ≡ entered stage kept.old }
    ensures stays { kept.new ≡ staying stage kept.old }
{
    match stage {
        Stage::Channels(mut walk) => {
            walk.enter();
            Stage::Channels(walk)
        }
        Stage::Flush(mut walk) => {
            let product = kept.take_product();
            walk.enter(product.alpha, product.gamma, product.value);
            Stage::Flush(walk)
        }
        Stage::Constraints(mut walk) => {
            walk.enter();
            Stage::Constraints(walk)
        }
        Stage::Merge(merging) => {
            let Merging {
                table,
                column,
                mut walk,
            } = merging;
            kept.merge(table, column, &mut walk);
            Stage::Merge(Merging {
                table,
                column,
                walk,
            })
        }
        Stage::Linear(mut step) => {
            let (table, column) = step.column();
            let claim = kept.take_claim(table, column);
            step.enter_owned(claim);
            Stage::Linear(step)
        }
        Stage::Project(mut step) => {
            let (table, column) = step.column();
            let claim = kept.take_claim(table, column);
            step.enter_owned(claim);
            Stage::Claimed(step.leave())
        }
        Stage::Pack(mut walk) => {
            let (table, column) = walk.column();
            let claim = kept.take_claim(table, column);
            walk.enter_owned(claim);
            Stage::Pack(walk)
        }
        Stage::Shift(mut walk) => {
            let (table, column) = walk.column();
            let claim = kept.take_claim(table, column);
            walk.enter_owned(claim);
            Stage::Shift(walk)
        }
        Stage::Bits(mut walk) => {
            kept.batch(&mut walk);
            Stage::Bits(walk)
        }
        Stage::Words(mut walk) => {
            let BitValue {
                placement,
                point,
                value,
            } = kept.take_bits();
            walk.enter(point.as_slice(), value);
            Stage::Switch(Switch { placement, walk })
        }
        Stage::Start | Stage::Claimed(_) | Stage::Switch(_) => unreachable!(),
    }
}

/// Adds the claims that a reduction leaves to those that wait. One without claims leaves none.
fn left(stage: Stage, kept: &mut Kept)
    requires done { staged.entries stage ≡ [] }
    requires room { HasRoom (sizes_left stage (sizes kept.old)) }
    ensures { kept.new ≡ left stage kept.old }
{
    if stage.pending_count() > 0 {
        hand_over(stage, kept);
    } else {
        drop(stage);
    }
}

/// The same of a reduction that has claims.
fn hand_over(stage: Stage, kept: &mut Kept)
    requires done { staged.entries stage ≡ [] }
    requires some { 0 < length (staged.pending stage) }
    requires room { HasRoom (sizes_left stage (sizes kept.old)) }
    ensures { kept.new ≡ left stage kept.old }
{
    match stage {
        Stage::Channels(walk) => kept.add_products(walk.leave()),
        Stage::Flush(walk) => kept.add_claims(walk.leave()),
        Stage::Constraints(walk) => kept.add_claims(walk.leave()),
        Stage::Merge(merging) => {
            let Merging {
                table: _,
                column: _,
                walk,
            } = merging;
            kept.add_claim(walk.leave());
        }
        Stage::Linear(step) => kept.add_claims(step.leave()),
        Stage::Claimed(claim) => kept.add_claim(claim),
        Stage::Pack(walk) => kept.add_claim(walk.leave()),
        Stage::Shift(walk) => kept.add_claim(walk.leave()),
        Stage::Bits(walk) => kept.add_bits(walk.leave()),
        Stage::Switch(switch) => {
            let Switch { placement, walk } = switch;
            let (point, value) = walk.leave();
            kept.add_packed(Packed {
                placement,
                point: Values::from_vec(point),
                value,
            });
        }
        Stage::Start | Stage::Project(_) | Stage::Words(_) => unreachable!(),
    }
}

impl Linked for Stage {
    type Kept = Kept;

    type Key = KeptSizes;

    ghost chain = { linking };

    fn is_linked() {
        Stage::is_lawful();
        products_keep_truth();
        projections_keep_truth();
        shiftings_keep_truth();
    }

    fn enter(&mut self, kept: &mut Kept) {
        let waiting = mem::replace(self, Stage::Start);
        *self = entered(waiting, kept);
    }

    fn leave(self, kept: &mut Kept) {
        left(self, kept);
    }

    fn is_short(&self) {
        match self {
            Stage::Channels(walk) => {
                walk.count_pending();
            }
            Stage::Flush(walk) => {
                walk.count_pending();
            }
            Stage::Constraints(walk) => {
                walk.count_pending();
            }
            Stage::Merge(merging) => {
                merging.walk.count_pending();
            }
            Stage::Linear(step) => {
                step.pending_count();
            }
            Stage::Bits(walk) => {
                walk.count_pending();
            }
            _ => {}
        }
    }

    fn kept_count(kept: &Kept) -> u32 {
        kept.count()
    }

    fn kept_pending(kept: &Kept, i: u32) -> Pending<'_> {
        kept.pending(i)
    }

    fn waiting_count(&self) -> u32 {
        if unstated(self).is_some() { 1 } else { 0 }
    }

    fn waiting(&self, i: u32) -> Pending<'_> {
        match unstated(self) {
            Some(claim) => claim,
            None => unreachable!(),
        }
    }
}

/// What a reduction claims by itself before it is entered.
fn unstated(stage: &Stage) -> Option<Pending<'_>>
    ensures { option_to_list (option_map claim_of result) ≡ waiting_claims stage.now }
{
    match stage {
        Stage::Channels(walk) => walk.unstated(),
        Stage::Constraints(walk) => walk.unstated(),
        _ => None,
    }
}
