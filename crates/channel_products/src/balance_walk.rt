//! The walk of the channels of a shape.

ghost use Rattle.std.specs.Prelude.{◌≡◌, ℕ, ◌≤◌, ◌^◌, List, length, option_map, slice_index, IfOk};
ghost use Rattle.sumcheck.specs.Claim.{claim_of};
ghost use Rattle.table_shape.specs.Limits.{max_rows};
ghost use Rattle.channel_products.specs.Balancing.{balancing, state_balance, told, unstated, waiting, BalanceIsDone, IsWaiting};
ghost use Rattle.channel_products.specs.Channels.{channels_of};
ghost use Rattle.channel_products.specs.declared.channels.Channels.{Channels as Parts};

use crate::channels::Channels;
use crate::no_memory::NoMemory;
use crate::products::first_unequal;
use crate::told_products::ToldProducts;
use poly_forms::{CheckKind, DrawKind};
use std::alloc::Global;
use std::marker::Model;
use sumcheck::{Entry, Pending, Refused, Steps};
use table_shape::Shape;
use tower_field::{B128, Tower};

#[derive(Clone, Copy)]
pub enum Stage {
    Waiting,
    Stated,
    Collapsing,
    Multiplying,
    Told,
}

/// The claim that every channel is in balance, turned by an alpha and a gamma into claims on the
/// products of flushes. It takes all its memory in `begin`.
#[derive(Drop)]
pub struct BalanceWalk {
    stage: Stage,
    channels: Channels,
    alpha: B128,
    gamma: B128,
    values: Vec<B128>,
}

impl Model for BalanceWalk {
    ghost use Rattle.std.specs.Prelude.{◌≡◌, ◌≤◌, ◌<◌, ◌^◌, length, vec_capacity};
    ghost use Rattle.channel_products.specs.Balancing.{Balancing};
    ghost use Rattle.channel_products.specs.Fields.{balancing_of, StageFits};

    ghost Value = { Balancing };

    ghost view = { λ w. balancing_of w.stage w.channels w.alpha w.gamma w.values.items };

    ghost invariant = { λ w. record { stage : StageFits w.stage w.channels w.alpha w.gamma w.values.items (vec_capacity w.values); few : length w.channels.flushes < 2 ^ 30; channels : length w.channels.widths < 2 ^ 32 } };
}

impl BalanceWalk {
    /// A walk for the channels of a shape on some rows.
    pub fn begin(alloc: Global, shape: &Shape, rows: &[u32]) -> Result<BalanceWalk, NoMemory>
        requires counts { length rows.now ≡ length shape.now.tables }
        requires few { (t : ℕ) → slice_index rows.now t ≤ max_rows }
        ensures { IfOk result (λ walk. walk ≡ waiting (channels_of shape.now rows.now)) }
    {
        let channels = Channels::of(alloc, shape, rows)?;
        let values = Vec::with_capacity(alloc, channels.flushes.len())?;
        Ok(BalanceWalk {
            stage: Stage::Waiting,
            channels,
            alpha: B128::ZERO,
            gamma: B128::ZERO,
            values,
        })
    }

    /// States the claim.
    pub fn enter(&mut self)
        requires { IsWaiting self.old }
        ensures { self.new ≡ state_balance self.old }
    {
        self.stage = if self.channels.widths.is_empty() {
            Stage::Told
        } else {
            Stage::Stated
        };
    }

    /// How many claims on columns are left at the end.
    pub fn claim_count(&self) -> u32
        ensures { result ≡ 0 }
    {
        0
    }

    /// Alpha, gamma, and the products that are claimed of the flushes.
    pub fn result(&self) -> (B128, B128, &[B128])
        requires { BalanceIsDone self.now }
        ensures { (ch : Parts) (a g : ℕ) (v : List ℕ) → self.now ≡ told ch a g v → (result.0 ≡ a) × (result.1 ≡ g) × (result.2.now ≡ v) }
    {
        (self.alpha, self.gamma, self.values.as_slice())
    }

    /// What is claimed while the claim isn't stated yet, where there is a channel.
    pub fn unstated(&self) -> Option<Pending<'_>>
        ensures { option_map claim_of result ≡ unstated self.now }
    {
        match self.stage {
            Stage::Waiting if !self.channels.widths.is_empty() => Some(Pending::Balance),
            _ => None,
        }
    }

    /// How many claims are pending. They are few, so that those of many walks can be counted together.
    pub fn count_pending(&self) -> u32
        ensures count { result ≡ length (balancing.pending self.now) }
        ensures few { result ≤ 2 ^ 30 }
    {
        match self.stage {
            Stage::Waiting => 0,
            Stage::Stated | Stage::Collapsing | Stage::Multiplying => 1,
            Stage::Told => self.values.len() as u32,
        }
    }

    /// The same with the flushes, in their memory.
    pub fn leave(self) -> ToldProducts
        requires { BalanceIsDone self }
        ensures told { (ch : Parts) (a g : ℕ) (v : List ℕ) → self ≡ told ch a g v → (result.flushes ≡ ch.flushes) × (result.alpha ≡ a) × (result.gamma ≡ g) × (result.values.items ≡ v) }
        ensures few { length result.values.items ≤ length result.flushes }
    {
        let BalanceWalk {
            stage: _,
            channels,
            alpha,
            gamma,
            values,
        } = self;
        let Channels {
            widths: _,
            flushes,
            boundaries: _,
            alphas: _,
            gammas: _,
        } = channels;
        ToldProducts {
            flushes,
            alpha,
            gamma,
            values,
        }
    }
}

impl Steps for BalanceWalk {
    ghost machine = { balancing };

    fn is_lawful() {}

    fn due(&self) -> Option<Entry> {
        match self.stage {
            Stage::Waiting | Stage::Told => None,
            Stage::Stated => Some(Entry::Draw {
                kind: DrawKind::Alpha,
                count: self.channels.alphas,
            }),
            Stage::Collapsing => Some(Entry::Draw {
                kind: DrawKind::Gamma,
                count: self.channels.gammas,
            }),
            Stage::Multiplying => Some(Entry::Message {
                check: CheckKind::Products,
                length: self.channels.flushes.len() as u32,
            }),
        }
    }

    fn message(&mut self, values: &[B128]) -> Result<(), Refused> {
        if let Some(refused) = first_unequal(self.alpha, self.gamma, &self.channels, values) {
            return Err(refused);
        }
        if self.values.extend_from_slice(values).is_err() {
            unreachable!();
        }
        self.stage = Stage::Told;
        Ok(())
    }

    fn draw(&mut self, c: B128) {
        match self.stage {
            Stage::Waiting | Stage::Multiplying | Stage::Told => unreachable!(),
            Stage::Stated => {
                self.alpha = c;
                self.stage = Stage::Collapsing;
            }
            Stage::Collapsing => {
                self.gamma = c;
                self.stage = Stage::Multiplying;
            }
        }
    }

    fn round_claim(&self) -> Option<B128> {
        None
    }

    fn pending_count(&self) -> u32 {
        self.count_pending()
    }

    fn pending(&self, i: u32) -> Pending<'_> {
        match self.stage {
            Stage::Waiting => unreachable!(),
            Stage::Stated => Pending::Balance,
            Stage::Collapsing => Pending::Collapsed { alpha: self.alpha },
            Stage::Multiplying => Pending::Products {
                alpha: self.alpha,
                gamma: self.gamma,
            },
            Stage::Told => {
                let flush = &self.channels.flushes.as_slice()[i as usize];
                Pending::FlushProduct {
                    table: flush.table,
                    flush: flush.number,
                    alpha: self.alpha,
                    gamma: self.gamma,
                    value: self.values[i as usize],
                }
            }
        }
    }
}
