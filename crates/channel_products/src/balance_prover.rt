//! The prover of the channels of a shape.

ghost use Rattle.std.specs.Prelude.{◌≡◌, ℕ, ◌≤◌, List, length, map, slice_index, IfOk};
ghost use Rattle.sumcheck.specs.Machine.{Filling};
ghost use Rattle.sumcheck.specs.declared.column_tables.ColumnTable.{ColumnTable as Table};
ghost use Rattle.table_shape.specs.Limits.{max_rows};
ghost use Rattle.channel_products.specs.Balancing.{state_balance, told, waiting};
ghost use Rattle.channel_products.specs.Channels.{channels_of, product_of};
ghost use Rattle.channel_products.specs.Following.{AreGiven, FollowsBalance, IsNew};
ghost use Rattle.channel_products.specs.Given.{table_of, AreThere};
ghost use Rattle.channel_products.specs.declared.channels.Channels.{Channels as Parts};

use crate::balance_walk::{BalanceWalk, Stage};
use crate::channels::Channels;
use crate::flushed::Flushed;
use crate::leaves::flush_product;
use crate::no_memory::NoMemory;
use std::alloc::{AllocError, Global};
use sumcheck::{ColumnTables, Honest};
use table_shape::Shape;
use tower_field::{B128, Tower};

/// The prover of the claim that every channel is in balance, who gives the product of each flush's
/// leaves. It reads the lists of columns where they are.
#[derive(Drop)]
pub struct BalanceProver<'a> {
    alloc: Global,
    tables: &'a ColumnTables,
    stage: Stage,
    channels: Channels,
    alpha: B128,
    gamma: B128,
    values: Vec<B128>,
}

/// The products of flushes, from the lists of their columns.
fn products_of(
    alloc: Global,
    tables: &ColumnTables,
    flushes: &[Flushed],
    alpha: B128,
    gamma: B128,
) -> Result<Vec<B128>, AllocError>
    requires { AreThere tables.now flushes.now }
    ensures { IfOk result (λ values. values.items ≡ map (product_of (table_of tables.now) alpha gamma) flushes.now) }
{
    let mut values = Vec::new(alloc);
    for flush in flushes {
        let product = flush_product(alloc, tables, flush, alpha, gamma)?;
        values.push(product)?;
    }
    Ok(values)
}

impl<'a> BalanceProver<'a> {
    /// The prover for the channels of a shape on some rows, from the lists of the columns that its
    /// flushes name.
    pub fn begin(
        alloc: Global,
        shape: &Shape,
        rows: &[u32],
        tables: &'a ColumnTables,
    ) -> Result<BalanceProver<'a>, NoMemory>
        requires counts { length rows.now ≡ length shape.now.tables }
        requires few { (t : ℕ) → slice_index rows.now t ≤ max_rows }
        requires there { let channels = channels_of shape.now rows.now in AreThere tables.now channels.flushes }
        ensures { IfOk result (λ prover. IsNew prover (channels_of shape.now rows.now) tables.now) }
    {
        let channels = Channels::of(alloc, shape, rows)?;
        Ok(BalanceProver {
            alloc,
            tables,
            stage: Stage::Waiting,
            channels,
            alpha: B128::ZERO,
            gamma: B128::ZERO,
            values: Vec::new(alloc),
        })
    }

    /// The claim is stated.
    pub fn enter(&mut self)
        requires { (ch : Parts) × (tables : List Table) × IsNew self.old ch tables }
        ensures { (F : Filling) (ch : Parts) (tables : List Table) → IsNew self.old ch tables → AreGiven F tables ch.flushes → FollowsBalance self.new F (state_balance (waiting ch)) }
    {
        self.stage = if self.channels.widths.is_empty() {
            Stage::Told
        } else {
            Stage::Stated
        };
    }

    /// How many claims on columns are left at the end.
    pub fn claim_count(&self) -> u32
        ensures { result ≡ 0 }
    {
        0
    }

    /// Alpha, gamma, and the products of the flushes. They are true, whatever the walk would have
    /// refused.
    pub fn result(&self) -> (B128, B128, &[B128])
        requires { (F : Filling) × (ch : Parts) × (a : ℕ) × (g : ℕ) × (v : List ℕ) × FollowsBalance self.now F (told ch a g v) }
        ensures told { (F : Filling) (ch : Parts) (a g : ℕ) (v : List ℕ) → FollowsBalance self.now F (told ch a g v) → (result.0 ≡ a) × (result.1 ≡ g) × (result.2.now ≡ v) }
        ensures holds { (F : Filling) (ch : Parts) (a g : ℕ) (v : List ℕ) → FollowsBalance self.now F (told ch a g v) → result.2.now ≡ map (product_of F result.0 result.1) ch.flushes }
    {
        (self.alpha, self.gamma, self.values.as_slice())
    }
}

impl Honest for BalanceProver<'_> {
    type Walk = BalanceWalk;

    ghost follows = { FollowsBalance };

    fn message(&mut self, out: &mut Vec<B128>) -> Result<(), sumcheck::NoMemory> {
        let flushes = self.channels.flushes.as_slice();
        let values = products_of(self.alloc, self.tables, flushes, self.alpha, self.gamma)?;
        out.extend_from_slice(values.as_slice())?;
        self.values = values;
        self.stage = Stage::Told;
        Ok(())
    }

    fn draw(&mut self, c: B128) {
        match self.stage {
            Stage::Stated => {
                self.alpha = c;
                self.stage = Stage::Collapsing;
            }
            Stage::Collapsing => {
                self.gamma = c;
                self.stage = Stage::Multiplying;
            }
            Stage::Waiting | Stage::Multiplying | Stage::Told => unreachable!(),
        }
    }
}
