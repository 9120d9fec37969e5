//! The prover of a flush's product.

ghost use Rattle.std.specs.Prelude.{◌≡◌, ℕ, ◌+◌, ◌^◌, ◌≤◌, ◌<◌, ◌++◌, ◌∷◌, [], List, cond, drop, length, slice_get, IfOk, IsSome, Some};
ghost use Rattle.layer_laws.specs.Layers.{layer_sum};
ghost use Rattle.sumcheck.specs.declared.column_claim.ColumnClaim.{ColumnClaim as Told};
ghost use Rattle.sumcheck.specs.declared.column_tables.ColumnTable.{ColumnTable as Table};
ghost use Rattle.sumcheck.specs.Column.{ColumnHolds};
ghost use Rattle.sumcheck.specs.Machine.{AwaitsSome, Filling};
ghost use Rattle.sumcheck.specs.Proving.{Goes};
ghost use Rattle.sumcheck.specs.Rounds.{sum_claim, variables, Rounds};
ghost use Rattle.sumcheck.specs.Summing.{adding, closed, summed_entries, summed_honest, summed_message};
ghost use Rattle.table_shape.specs.Limits.{max_channel_width, max_rows};
ghost use Rattle.table_shape.specs.declared.shape.FlushShape.{FlushShape as Flush};
ghost use Rattle.channel_products.specs.Channels.{leaves_of};
ghost use Rattle.channel_products.specs.Descent.{descent_entries, layered_sum, leaves, leaves_sum, row_vars, state_product, sum_of_leaves, waiting, Descent, Layered as Stated, Pointed as At};
ghost use Rattle.channel_products.specs.DescentFields.{flush_in};
ghost use Rattle.channel_products.specs.DescentProver.{AddsLeaves, Descends, FollowsLeaves, FollowsProduct, FollowsSum, IsMade, IsNewFor};
ghost use Rattle.channel_products.specs.Following.{IsGiven};
ghost use Rattle.channel_products.specs.Given.{table_of, FlushIsThere};
ghost use Rattle.channel_products.specs.Stacked.{stacked};
ghost use Rattle.channel_products.specs.Summands.{halves_form, leaf_term_form};
ghost use Rattle.channel_products.specs.declared.product_prover.Standing.TheVariants.{Unmade};

use crate::channels::copied_flush;
use crate::flushed::Flushed;
use crate::halves::Halves;
use crate::layers::{layers_below, leaf_table, power};
use crate::leaf_term::LeafTerm;
use crate::no_memory::NoMemory;
use crate::pointed::Pointed;
use crate::product_walk::{ProductWalk, columns_of, flush_at};
use crate::sum_tables::{sum_of_layer, sum_of_leaves};
use std::alloc::Global;
use sumcheck::{ColumnClaim, ColumnTables, Ending, Honest, SumProver};
use table_shape::Shape;
use tower_field::{B128, Values};

/// The sum that stands, once its tables are made.
#[derive(Drop)]
enum Standing {
    Unmade,
    Layer(SumProver<Halves>),
    Leaves(SumProver<LeafTerm>),
}

/// The prover of the claim that the product of a flush's leaves is a value, who makes the tables of
/// each sum with its first message, and gives at the end the claims on the flush's columns with their
/// true values. It reads the lists of columns where they are.
#[derive(Drop)]
pub struct ProductProver<'a> {
    alloc: Global,
    tables: &'a ColumnTables,
    at: Pointed,
    layer: u32,
    layers: Vec<Values>,
    sum: Standing,
    ending: Ending,
}

/// The layers below the first.
fn all_layers(
    alloc: Global,
    tables: &ColumnTables,
    at: &Pointed,
    vars: u32,
) -> Result<Vec<Values>, NoMemory>
    requires vars { vars ≡ row_vars at.now.flushed }
    requires few { vars ≤ 20 }
    requires there { FlushIsThere tables.now at.now.flushed }
    ensures { IfOk result (λ layers. layers.items ≡ stacked (leaves_of (table_of tables.now) at.now.alpha at.now.gamma at.now.flushed) 0 vars) }
{
    let leaves = leaf_table(alloc, tables, &at.flushed, power(vars), at.alpha, at.gamma)?;
    layers_below(alloc, leaves, vars)
}

/// The layer below that of the next sum.
fn next_below(layers: &mut Vec<Values>) -> Values
    requires { 0 < length layers.old.items }
    ensures { (before : List (List ℕ)) (next : List ℕ) → layers.old.items ≡ before ++ next ∷ [] → (layers.new.items ≡ before) × (result ≡ next) }
{
    let Some(below) = layers.pop() else {
        unreachable!();
    };
    below
}

/// The prover of the sum for a value of a layer.
fn layer_sum(
    alloc: Global,
    at: &Pointed,
    layer: u32,
    below: &Values,
) -> Result<SumProver<Halves>, NoMemory>
    requires few { layer < 32 }
    requires point { length at.now.point ≡ layer }
    requires below { length below.now ≡ 2 ^ layer + 2 ^ layer }
    ensures { IfOk result (λ sum. (c : ℕ) → Goes halves_form sum (layer_sum layer at.now.point below.now) (sum_claim 3 layer [] c)) }
{
    sum_of_layer(alloc, layer, at.point.as_slice(), below.as_slice())
}

/// The prover of the sum on the leaves.
fn leaf_sum(
    alloc: Global,
    tables: &ColumnTables,
    at: &Pointed,
    vars: u32,
) -> Result<SumProver<LeafTerm>, NoMemory>
    requires vars { vars ≡ row_vars at.now.flushed }
    requires few { vars ≤ 20 }
    requires point { length at.now.point ≡ vars }
    requires there { FlushIsThere tables.now at.now.flushed }
    ensures { IfOk result (λ sum. (c : ℕ) → Goes leaf_term_form sum (sum_of_leaves (table_of tables.now) at.now) (sum_claim 4 vars [] c)) }
{
    let (flush, point) = (&at.flushed, at.point.as_slice());
    sum_of_leaves(alloc, tables, flush, vars, point, at.alpha, at.gamma)
}

/// A round of a layer's sum, or its last message.
fn give_layer(sum: &SumProver<Halves>, out: &mut Vec<B128>) -> Result<(), sumcheck::NoMemory>
    requires { (F : Filling) × (t : Stated) × (r : Rounds) × (_ : Goes halves_form sum.now (layered_sum.sum F t) r) × AwaitsSome (summed_entries layered_sum (adding t r)) }
    ensures { IfOk result (λ _. (F : Filling) (t : Stated) (r : Rounds) → Goes halves_form sum.now (layered_sum.sum F t) r → variables r ≡ t.layer → AwaitsSome (summed_entries layered_sum (adding t r)) → out.new.items ≡ out.old.items ++ summed_honest layered_sum F (adding t r)) }
{
    if sum.left() > 0 {
        sum.round(out)?;
        return Ok(());
    }
    let finals = sum.finals();
    out.extend_from_slice(&finals[1..])?;
    Ok(())
}

/// A selector's value where there is one, and the values of the tuple's columns.
fn column_values(finals: &[B128], has_selector: bool) -> &[B128]
    requires { 3 ≤ length finals.now }
    ensures { result.now ≡ drop (cond has_selector 2 3) finals.now }
{
    if has_selector {
        &finals[2..]
    } else {
        &finals[3..]
    }
}

/// A round of the sum on the leaves, or the last message, after which the claims are told.
fn give_leaves(
    at: &Pointed,
    sum: &SumProver<LeafTerm>,
    ending: &mut Ending,
    out: &mut Vec<B128>,
) -> Result<(), sumcheck::NoMemory>
    requires { (F : Filling) × (r : Rounds) × (_ : AddsLeaves sum.now ending.old F at.now r) × AwaitsSome (summed_entries leaves_sum (adding at.now r)) }
    ensures { IfOk result (λ _. (F : Filling) (r : Rounds) → AddsLeaves sum.now ending.old F at.now r → AwaitsSome (summed_entries leaves_sum (adding at.now r)) → (out.new.items ≡ out.old.items ++ summed_honest leaves_sum F (adding at.now r)) × FollowsLeaves sum.now ending.new F (summed_message leaves_sum (adding at.now r) (summed_honest leaves_sum F (adding at.now r)))) }
{
    if sum.left() > 0 {
        sum.round(out)?;
        return Ok(());
    }
    let values = column_values(sum.finals(), at.flushed.shape.selector.is_some());
    out.extend_from_slice(values)?;
    ending.tell(values);
    Ok(())
}

impl<'a> ProductProver<'a> {
    /// The prover for a flush of a table on a number of rows, from the lists of the columns that it
    /// names.
    pub fn begin(
        alloc: Global,
        shape: &Shape,
        table: u32,
        flush: u32,
        rows: u32,
        tables: &'a ColumnTables,
    ) -> Result<ProductProver<'a>, NoMemory>
        requires some { IsSome (flush_in shape.now.tables table flush) }
        requires few { rows ≤ max_rows }
        requires there { (f : Flush) → flush_in shape.now.tables table flush ≡ Some f → FlushIsThere tables.now (record { table = table; number = flush; rows = rows; shape = f }) }
        ensures { IfOk result (λ prover. (f : Flush) → flush_in shape.now.tables table flush ≡ Some f → IsNewFor prover (record { table = table; number = flush; rows = rows; shape = f }) tables.now) }
    {
        let own = flush_at(shape, table, flush);
        let copy = copied_flush(alloc, own)?;
        ProductProver::of(
            alloc,
            Flushed {
                table,
                number: flush,
                rows,
                shape: copy,
            },
            tables,
        )
    }

    /// The prover for a flush.
    fn of(
        alloc: Global,
        flushed: Flushed,
        tables: &'a ColumnTables,
    ) -> Result<ProductProver<'a>, NoMemory>
        requires rows { flushed.rows ≤ max_rows }
        requires width { length flushed.shape.columns ≤ max_channel_width }
        requires there { FlushIsThere tables.now flushed }
        ensures { IfOk result (λ prover. IsNewFor prover flushed tables.now) }
    {
        let columns = columns_of(alloc, &flushed)?;
        let table = flushed.table;
        let at = Pointed::begin(alloc, flushed)?;
        let ending = Ending::begin(alloc, table, columns.as_slice(), at.row_vars())?;
        Ok(ProductProver {
            alloc,
            tables,
            at,
            layer: 0,
            layers: Vec::new(alloc),
            sum: Standing::Unmade,
            ending,
        })
    }

    /// The claim is stated that the product of the leaves at alpha and gamma is a value. The prover
    /// gives true values, whatever is claimed.
    pub fn enter(&mut self, alpha: B128, gamma: B128, _product: B128)
        requires { (f : Flushed) × (tables : List Table) × IsNewFor self.old f tables }
        ensures { (F : Filling) (f : Flushed) (tables : List Table) → IsNewFor self.old f tables → IsGiven F tables f → FollowsProduct self.new F (state_product alpha gamma _product (waiting f)) }
    {
        self.at.state(alpha, gamma);
    }

    /// How many claims are left at the end.
    pub fn claim_count(&self) -> u32
        requires { (F : Filling) × (claims : List Told) × FollowsProduct self.now F (leaves (closed claims)) }
        ensures { (F : Filling) (claims : List Told) → FollowsProduct self.now F (leaves (closed claims)) → result ≡ length claims }
    {
        self.ending.claim_count()
    }

    /// A claim that is left at the end, on the selector where there is one, and on each column of the
    /// tuple. It is true, whatever the walk would have refused.
    pub fn claim(&self, i: u32) -> &ColumnClaim
        requires { (F : Filling) × (claims : List Told) × (_ : FollowsProduct self.now F (leaves (closed claims))) × (i < length claims) }
        ensures claim { (F : Filling) (claims : List Told) → FollowsProduct self.now F (leaves (closed claims)) → slice_get claims i ≡ Some result.now }
        ensures holds { (F : Filling) (claims : List Told) → FollowsProduct self.now F (leaves (closed claims)) → ColumnHolds F result.now }
    {
        self.ending.claim(i)
    }

    /// Makes the layers, where the first sum is to come.
    fn ready(&mut self, vars: u32) -> Result<(), NoMemory>
        requires vars { vars ≡ row_vars self.old.at.flushed }
        requires few { vars ≤ 20 }
        requires there { FlushIsThere self.old.tables.now self.old.at.flushed }
        ensures rest { IfOk result (λ _. self.new ≡ record self.old { layers = self.new.layers }) }
        ensures kept { IfOk result (λ _. (F : Filling) (t : At) (d : ℕ) → Descends self.old F t d → self.new.layers.items ≡ stacked (leaves_of F t.alpha t.gamma t.flushed) self.old.layer d) }
    {
        if self.layer > 0 {
            return Ok(());
        }
        self.layers = all_layers(self.alloc, self.tables, &self.at, vars)?;
        Ok(())
    }

    /// Makes the tables of the next layer's sum.
    fn start_layer(&mut self, vars: u32) -> Result<(), NoMemory>
        requires vars { vars ≡ row_vars self.old.at.flushed }
        requires few { vars ≤ 20 }
        requires above { self.old.layer < vars }
        requires follows { (F : Filling) × (s : Descent) × FollowsSum self.old Unmade F s }
        ensures made { IfOk result (λ _. IsMade self.new.sum) }
        ensures follows { IfOk result (λ _. (F : Filling) (s : Descent) → FollowsSum self.old Unmade F s → FollowsProduct self.new F s) }
    {
        self.ready(vars)?;
        let below = next_below(&mut self.layers);
        let sum = layer_sum(self.alloc, &self.at, self.layer, &below)?;
        self.at.clear();
        self.sum = Standing::Layer(sum);
        Ok(())
    }

    /// Makes the tables of the sum on the leaves.
    fn start_leaves(&mut self, vars: u32) -> Result<(), NoMemory>
        requires vars { vars ≡ row_vars self.old.at.flushed }
        requires few { vars ≤ 20 }
        requires last { vars ≤ self.old.layer }
        requires follows { (F : Filling) × (s : Descent) × FollowsSum self.old Unmade F s }
        ensures made { IfOk result (λ _. IsMade self.new.sum) }
        ensures follows { IfOk result (λ _. (F : Filling) (s : Descent) → FollowsSum self.old Unmade F s → FollowsProduct self.new F s) }
    {
        let sum = leaf_sum(self.alloc, self.tables, &self.at, vars)?;
        self.sum = Standing::Leaves(sum);
        Ok(())
    }

    /// Makes the tables of the sum that stands, where there are none yet.
    fn start(&mut self) -> Result<(), NoMemory>
        requires { (F : Filling) × (s : Descent) × (_ : FollowsProduct self.old F s) × AwaitsSome (descent_entries s) }
        ensures made { IfOk result (λ _. IsMade self.new.sum) }
        ensures follows { IfOk result (λ _. (F : Filling) (s : Descent) → FollowsProduct self.old F s → AwaitsSome (descent_entries s) → FollowsProduct self.new F s) }
    {
        match &self.sum {
            Standing::Unmade => {}
            Standing::Layer(_) | Standing::Leaves(_) => return Ok(()),
        }
        let vars = self.at.row_vars();
        if self.layer < vars {
            self.start_layer(vars)
        } else {
            self.start_leaves(vars)
        }
    }
}

impl Honest for ProductProver<'_> {
    type Walk = ProductWalk;

    ghost follows = { FollowsProduct };

    fn message(&mut self, out: &mut Vec<B128>) -> Result<(), sumcheck::NoMemory> {
        if self.start().is_err() {
            return Err(sumcheck::NoMemory);
        }
        match &self.sum {
            Standing::Unmade => unreachable!(),
            Standing::Layer(sum) => give_layer(sum, out),
            Standing::Leaves(sum) => give_leaves(&self.at, sum, &mut self.ending, out),
        }
    }

    fn draw(&mut self, c: B128) {
        match &mut self.sum {
            Standing::Unmade => unreachable!(),
            Standing::Layer(sum) => {
                self.at.set(c);
                if sum.left() > 0 {
                    sum.bind(c);
                } else {
                    let _ = self.at.row_vars();
                    self.layer += 1;
                    self.sum = Standing::Unmade;
                }
            }
            Standing::Leaves(sum) => {
                sum.bind(c);
                self.ending.set(c);
            }
        }
    }
}
