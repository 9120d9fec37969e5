//! Walks beside their provers, for timing. By the first word, over 2 ^ N values: three claims on a
//! column merged (`merge`), a claim on a column shifted within blocks of 32 (`shift`), the carries
//! of an adder of 32 bits (`zero`), the product of a flush of 2 ^ N rows (`product`), claims on three
//! columns whose bits stand in 2 ^ N places (`bits`, and `packed` from words), or the value of the bits
//! of 2 ^ N words turned into one of the words (`switch`). Prints the sum of the last message.

#![tactic(auto)]

ghost use Rattle.std.specs.Prelude.{◌≡◌, ◌≤◌, ◌+◌, ◌^◌, length, true, IfOk, IsSome, IsTrue, Some};
ghost use Rattle.std.specs.List.{AllByRecursion};
ghost use Rattle.sumcheck.specs.Machine.{Filling};
ghost use Rattle.table_shape.specs.Limits.{max_rows};
ghost use Rattle.table_shape.specs.Placement.{places_log};
ghost use Rattle.table_shape.specs.declared.shape.FlushShape.{FlushShape as Flush};
ghost use Rattle.bit_claim.specs.BatchFollowing.{FollowsBatch};
ghost use Rattle.bit_claim.specs.Bits.{bits, IsPlaced};
ghost use Rattle.channel_products.specs.DescentFields.{flush_in};
ghost use Rattle.channel_products.specs.DescentProver.{FollowsProduct};
ghost use Rattle.channel_products.specs.Given.{FlushIsThere};
ghost use Rattle.eval_reduce.specs.declared.shifting.Shifting.{Shifting};
ghost use Rattle.eval_reduce.specs.Following.{Follows};
ghost use Rattle.eval_reduce.specs.Merge.{AllOn};
ghost use Rattle.eval_reduce.specs.Shift.{shifting_of};
ghost use Rattle.eval_reduce.specs.ShiftProver.{FollowsShift};
ghost use Rattle.eval_reduce.specs.Virtual.{IsOn, IsThere};
ghost use Rattle.ring_switch.specs.SwitchProver.{FollowsSwitch};
ghost use Rattle.zerocheck.specs.Given.{AreThere};
ghost use Rattle.zerocheck.specs.Group.{Group as Constraints, group_of};
ghost use Rattle.zerocheck.specs.ZeroProver.{FollowsZero};

use bit_claim::{BitProver, BitWalk, Placement, place};
use bit_inputs::{Claimed, claims_on, prover_of, table_of_bits};
use channel_products::{ProductProver, ProductWalk, collapse, leaf};
use cube_mle::{eq_table, mle_at};
use eval_reduce::{MergeProver, MergeWalk, ShiftProver, ShiftWalk};
use packed_words::Buckets;
use reduction_inputs::{Lack, rows_fit};
use ring_switch::{SwitchProver, SwitchWalk};
use sqlite_items::at;
use std::alloc::Global;
use std::{env, io};
use sumcheck::{ColumnClaim, ColumnTables, Honest};
use table_shape::{ColumnKind, Shape, ShapeForm, ceil_log, resolve};
use table_text::read_tables;
use tower_field::{B128, Tower, Values};
use walk_example::meet;
use zerocheck::{ZeroProver, ZeroWalk, has_group};

/// Element k of a list.
fn element(k: u64) -> B128 {
    let low = k
        .wrapping_mul(6364136223846793005)
        .wrapping_add(1442695040888963407);
    let high = low
        .wrapping_mul(2862933555777941757)
        .wrapping_add(3037000493);
    B128::join(low as u128, high as u128)
}

/// Bit k of a list that `seed` tells.
fn bit(k: u64, seed: u64) -> B128 {
    let hash = (k ^ seed << 40).wrapping_mul(6364136223846793005);
    if hash >> 63 == 1 {
        B128::ONE
    } else {
        B128::ZERO
    }
}

/// Elements `first`, `first` + 1, ..
fn column(alloc: Global, log: u32, first: u64) -> Result<Vec<B128>, Lack>
    requires { log ≤ 20 }
    ensures { IfOk result (λ values. length values.items ≡ 2 ^ log) }
{
    let mut values: Vec<B128> = Vec::new(alloc);
    'values: for p in 0..1u64 << log {
        if values.push(element(first.wrapping_add(p))).is_err() {
            return Err(Lack);
        }
    }
    Ok(values)
}

fn bits(alloc: Global, log: u32, seed: u64) -> Result<Vec<B128>, Lack>
    requires { log ≤ 20 }
    ensures { IfOk result (λ values. length values.items ≡ 2 ^ log) }
{
    let mut values: Vec<B128> = Vec::new(alloc);
    'values: for p in 0..1u64 << log {
        if values.push(bit(p, seed)).is_err() {
            return Err(Lack);
        }
    }
    Ok(values)
}

fn point(alloc: Global, vars: u32, seed: u64) -> Result<Vec<B128>, Lack>
    requires { vars ≤ 32 }
    ensures { IfOk result (λ values. length values.items ≡ vars) }
{
    let mut values: Vec<B128> = Vec::new(alloc);
    'values: for k in 0..vars {
        if values
            .push(element(seed.wrapping_add(u64::from(k))))
            .is_err()
        {
            return Err(Lack);
        }
    }
    Ok(values)
}

/// A claim on a column of table 0, true of a list of values.
fn claim(
    alloc: Global,
    column: u32,
    values: &[B128],
    vars: u32,
    seed: u64,
) -> Result<ColumnClaim, Lack>
    requires few { vars ≤ 32 }
    requires whole { length values.now ≡ 2 ^ vars }
    ensures { IfOk result (λ c. (c.table ≡ 0) × ((c.column ≡ column) × (length c.point ≡ vars))) }
{
    let point = point(alloc, vars, seed)?;
    let Ok(value) = mle_at(alloc, values, point.as_slice()) else {
        return Err(Lack);
    };
    Ok(ColumnClaim {
        table: 0,
        column,
        point: Values::from_vec(point),
        value,
    })
}

fn sum(values: &[B128]) -> B128 {
    let mut sum = B128::ZERO;
    for value in values {
        sum = sum + *value;
    }
    sum
}

/// Walk and prover side by side to the end: the sum of the last message.
fn meet_all<P: Honest>(alloc: Global, walk: &mut P::Walk, prover: &mut P) -> Result<B128, Lack>
    requires { (F : Filling) × P.follows prover.old F walk.old }
{
    let mut values = Vec::new(alloc);
    match meet(walk, prover, 1000, &mut values) {
        Ok((_, true)) => Ok(sum(values.as_slice())),
        _ => Err(Lack),
    }
}

/// The walk of a merge and its prover, the claims stated.
fn begin_merge(
    alloc: Global,
    log: u32,
    column: &[B128],
    claims: &[ColumnClaim],
) -> Result<(MergeWalk, MergeProver), Lack>
    requires few { log ≤ 20 }
    requires whole { length column.now ≡ 2 ^ log }
    requires many { (2 ≤ length claims.now) × (length claims.now ≤ 3) }
    requires on { AllOn 0 5 log claims.now }
    ensures { IfOk result (λ both. (F : Filling) × Follows both.1 F both.0) }
{
    let Ok(mut walk) = MergeWalk::begin(alloc, log, 3) else {
        return Err(Lack);
    };
    walk.enter(claims);
    let Ok(mut prover) = MergeProver::begin(alloc, log, 3, column) else {
        return Err(Lack);
    };
    prover.enter(claims);
    Ok((walk, prover))
}

/// Three claims on a column, merged.
fn merged(alloc: Global, log: u32) -> Result<B128, Lack>
    requires { log ≤ 20 }
{
    let column = column(alloc, log, 0)?;
    let column = column.as_slice();
    let claims = [
        claim(alloc, 5, column, log, 100)?,
        claim(alloc, 5, column, log, 200)?,
        claim(alloc, 5, column, log, 300)?,
    ];
    let (mut walk, mut prover) = begin_merge(alloc, log, column, &claims)?;
    meet_all(alloc, &mut walk, &mut prover)
}

const SHIFTED: &[u8] = b"table t { column a : b1 x 32; virtual s = shl(a, 5, 1); }";

const CARRIES: &[u8] =
    b"table t { column a : b1 x 32; column b : b1 x 32; column c : b1 x 32; column d : b1 x 32; zero z : (a + c) * (b + c) + c + d; }";

const PUSHED: &[u8] =
    b"channel c : 2; table t { column a : b128; column b : b128; push c (a, b); }";

fn shape_of(alloc: Global, text: &[u8]) -> Result<Shape, Lack> {
    if text.len() > 1000 {
        return Err(Lack);
    }
    let Ok(tables) = read_tables(alloc, text) else {
        return Err(Lack);
    };
    match resolve(alloc, &tables) {
        Ok(shape) => Ok(shape),
        Err(_) => Err(Lack),
    }
}

/// 2 ^ log rows.
fn rows_of(log: u32) -> u32
    requires { log ≤ 20 }
    ensures { result ≤ max_rows }
{
    1u32 << log
}

/// Keeps a list for a column that has none.
fn keep(tables: &mut ColumnTables, column: u32, values: Vec<B128>) -> Result<(), Lack> {
    if tables.get(0, column).is_some() || tables.add(0, column, values).is_err() {
        return Err(Lack);
    }
    Ok(())
}

/// The carries of sums of three bits each.
fn carry_bits(alloc: Global, a: &[B128], b: &[B128], c: &[B128]) -> Result<Vec<B128>, Lack>
    requires equal { (length b.now ≡ length a.now) × (length c.now ≡ length a.now) }
    ensures { IfOk result (λ values. length values.items ≡ length a.now) }
{
    let mut values: Vec<B128> = Vec::new(alloc);
    'values: for p in 0..a.len() {
        if values.push((a[p] + c[p]) * (b[p] + c[p]) + c[p]).is_err() {
            return Err(Lack);
        }
    }
    Ok(values)
}

/// The walk of a group of the first table and its prover, the claim stated.
fn begin_zero(
    alloc: Global,
    shape: &Shape,
    log_values: u32,
    rows: u32,
    tables: &ColumnTables,
) -> Result<(ZeroWalk, ZeroProver), Lack>
    requires some { IsSome (group_of shape.now.tables rows 0 log_values) }
    requires few { rows ≤ max_rows }
    requires there { (g : Constraints) → group_of shape.now.tables rows 0 log_values ≡ Some g → AreThere tables.now g.table (2 ^ g.vars) g.columns }
    ensures { IfOk result (λ both. (F : Filling) × FollowsZero both.1 F both.0) }
{
    let Ok(mut walk) = ZeroWalk::begin(alloc, shape, 0, log_values, rows) else {
        return Err(Lack);
    };
    walk.enter();
    let Ok(mut prover) = ZeroProver::begin(alloc, shape, 0, log_values, rows, tables) else {
        return Err(Lack);
    };
    prover.enter();
    Ok((walk, prover))
}

/// Bits of three summands, and their carries.
fn carry_tables(alloc: Global, log: u32) -> Result<ColumnTables, Lack>
    requires { log ≤ 20 }
{
    let (a, b, c) = (
        bits(alloc, log, 1)?,
        bits(alloc, log, 2)?,
        bits(alloc, log, 4)?,
    );
    let d = carry_bits(alloc, a.as_slice(), b.as_slice(), c.as_slice())?;
    let mut tables = ColumnTables::new(alloc);
    keep(&mut tables, 0, a)?;
    keep(&mut tables, 1, b)?;
    keep(&mut tables, 2, c)?;
    keep(&mut tables, 3, d)?;
    Ok(tables)
}

/// The constraint of an adder of 32 bits, on 2 ^ log positions.
fn carries(alloc: Global, log: u32) -> Result<B128, Lack>
    requires { (5 ≤ log) × (log ≤ 20) }
{
    let shape = shape_of(alloc, CARRIES)?;
    let tables = carry_tables(alloc, log)?;
    let rows = rows_of(log - 5);
    if !has_group(&shape, 0, 5) {
        return Err(Lack);
    }
    let Ok(there) = zerocheck::has_lists(alloc, &shape, 0, 5, rows, &tables) else {
        return Err(Lack);
    };
    if !there {
        return Err(Lack);
    }
    let (mut walk, mut prover) = begin_zero(alloc, &shape, 5, rows, &tables)?;
    meet_all(alloc, &mut walk, &mut prover)
}

/// A list moved up by one in blocks of 32.
fn moved(alloc: Global, source: &[B128]) -> Result<Vec<B128>, Lack>
    ensures { IfOk result (λ values. length values.items ≡ length source.now) }
{
    let mut values: Vec<B128> = Vec::new(alloc);
    'values: for p in 0..source.len() {
        let value = if p % 32 == 0 {
            B128::ZERO
        } else {
            source[p - 1]
        };
        if values.push(value).is_err() {
            return Err(Lack);
        }
    }
    Ok(values)
}

/// Whether a claim is on a column that is moved up, at one of its points.
fn is_on_moved(shape: &Shape, rows: u32, claim: &ColumnClaim) -> bool
    ensures { result ≡ true → (f : Shifting) × (_ : shifting_of shape.now.tables rows claim.now.table claim.now.column ≡ Some f) × IsOn f.table f.column f.vars claim.now }
{
    let Some(table) = at(shape.tables(), claim.table as usize) else {
        return false;
    };
    let Some(column) = at(table.columns.as_slice(), claim.column as usize) else {
        return false;
    };
    let vars = u64::from(ceil_log(u64::from(rows))) + u64::from(column.log_values);
    match &column.kind {
        ColumnKind::Virtual(ShapeForm::Shl { .. }) => claim.point.as_slice().len() as u64 == vars,
        _ => false,
    }
}

/// The walk of a shifted column and its prover, the claim stated.
fn begin_shift(
    alloc: Global,
    shape: &Shape,
    rows: u32,
    tables: &ColumnTables,
    claim: &ColumnClaim,
) -> Result<(ShiftWalk, ShiftProver), Lack>
    requires form { (f : Shifting) × (_ : shifting_of shape.now.tables rows claim.now.table claim.now.column ≡ Some f) × IsOn f.table f.column f.vars claim.now }
    requires there { (f : Shifting) → shifting_of shape.now.tables rows claim.now.table claim.now.column ≡ Some f → IsThere tables.now claim.now.table f.source (2 ^ f.vars) }
    ensures { IfOk result (λ both. (F : Filling) × FollowsShift both.1 F both.0) }
{
    let Ok(mut prover) = ShiftProver::begin(alloc, shape, claim.table, claim.column, rows, tables)
    else {
        return Err(Lack);
    };
    prover.enter(claim);
    let Ok(mut walk) = ShiftWalk::begin(alloc, shape, claim.table, claim.column, rows) else {
        return Err(Lack);
    };
    walk.enter(claim);
    Ok((walk, prover))
}

/// A claim on a shifted column.
fn shifted(alloc: Global, log: u32) -> Result<B128, Lack>
    requires { (5 ≤ log) × (log ≤ 20) }
{
    let shape = shape_of(alloc, SHIFTED)?;
    let rows = rows_of(log - 5);
    let source = bits(alloc, log, 1)?;
    let list = moved(alloc, source.as_slice())?;
    let claim = claim(alloc, 1, list.as_slice(), log, 100)?;
    let mut tables = ColumnTables::new(alloc);
    keep(&mut tables, 0, source)?;
    if !is_on_moved(&shape, rows, &claim) {
        return Err(Lack);
    }
    if !eval_reduce::has_lists(&shape, claim.table, claim.column, rows, &tables) {
        return Err(Lack);
    }
    let (mut walk, mut prover) = begin_shift(alloc, &shape, rows, &tables, &claim)?;
    meet_all(alloc, &mut walk, &mut prover)
}

const COMMITTED: &[u8] = b"table t { column a : b1 x 32; column b : b1 x 32; column c : b1 x 32; }";

/// Lists of bits for the first three columns, 2 ^ log of each.
fn bit_lists(alloc: Global, log: u32) -> Result<ColumnTables, Lack>
    requires { log ≤ 20 }
{
    let mut tables = ColumnTables::new(alloc);
    keep(&mut tables, 0, bits(alloc, log, 1)?)?;
    keep(&mut tables, 1, bits(alloc, log, 2)?)?;
    keep(&mut tables, 2, bits(alloc, log, 4)?)?;
    Ok(tables)
}

/// The walk of claims on committed columns and its prover, the claims stated.
fn begin_bits(
    alloc: Global,
    placement: &Placement,
    table: &[B128],
    claims: &[ColumnClaim],
    packed: bool,
) -> Result<(BitWalk, BitProver), Lack>
    requires whole { length table.now ≡ 2 ^ places_log placement.now }
    requires bits { (F : Filling) × (bits F placement.now ≡ table.now) }
    requires few { length claims.now ≤ 100 }
    requires placed { AllByRecursion (IsPlaced placement.now) claims.now }
    ensures { IfOk result (λ both. (F : Filling) × FollowsBatch both.1 F both.0) }
{
    let count = claims.len() as u32;
    let Ok(mut walk) = BitWalk::begin(alloc, placement, count) else {
        return Err(Lack);
    };
    walk.enter(claims);
    let mut prover = prover_of(alloc, placement, count, table, packed)?;
    prover.enter(claims);
    Ok((walk, prover))
}

/// A claim on a column of the first table.
fn claimed_at(column: u32) -> Claimed
    requires { column ≤ 2 }
{
    Claimed {
        table: 0,
        column,
        first: 100 * column,
        error: 0,
    }
}

/// A claim on each of three columns, whose bits stand in a table of 2 ^ log places, in words or with an
/// element for each.
fn batched(alloc: Global, log: u32, packed: bool) -> Result<B128, Lack>
    requires { (8 ≤ log) × (log ≤ 20) }
{
    let shape = shape_of(alloc, COMMITTED)?;
    let rows = [rows_of(log - 7)];
    if !rows_fit(&shape, &rows) {
        return Err(Lack);
    }
    let Ok(placement) = place(alloc, &shape, &rows) else {
        return Err(Lack);
    };
    let lists = bit_lists(alloc, log - 2)?;
    let table = table_of_bits(alloc, &placement, &lists)?;
    let told = [claimed_at(0), claimed_at(1), claimed_at(2)];
    let claims = claims_on(alloc, &placement, &lists, &told)?;
    let (mut walk, mut prover) = begin_bits(
        alloc,
        &placement,
        table.as_slice(),
        claims.as_slice(),
        packed,
    )?;
    meet_all(alloc, &mut walk, &mut prover)
}

/// Whether the first table has a flush.
fn has_flush(shape: &Shape) -> bool
    ensures { IsTrue result → IsSome (flush_in shape.now.tables 0 0) }
{
    match at(shape.tables(), 0) {
        Some(table) => table.flushes.len() > 0,
        None => false,
    }
}

/// The product of the leaves of tuples of two.
fn leaves_product(alpha: B128, gamma: B128, a: &[B128], b: &[B128]) -> B128
    requires { length b.now ≡ length a.now }
{
    let mut product = B128::ONE;
    for p in 0..a.len() {
        let collapsed = collapse(alpha, &[a[p], b[p]]);
        product = product * leaf(B128::ONE, B128::ONE, gamma, collapsed);
    }
    product
}

/// The walk of the first flush and its prover, the product claimed.
fn begin_product<'a>(
    alloc: Global,
    shape: &Shape,
    rows: u32,
    tables: &'a ColumnTables,
    alpha: B128,
    gamma: B128,
    product: B128,
) -> Result<(ProductWalk, ProductProver<'a>), Lack>
    requires some { IsSome (flush_in shape.now.tables 0 0) }
    requires few { rows ≤ max_rows }
    requires there { (f : Flush) → flush_in shape.now.tables 0 0 ≡ Some f → FlushIsThere tables.now (record { table = 0; number = 0; rows = rows; shape = f }) }
    ensures { IfOk result (λ both. (F : Filling) × FollowsProduct both.1 F both.0) }
{
    let Ok(mut walk) = ProductWalk::begin(alloc, shape, 0, 0, rows) else {
        return Err(Lack);
    };
    walk.enter(alpha, gamma, product);
    let Ok(mut prover) = ProductProver::begin(alloc, shape, 0, 0, rows, tables) else {
        return Err(Lack);
    };
    prover.enter(alpha, gamma, product);
    Ok((walk, prover))
}

/// The product of a flush of tuples of two on 2 ^ log rows.
fn multiplied(alloc: Global, log: u32) -> Result<B128, Lack>
    requires { log ≤ 20 }
{
    let shape = shape_of(alloc, PUSHED)?;
    let (a, b) = (column(alloc, log, 0)?, column(alloc, log, 1 << 32)?);
    let (alpha, gamma) = (element(100), element(200));
    let product = leaves_product(alpha, gamma, a.as_slice(), b.as_slice());
    let mut tables = ColumnTables::new(alloc);
    keep(&mut tables, 0, a)?;
    keep(&mut tables, 1, b)?;
    let rows = rows_of(log);
    if shape.tables().len() != 1 || !has_flush(&shape) {
        return Err(Lack);
    }
    let Ok(there) = channel_products::has_lists(alloc, &shape, &[rows], &tables) else {
        return Err(Lack);
    };
    if !there {
        return Err(Lack);
    }
    let (mut walk, mut prover) = begin_product(
        alloc, &shape, rows, &tables, alpha, gamma, product,
    )?;
    meet_all(alloc, &mut walk, &mut prover)
}

/// The value of the bits of words at a point.
fn value_of_bits(alloc: Global, words: &[B128], point: &[B128]) -> Result<B128, Lack>
    requires { 7 ≤ length point.now }
{
    let Ok(weights) = eq_table(alloc, &point[7..]) else {
        return Err(Lack);
    };
    let Ok(mut buckets) = Buckets::new(alloc) else {
        return Err(Lack);
    };
    let columns = buckets.columns(weights.as_slice(), words);
    match mle_at(alloc, &columns, &point[..7]) {
        Ok(value) => Ok(value),
        Err(_) => Err(Lack),
    }
}

/// The walk of a ring switch over 2 ^ log words and its prover, the value stated.
fn begin_switch(
    alloc: Global,
    log: u32,
    words: &[B128],
    point: &[B128],
    value: B128,
) -> Result<(SwitchWalk, SwitchProver), Lack>
    requires size { (1 ≤ log) × (log ≤ 17) }
    requires whole { length words.now ≡ 2 ^ log }
    requires long { length point.now ≡ log + 7 }
    ensures { IfOk result (λ both. (F : Filling) × FollowsSwitch both.1 F both.0) }
{
    let Ok(mut walk) = SwitchWalk::begin(alloc, log + 7) else {
        return Err(Lack);
    };
    walk.enter(point, value);
    let Ok(mut prover) = SwitchProver::begin(alloc, log + 7, words) else {
        return Err(Lack);
    };
    prover.enter(point, value);
    Ok((walk, prover))
}

/// The value of the bits of 2 ^ log words, turned into one of the words.
fn switched(alloc: Global, log: u32) -> Result<B128, Lack>
    requires { (1 ≤ log) × (log ≤ 17) }
{
    let words = column(alloc, log, 0)?;
    let point = point(alloc, log + 7, 100)?;
    let value = value_of_bits(alloc, words.as_slice(), point.as_slice())?;
    let (mut walk, mut prover) = begin_switch(
        alloc,
        log,
        words.as_slice(),
        point.as_slice(),
        value,
    )?;
    meet_all(alloc, &mut walk, &mut prover)
}

fn main(rt: HostRuntime) -> io::Result<()> {
    let mut words = env::args(&rt)?;
    let _program = words.next();
    let Some(kind) = words.next() else {
        return Ok(());
    };
    let log = match words.next() {
        Some(word) => word.as_str().parse::<u32>().unwrap_or(5),
        None => 5,
    };
    if log < 5 || log > 20 {
        return Ok(());
    }
    let value = match kind.as_str() {
        "merge" => merged(rt.alloc(), log),
        "shift" => shifted(rt.alloc(), log),
        "product" => multiplied(rt.alloc(), log),
        "bits" if log >= 8 => batched(rt.alloc(), log, false),
        "packed" if log >= 10 => batched(rt.alloc(), log, true),
        "bits" | "packed" => Err(Lack),
        "switch" if log <= 17 => switched(rt.alloc(), log),
        "switch" => Err(Lack),
        _ => carries(rt.alloc(), log),
    };
    match value {
        Ok(value) => {
            let number = value.number();
            println!(rt; "{number}")
        }
        Err(Lack) => println!(rt; "lacking"),
    }
}
