//! The plan of a proof.

ghost use Rattle.std.specs.Prelude.{◌≡◌, ◌≤◌, ◌<◌, ◌∷◌, ◌^◌, [], ℕ, length, slice_get, slice_index, IfOk, Some};
ghost use Rattle.table_shape.specs.Limits.{max_rows, max_size_log};
ghost use Rattle.table_shape.specs.Placement.{blocks, places_log};
ghost use Rattle.table_shape.specs.Size.{size_log};
ghost use Rattle.table_shape.specs.SizeStop.{AnswersSize};
ghost use Rattle.proof_plan.specs.Plan.{packed_log, plan};
ghost use Rattle.proof_plan.specs.PlanFits.{EntryIsSmall, max_count};
ghost use Rattle.proof_plan.specs.Sizes.{draws, entry_length, proof_length, query_length, total};

use crate::channels::push_channels;
use crate::columns::push_tables;
use crate::constraints::push_constraints;
use crate::plan_entry::PlanEntry;
use crate::words::{push_bits, push_switch};
use bit_claim::place;
use std::alloc::{AllocError, Global};
use std::marker::Model;
use table_shape::{Shape, SizeStop};

/// How many queries a proof answers.
const QUERIES: u64 = 64;

/// The entries of a proof in order: what its file holds, and what is drawn. Contracts see the list of
/// them, how many tables there are, and how many variables the packed table has; their numbers are small
/// enough that `total` and `byte_length` fit into 64 bits.
#[derive(Debug, Drop)]
pub struct Plan {
    entries: Vec<PlanEntry>,
    tables: u32,
    packed_vars: u32,
}

impl Model for Plan {
    ghost use Rattle.proof_plan.specs.PlanParts.{PlanParts};

    ghost Value = { PlanParts };

    ghost use Rattle.proof_plan.specs.PlanFits.{PlanFits};

    ghost view = { λ p. record { entries = p.entries.items; tables = p.tables; packed_log = p.packed_vars } };

    ghost invariant = { λ p. PlanFits (record { entries = p.entries.items; tables = p.tables; packed_log = p.packed_vars }) };
}

/// All entries, over so many places of bits.
fn all_entries(
    alloc: Global,
    shape: &Shape,
    rows: &[u32],
    places: u32,
) -> Result<Vec<PlanEntry>, AllocError>
    requires counts { length rows.now ≡ length shape.now.tables }
    requires few { (t : ℕ) → slice_index rows.now t ≤ max_rows }
    requires places { places ≡ places_log (blocks shape.now.tables rows.now) }
    ensures { IfOk result (λ entries. entries.items ≡ plan shape.now rows.now) }
{
    let tables = shape.tables();
    let mut entries = Vec::new(alloc);
    entries.push(PlanEntry::Root)?;
    push_channels(shape, rows, &mut entries)?;
    push_constraints(rows, tables, &mut entries)?;
    let claims = push_tables(alloc, rows, tables, &mut entries)?;
    push_bits(places, claims, &mut entries)?;
    push_switch(places - 7, &mut entries)?;
    Ok(entries)
}

impl Plan {
    /// The plan of a shape's tables on these numbers of rows. Too large exactly where the columns take
    /// more than 2^24 bits.
    pub fn of(alloc: Global, shape: &Shape, rows: &[u32]) -> Result<Plan, SizeStop>
        requires counts { length rows.now ≡ length shape.now.tables }
        requires few { (t : ℕ) → slice_index rows.now t ≤ max_rows }
        ensures plan { IfOk result (λ p. p ≡ record { entries = plan shape.now rows.now; tables = length shape.now.tables; packed_log = packed_log shape.now rows.now }) }
        ensures size { AnswersSize result (size_log shape.now.tables rows.now) }
    {
        let places = place(alloc, shape, rows)?.log_bits();
        let entries = all_entries(alloc, shape, rows, places)?;
        Ok(Plan {
            entries,
            tables: shape.tables().len() as u32,
            packed_vars: places - 7,
        })
    }

    /// How many entries there are.
    pub fn len(&self) -> u32
        ensures { result ≡ length self.now.entries }
    {
        self.entries.len() as u32
    }

    /// The entry of this number, from 0 on.
    pub fn entry(&self, i: u32) -> PlanEntry
        requires { i < length self.now.entries }
        ensures entry { slice_get self.now.entries i ≡ Some result }
        ensures small { EntryIsSmall result }
    {
        self.entries[i as usize]
    }

    /// The sum of the counts.
    pub fn total(&self) -> u64
        ensures { result ≡ total self.now.entries }
    {
        let mut sum = 0;
        for entry in self.entries.as_slice() {
            sum += entry_count(*entry);
        }
        sum
    }

    /// How many draws are counted.
    pub fn draws(&self) -> u32
        ensures { result ≡ draws self.now.entries }
    {
        let mut draws = 0;
        for entry in self.entries.as_slice() {
            if let PlanEntry::Draw { .. } = entry {
                draws += 1;
            }
        }
        draws
    }

    /// How many bytes the proof has.
    pub fn byte_length(&self) -> u64
        ensures { result ≡ proof_length self.now.tables self.now.packed_log self.now.entries }
    {
        let mut bytes = 41 + 4 * u64::from(self.tables);
        for entry in self.entries.as_slice() {
            bytes += entry_length(self.packed_vars, *entry);
        }
        bytes
    }

    /// How many variables the packed table has.
    pub fn packed_vars(&self) -> u32
        ensures value { result ≡ self.now.packed_log }
        ensures low { result ≤ max_size_log }
    {
        self.packed_vars
    }
}

/// How many challenges of an entry could turn a false claim true.
fn entry_count(entry: PlanEntry) -> u64
    requires { EntryIsSmall entry }
    ensures value { result ≡ total (entry ∷ []) }
    ensures few { result ≤ max_count }
{
    match entry {
        PlanEntry::Draw { count, .. } => count,
        _ => 0,
    }
}

/// The bytes of an entry, of a packed table of `2 ^ vars` words.
fn entry_length(vars: u32, entry: PlanEntry) -> u64
    requires low { vars ≤ max_size_log }
    requires small { EntryIsSmall entry }
    ensures value { result ≡ entry_length vars entry }
    ensures few { result ≤ 2 ^ 21 }
{
    match entry {
        PlanEntry::Root => 32,
        PlanEntry::Message { length, .. } => 16 * u64::from(length),
        PlanEntry::Draw { .. } => 0,
        PlanEntry::Constant => 16,
        PlanEntry::Queries => QUERIES * query_length(vars),
    }
}

/// The bytes of one query: for each round a leaf of 32 and a digest of 32 for each height.
fn query_length(vars: u32) -> u64
    requires { vars ≤ max_size_log }
    ensures value { result ≡ query_length vars }
    ensures few { result ≤ 2 ^ 15 }
{
    let mut bytes = 0;
    for round in 0..vars {
        bytes += 32 + 32 * u64::from(round + 2);
    }
    bytes
}
