//! The prover of a sum claim.

ghost use Rattle.std.specs.Prelude.{◌≡◌, ℕ, suc, ◌+◌, ◌-◌, ◌^◌, ◌<◌, ◌≤◌, ◌++◌, [], length, map, vec_capacity, IfOk};
ghost use Rattle.cube_laws.specs.Extension.{fold_low};
ghost use Rattle.cube_laws.specs.SumClaim.{AllLong, row};
ghost use Rattle.sumcheck.specs.Rounds.{true_round};
ghost use Rattle.sumcheck.specs.Proving.{sum_of};

use crate::no_memory::NoMemory;
use crate::rows::{MANY, fill_firsts, fold_tables, prepare, sum_positions};
use crate::summand::Summand;
use crate::tables128::Tables128;
use packed_words::Multiples;
use std::alloc::Global;
use std::marker::Model;
use tower_field::{B128, Tower, Values};

/// 2 ^ n.
fn power(n: u32) -> usize
    requires { n ≤ 32 }
    ensures result { result ≡ 2 ^ n }
    ensures small { result < 2 ^ 33 }
    ensures positive { 0 < result }
{
    1usize << n
}

/// The m of 2 ^ m.
fn exponent(size: usize) -> u32
    requires { (m : ℕ) × (m ≤ 32) × (size ≡ 2 ^ m) }
    ensures exact { size ≡ 2 ^ result }
    ensures few { result ≤ 32 }
{
    let mut m = 0;
    while power(m) < size {
        m += 1;
    }
    m
}

fn zeros(alloc: Global, count: usize) -> Result<Vec<B128>, NoMemory>
    ensures { IfOk result (λ cells. length cells.items ≡ count) }
{
    let mut cells = Vec::with_capacity(alloc, count)?;
    for _ in 0..count {
        if cells.push(B128::ZERO).is_err() {
            return Err(NoMemory);
        }
    }
    Ok(cells)
}

/// The values of the tables, once all variables are set.
fn fill_when_set(left: u32, tables: &[Values], firsts: &mut Vec<B128>)
    requires long { AllLong (2 ^ left) tables.now }
    requires room { length tables.now ≤ vec_capacity firsts.old }
    ensures row { left ≡ 0 → firsts.new.items ≡ row tables.now 0 }
    ensures capacity { vec_capacity firsts.old ≤ vec_capacity firsts.new }
{
    if left == 0 {
        fill_firsts(tables, firsts);
    }
}

/// Memory for the multiples of challenges, where there are tables of that many values to fold.
fn room_for_multiples(alloc: Global, size: usize) -> Result<Option<Multiples>, NoMemory> {
    if size < 2 * MANY {
        return Ok(None);
    }
    match Multiples::new(alloc, B128::ZERO) {
        Ok(multiples) => Ok(Some(multiples)),
        Err(_) => Err(NoMemory),
    }
}

/// A sum over a cube of a form of the extensions of tables, which are folded in place. Its memory is
/// that of the tables and a value for each, and 64 KiB for the multiples of a challenge.
#[derive(Drop)]
pub struct SumProver<S: Summand + Drop> {
    alloc: Global,
    summand: S,
    degree: u32,
    left: u32,
    tables: Vec<Values>,
    firsts: Vec<B128>,
    multiples: Option<Multiples>,
}

impl<S: Summand + Drop> Model for SumProver<S> {
    ghost use Rattle.std.specs.Prelude.{◌≡◌, ◌^◌, ◌<◌, ◌≤◌, length, vec_capacity};
    ghost use Rattle.cube_laws.specs.SumClaim.{AllLong, row};
    ghost use Rattle.sumcheck.specs.Proving.{Proving};

    ghost Value = { Proving S };

    ghost view = { λ p. record { summand = p.summand; degree = p.degree; left = p.left; lists = p.tables.items } };

    ghost invariant = { λ p. record { few : p.left ≤ 32; low : p.degree < 11; long : AllLong (2 ^ p.left) p.tables.items; suits : S.suits p.summand (length p.tables.items); room : length p.tables.items ≤ vec_capacity p.firsts; firsts : p.left ≡ 0 → p.firsts.items ≡ row p.tables.items 0 } };
}

impl<S: Summand + Drop> SumProver<S> {
    /// The prover of the sum of a form of at most that degree, for each of whose variables there is
    /// a table.
    pub fn begin(
        alloc: Global,
        summand: S,
        degree: u32,
        tables: Tables128,
    ) -> Result<SumProver<S>, NoMemory>
        requires some { 0 < length tables }
        requires long { (m : ℕ) × (m ≤ 32) × AllLong (2 ^ m) tables }
        requires low { degree < 11 }
        requires suits { S.suits summand (length tables) }
        ensures { IfOk result (λ prover. (m : ℕ) → AllLong (2 ^ m) tables → prover ≡ record { summand = summand; degree = degree; left = m; lists = tables }) }
    {
        let tables = tables.into_vec();
        let first = &tables[0];
        let left = exponent(first.as_slice().len());
        let multiples = room_for_multiples(alloc, first.as_slice().len())?;
        let mut firsts = Vec::with_capacity(alloc, tables.len())?;
        fill_when_set(left, tables.as_slice(), &mut firsts);
        Ok(SumProver {
            alloc,
            summand,
            degree,
            left,
            tables,
            firsts,
            multiples,
        })
    }

    /// How many variables are not set.
    pub fn left(&self) -> u32
        ensures { result ≡ self.now.left }
    {
        self.left
    }

    /// Appends the true values of the round, at 0, 1, .., degree.
    pub fn round(&self, out: &mut Vec<B128>) -> Result<(), NoMemory>
        requires { 0 < self.now.left }
        ensures { IfOk result (λ _. (n : ℕ) → self.now.left ≡ suc n → out.new.items ≡ out.old.items ++ true_round (sum_of S.form self.now) self.now.degree n []) }
    {
        let half = power(self.left - 1);
        let mut row = Vec::with_capacity(self.alloc, self.tables.len())?;
        let mut sums = zeros(self.alloc, self.degree as usize + 1)?;
        sum_positions(
            &self.summand,
            self.tables.as_slice(),
            half,
            &mut sums,
            &mut row,
        );
        out.extend_from_slice(sums.as_slice())?;
        Ok(())
    }

    /// Sets the lowest variable.
    pub fn bind(&mut self, r: B128)
        requires { 0 < self.old.left }
        ensures { self.new ≡ record self.old { left = self.old.left - 1; lists = map (fold_low r) self.old.lists } }
    {
        let half = power(self.left - 1);
        prepare(&mut self.multiples, half, r);
        fold_tables(self.alloc, &mut self.tables, half, r, &self.multiples);
        self.left -= 1;
        fill_when_set(self.left, self.tables.as_slice(), &mut self.firsts);
    }

    /// Once all variables are set, the value of each table.
    pub fn finals(&self) -> &[B128]
        requires { self.now.left ≡ 0 }
        ensures { result.now ≡ row self.now.lists 0 }
    {
        self.firsts.as_slice()
    }
}
