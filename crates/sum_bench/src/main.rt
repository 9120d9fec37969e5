//! Sums over cubes, for timing. By the first word, over 2^N values: all rounds and folds of a prover
//! of the product of three tables (`prover`), the table of eq of a point (`eq`), or the extension of
//! a table at a point (`extension`). Prints a number.

#![tactic(auto)]

ghost use Rattle.std.specs.Prelude.{◌≡◌, ◌≤◌, ◌^◌, length, IfOk};
ghost use Rattle.poly_forms.specs.Form.{form_of, VariablesBelow};

use cube_mle::{NoMemory as NoTable, eq_table, mle_at};
use poly_forms::{Form, Forms};
use std::alloc::Global;
use std::{env, io};
use sumcheck::{NoMemory, SumProver, Tables128};
use tower_field::{B128, Tower, Values};

/// Element k of a list.
fn element(k: u64) -> B128 {
    let low = k
        .wrapping_mul(6364136223846793005)
        .wrapping_add(1442695040888963407);
    let high = low
        .wrapping_mul(2862933555777941757)
        .wrapping_add(3037000493);
    B128::join(low as u128, high as u128)
}

/// x0 · x1 · x2.
fn cubic(alloc: Global) -> Result<Form, NoMemory>
    ensures { IfOk result (λ form. VariablesBelow 3 (form_of form)) }
{
    let mut factors = Forms::new(alloc);
    factors.push(Form::Variable(0))?;
    factors.push(Form::Variable(1))?;
    factors.push(Form::Variable(2))?;
    Ok(Form::Product(factors))
}

/// A table of values that `seed` tells.
fn table(alloc: Global, log: u32, seed: u64) -> Result<Vec<B128>, NoMemory>
    requires { log ≤ 22 }
    ensures { IfOk result (λ values. length values.items ≡ 2 ^ log) }
{
    let mut values: Vec<B128> = Vec::new(alloc);
    'values: for p in 0..1u64 << log {
        if values.push(element(p ^ seed << 40)).is_err() {
            return Err(NoMemory);
        }
    }
    Ok(values)
}

/// The draws, one for each variable.
fn point(alloc: Global, log: u32) -> Result<Vec<B128>, NoMemory>
    requires { log ≤ 22 }
    ensures { IfOk result (λ values. length values.items ≡ log) }
{
    let mut values: Vec<B128> = Vec::new(alloc);
    'values: for k in 0..log {
        if values.push(element(77 + k as u64)).is_err() {
            return Err(NoMemory);
        }
    }
    Ok(values)
}

fn proved(alloc: Global, log: u32) -> Result<B128, NoMemory>
    requires { log ≤ 22 }
{
    let mut tables = Tables128::new(alloc);
    tables.push(Values::from_vec(table(alloc, log, 3)?))?;
    tables.push(Values::from_vec(table(alloc, log, 5)?))?;
    tables.push(Values::from_vec(table(alloc, log, 8)?))?;
    let mut prover = SumProver::begin(alloc, cubic(alloc)?, 3, tables)?;
    let mut rounds = Vec::new(alloc);
    while prover.left() > 0 {
        prover.round(&mut rounds)?;
        let draw = element(77 + prover.left() as u64);
        prover.bind(draw);
    }
    let mut sum = B128::ZERO;
    for value in rounds.iter() {
        sum = sum + *value;
    }
    Ok(sum)
}

fn eq(alloc: Global, log: u32) -> Result<B128, NoMemory>
    requires { log ≤ 22 }
{
    let point = point(alloc, log)?;
    let Ok(table) = eq_table(alloc, point.as_slice()) else {
        return Err(NoMemory);
    };
    let mut sum = B128::ZERO;
    for (position, value) in table.iter().enumerate() {
        if position % 3 == 0 {
            sum = sum + *value;
        }
    }
    Ok(sum)
}

fn extension(alloc: Global, log: u32) -> Result<B128, NoMemory>
    requires { log ≤ 22 }
{
    let values = table(alloc, log, 3)?;
    let point = point(alloc, log)?;
    match mle_at(alloc, values.as_slice(), point.as_slice()) {
        Ok(value) => Ok(value),
        Err(NoTable) => Err(NoMemory),
    }
}

fn main(rt: HostRuntime) -> io::Result<()> {
    let mut words = env::args(&rt)?;
    let _program = words.next();
    let Some(kind) = words.next() else {
        return Ok(());
    };
    let log = match words.next() {
        Some(word) => word.as_str().parse::<u32>().unwrap_or(1),
        None => 1,
    };
    if log > 22 {
        return Ok(());
    }
    let value = match kind.as_str() {
        "prover" => proved(rt.alloc(), log),
        "eq" => eq(rt.alloc(), log),
        _ => extension(rt.alloc(), log),
    };
    match value {
        Ok(value) => {
            let number = value.number();
            println!(rt; "{number}")
        }
        Err(NoMemory) => println!(rt; "no memory"),
    }
}
