//! Works on lists of elements of 128 bits and on words, as often as the words say, and prints a
//! sum of what comes out: `packed_bench WORK LENGTH ROUNDS`.

#![tactic(auto)]

ghost use Rattle.std.specs.Prelude.{◌<◌, ◌≤◌};

use packed_words::{Buckets, Lanes, Multiples, NoMemory, mul128, transpose128};
use std::alloc::Global;
use std::{env, io};
use tower_field::{B1, B8, B32, B128, Tower};

/// Element k of the lists.
fn element(k: u64) -> B128 {
    let low = k
        .wrapping_mul(6364136223846793005)
        .wrapping_add(1442695040888963407);
    let high = low
        .wrapping_mul(2862933555777941757)
        .wrapping_add(3037000493);
    B128::from_number((high as u128) << 64 | low as u128).unwrap_or(B128::ZERO)
}

fn list(alloc: Global, length: u64, from: u64) -> Result<Vec<B128>, NoMemory> {
    let mut values = Vec::new(alloc);
    for k in 0..length {
        values.push(element(k ^ from))?;
    }
    Ok(values)
}

fn sum(values: &[B128]) -> B128 {
    let mut sum = B128::ZERO;
    for value in values {
        sum = sum + *value;
    }
    sum
}

/// Products of pairs, one by one.
fn products(alloc: Global, length: u64, rounds: u64) -> Result<B128, NoMemory> {
    let mut values = list(alloc, length, 0)?;
    let factor = element(7);
    for _ in 0..rounds {
        for i in 0..values.len() {
            values[i] = mul128(values[i], factor);
        }
    }
    Ok(sum(values.as_slice()))
}

/// The same products by a table of the factor.
fn multiples(alloc: Global, length: u64, rounds: u64) -> Result<B128, NoMemory> {
    let mut values = list(alloc, length, 0)?;
    let factor = element(7);
    for _ in 0..rounds {
        let table = Multiples::new(alloc, factor)?;
        table.scale(values.as_mut_slice());
    }
    Ok(sum(values.as_slice()))
}

fn transposes(rounds: u64) -> B128 {
    let mut rows = [0u128; 128];
    for u in 0..128usize {
        rows[u] = element(u as u64).number();
    }
    for _ in 0..rounds {
        transpose128(&mut rows);
        rows[0] ^= rows[5];
    }
    let mut total = B128::ZERO;
    for u in 0..128usize {
        total = total + B128::from_number(rows[u]).unwrap_or(B128::ZERO);
    }
    total
}

fn columns(alloc: Global, length: u64, rounds: u64) -> Result<B128, NoMemory> {
    let weights = list(alloc, length, 0)?;
    let table = list(alloc, length, 1 << 20)?;
    let mut buckets = Buckets::new(alloc)?;
    let mut total = B128::ZERO;
    for _ in 0..rounds {
        let sums = buckets.columns(weights.as_slice(), table.as_slice());
        total = total + sum(&sums);
    }
    Ok(total)
}

fn inner_products(alloc: Global, length: u64, rounds: u64) -> Result<B128, NoMemory> {
    let xs = list(alloc, length, 0)?;
    let ys = list(alloc, length, 1 << 20)?;
    let mut buckets = Buckets::new(alloc)?;
    let mut total = B128::ZERO;
    for _ in 0..rounds {
        total = total + buckets.dot(xs.as_slice(), ys.as_slice());
    }
    Ok(total)
}

/// What is done to all elements of a list at once.
#[derive(Clone, Copy)]
enum Step {
    Sum,
    Product,
    Fold,
}

/// An element of a smaller level from the low bits of a number.
fn part<F: Tower>(number: u128) -> F {
    for mask in [u128::MAX, 0xffff_ffff, 0xff, 1] {
        if let Some(element) = F::from_number(number & mask) {
            return element;
        }
    }
    F::ONE
}

fn filled<F: Tower, const W: usize>(from: u64) -> Lanes<F, W>
    requires some_word { 0 < W }
    requires not_too_many { W ≤ 65536 }
{
    let mut lanes = Lanes::<F, W>::zero();
    for i in 0..lanes.count() {
        if i < lanes.count() {
            lanes.set(i, part(element(i as u64 ^ from).number()));
        }
    }
    lanes
}

/// Steps on elements in words.
fn by_words<F: Tower, const W: usize>(step: Step, rounds: u64) -> B128
    requires some_word { 0 < W }
    requires not_too_many { W ≤ 65536 }
{
    let others = filled::<F, W>(1 << 20);
    let mut lanes = filled::<F, W>(0);
    for _ in 0..rounds {
        lanes = match step {
            Step::Sum => lanes.add(others.copy()),
            Step::Product => lanes.mul(others.copy()),
            Step::Fold => {
                if lanes.count() % 2 == 0 {
                    lanes.fold(part(7))
                } else {
                    lanes
                }
            }
        };
    }
    let mut total = 0;
    for i in 0..lanes.count() {
        total ^= lanes.get(i).number();
    }
    B128::from_number(total).unwrap_or(B128::ZERO)
}

/// The same steps on elements that stand one by one in a list.
fn by_elements<F: Tower>(
    alloc: Global,
    words: u64,
    step: Step,
    rounds: u64,
) -> Result<B128, NoMemory> {
    let mut values: Vec<F> = Vec::new(alloc);
    let mut others: Vec<F> = Vec::new(alloc);
    for word in 0..words {
        for lane in 0..128u64 >> F::LEVEL {
            let i = word.wrapping_mul(128 >> F::LEVEL).wrapping_add(lane);
            values.push(part(element(i).number()))?;
            others.push(part(element(i ^ (1 << 20)).number()))?;
        }
    }
    let r: F = part(7);
    for _ in 0..rounds {
        match step {
            Step::Sum => {
                for i in 0..values.len() {
                    if i < others.len() {
                        values[i] = values[i].add(others[i]);
                    }
                }
            }
            Step::Product => {
                for i in 0..values.len() {
                    if i < others.len() {
                        values[i] = values[i].mul(others[i]);
                    }
                }
            }
            Step::Fold => {
                let half = values.len() / 2;
                for i in 0..half {
                    let low = values[2 * i];
                    values[i] = low.add(low.add(values[2 * i + 1]).mul(r));
                }
                for i in half..values.len() {
                    values[i] = F::ZERO;
                }
            }
        }
    }
    let mut total = 0;
    for value in &values {
        total ^= value.number();
    }
    Ok(B128::from_number(total).unwrap_or(B128::ZERO))
}

/// Steps at one level, on 4 or on 1,024 words.
fn at_level<F: Tower>(
    alloc: Global,
    way: &str,
    step: Step,
    words: u64,
    rounds: u64,
) -> Result<B128, NoMemory> {
    match (way, words) {
        ("elements", _) => by_elements::<F>(alloc, words, step, rounds),
        (_, 4) => Ok(by_words::<F, 4>(step, rounds)),
        _ => Ok(by_words::<F, 1024>(step, rounds)),
    }
}

fn lanes(alloc: Global, way: &str, name: &str, words: u64, rounds: u64) -> Result<B128, NoMemory> {
    let step = if name.ends_with("sums") {
        Step::Sum
    } else if name.ends_with("products") {
        Step::Product
    } else {
        Step::Fold
    };
    if name.starts_with("b128") {
        at_level::<B128>(alloc, way, step, words, rounds)
    } else if name.starts_with("b32") {
        at_level::<B32>(alloc, way, step, words, rounds)
    } else if name.starts_with("b8") {
        at_level::<B8>(alloc, way, step, words, rounds)
    } else {
        at_level::<B1>(alloc, way, step, words, rounds)
    }
}

fn work(alloc: Global, name: &str, length: u64, rounds: u64) -> Result<B128, NoMemory> {
    match name {
        "products" => products(alloc, length, rounds),
        "multiples" => multiples(alloc, length, rounds),
        "transposes" => Ok(transposes(rounds)),
        "columns" => columns(alloc, length, rounds),
        "inner_products" => inner_products(alloc, length, rounds),
        _ => {
            for way in ["words", "elements"] {
                if let Some(steps) = name.strip_prefix(way) {
                    return lanes(alloc, way, steps.trim_start_matches('-'), length, rounds);
                }
            }
            Ok(B128::ZERO)
        }
    }
}

fn main(rt: HostRuntime) -> io::Result<()> {
    let mut words = env::args(&rt)?;
    let _program = words.next();
    let name = words.next();
    let length = match words.next() {
        Some(word) => word.as_str().parse::<u64>().unwrap_or(1),
        None => 1,
    };
    let rounds = match words.next() {
        Some(word) => word.as_str().parse::<u64>().unwrap_or(1),
        None => 1,
    };
    if let Some(name) = name {
        if let Ok(sum) = work(rt.alloc(), name.as_str(), length, rounds) {
            let sum = sum.number();
            println!(rt; "{sum}")?;
        }
    }
    Ok(())
}
