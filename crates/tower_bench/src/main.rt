//! Multiplies elements of 128 bits, eight in each round, as many rounds as the first word says, and
//! prints the sum of what comes out.

#![tactic(auto)]

use std::{env, io};
use tower_field::{B128, Tower};

/// The sum of eight elements, of which each round multiplies each by the next.
fn sum_after(rounds: u64) -> B128 {
    let mut values = [B128::ZERO; 8];
    for i in 0..values.len() {
        values[i] = B128::from_bytes([i as u8 + 1; 16]);
    }
    for _ in 0..rounds {
        for i in 0..values.len() {
            values[i] = values[i].mul(values[(i + 1) % 8]);
        }
    }
    let mut sum = B128::ZERO;
    for value in values {
        sum = sum + value;
    }
    sum
}

fn main(rt: HostRuntime) -> io::Result<()> {
    let mut words = env::args(&rt)?;
    let _program = words.next();
    let rounds = match words.next() {
        Some(word) => word.as_str().parse::<u64>().unwrap_or(1),
        None => 1,
    };
    let sum = sum_after(rounds).number();
    println!(rt; "{sum}")?;
    Ok(())
}
