//! Sums of the weights of a number's bits.

ghost use Rattle.std.specs.Prelude.{◌≡◌, length, IfOk};
ghost use Rattle.cube_laws.specs.Extension.{bit, dot};
ghost use Rattle.cube_laws.specs.Sums.{tabulate};
ghost use Rattle.ring_switch.specs.BitWeights.{byte_sums as sums_of};

use crate::no_memory::NoMemory;
use std::alloc::Global;
use std::marker::Model;
use tower_field::{B128, Tower};

/// A weight for each of 128 bits, and for each byte at each of 16 places the sum of the weights of
/// its bits. A contract sees the weights.
///
/// It takes 64 KiB, once.
#[derive(Drop)]
pub struct BitWeights {
    weights: Vec<B128>,
    sums: Vec<B128>,
}

impl Model for BitWeights {
    ghost use Rattle.std.specs.Prelude.{◌≡◌, List, ℕ, length};
    ghost use Rattle.ring_switch.specs.BitWeights.{byte_sums};

    ghost Value = { List ℕ };

    ghost view = { λ b. b.weights.items };

    ghost invariant = { λ b. record { long : length b.weights.items ≡ 128; made : b.sums.items ≡ byte_sums b.weights.items 4096 } };
}

/// The sum of the weights of a number's bits, one by one.
fn bits_under(number: u32, weights: &[B128]) -> B128
    ensures { result ≡ dot (tabulate (length weights.now) (bit number)) weights.now }
{
    let mut rest = number;
    let mut total = B128::ZERO;
    for weight in weights {
        if rest % 2 == 1 {
            total = total + *weight;
        }
        rest /= 2;
    }
    total
}

/// The sum for each byte at each place.
fn byte_sums(alloc: Global, weights: &[B128]) -> Result<Vec<B128>, NoMemory>
    requires { length weights.now ≡ 128 }
    ensures { IfOk result (λ sums. sums.items ≡ sums_of weights.now 4096) }
{
    let mut sums = Vec::with_capacity(alloc, 4096)?;
    for k in 0..4096u32 {
        let from = 8 * (k / 256) as usize;
        let sum = bits_under(k % 256, &weights[from..from + 8]);
        if sums.push(sum).is_err() {
            return Err(NoMemory);
        }
    }
    Ok(sums)
}

impl BitWeights {
    /// The weights of 128 bits, the lowest first.
    pub fn new(alloc: Global, weights: Vec<B128>) -> Result<BitWeights, NoMemory>
        requires { length weights.items ≡ 128 }
        ensures { IfOk result (λ b. b ≡ weights.items) }
    {
        let sums = byte_sums(alloc, weights.as_slice())?;
        Ok(BitWeights { weights, sums })
    }

    /// The sum of the weights of an element's bits.
    pub fn sum(&self, element: B128) -> B128
        ensures { result ≡ dot (tabulate 128 (bit element)) self.now }
    {
        let sums = self.sums.as_slice();
        let mut rest = element.number();
        let mut total = B128::ZERO;
        for place in 0..16usize {
            total = total + sums[256 * place + (rest % 256) as usize];
            rest /= 256;
        }
        total
    }
}
