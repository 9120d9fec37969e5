//! A basis, by the values of its hats at the powers of 2.

ghost use Rattle.std.specs.Prelude.{◌≡◌, ◌<◌, ◌≤◌, ◌*◌, ◌^◌, ℕ, IfOk};
ghost use Rattle.additive_transform.specs.Basis.{IsTable};
ghost use Rattle.word_laws.specs.CodeWord.{hat};

use crate::no_memory::NoMemory;
use crate::tops::{hat_by, tops};
use std::alloc::Global;
use std::marker::Model;
use tower_field::{B128, Tower};

/// The points of 2^n positions, n at most 24. A contract sees n.
///
/// `points` has the value of hat i at 2^j at i * n + j, so that a point is the sum over the bits of
/// its position.
#[derive(Drop)]
pub struct Basis {
    points: Vec<B128>,
    log_len: u32,
}

impl Model for Basis {
    ghost Value = { ℕ };

    ghost view = { λ basis. basis.log_len };

    ghost invariant = { λ basis. IsTable basis.points.items basis.log_len };
}

impl Basis {
    /// The basis for words of up to 2^`log_len` values.
    pub fn new(alloc: Global, log_len: u32) -> Result<Basis, NoMemory>
        requires { log_len ≤ 24 }
        ensures { IfOk result (λ basis. basis ≡ log_len) }
    {
        let tops = tops(alloc, log_len)?;
        let mut points: Vec<B128> = Vec::new(alloc);
        for k in 0..log_len * log_len {
            let point = hat_by(tops.as_slice(), k / log_len, 1 << (k % log_len));
            points.push(point)?;
        }
        Ok(Basis { points, log_len })
    }

    /// The logarithm of the length of the longest words. It takes no memory.
    pub fn log_len(&self) -> u32
        ensures len { result ≡ self.now }
        ensures low { result ≤ 24 }
    {
        self.log_len
    }

    /// The value of a hat at a position. It takes no memory.
    pub(crate) fn hat(&self, round: u32, position: u64) -> B128
        requires round { round < self.now }
        requires position { position < 2 ^ self.now }
        ensures { result ≡ hat round position }
    {
        let len = self.log_len;
        let mut sum = B128::ZERO;
        for j in 0..len {
            if (position >> j) % 2 == 1 {
                sum = sum + self.points[(round * len + j) as usize];
            }
        }
        sum
    }

    /// The point of a position of the word after as many folds as `round` says. It takes no memory.
    pub fn point(&self, round: u32, index: u64) -> B128
        requires round { round < self.now }
        requires index { index * 2 ^ round < 2 ^ self.now }
        ensures { result ≡ hat round (index * 2 ^ round) }
    {
        let _ = &self.points;
        self.hat(round, index << round)
    }
}
