//! The rounds of a sum claim.

ghost use Rattle.std.specs.Prelude.{◌≡◌, ℕ, ◌<◌, ◌≤◌, [], length, false, IfErr, IfOk, MatchResult, None, Some};
ghost use Rattle.sumcheck.specs.Rounds.{sum_claim, bound, claimed, due_claim, has_passed, left_over, passed_values, round_degree, rounds_draw, rounds_message, rounds_refusal, with_claim, DrawIsDue, RoundIsDue};

use crate::no_memory::NoMemory;
use crate::refused::Refused;
use poly_forms::{CheckKind, at};
use std::alloc::Global;
use std::marker::Model;
use tower_field::{B128, Tower};

/// The rounds of a sum claim, whatever is summed. A refused round leaves them as they were.
#[derive(Drop)]
pub struct SumRounds {
    alloc: Global,
    degree: u32,
    left: u32,
    point: Vec<B128>,
    value: B128,
    passed: Vec<B128>,
}

impl Model for SumRounds {
    ghost use Rattle.std.specs.Prelude.{◌+◌, ◌<◌, ◌≤◌, length, vec_capacity};
    ghost use Rattle.sumcheck.specs.Rounds.{Rounds, rounds_of, variables};

    ghost Value = { Rounds };

    ghost view = { λ w. rounds_of w.degree w.left w.point.items w.value w.passed.items };

    ghost invariant = { λ w. record { positive : 0 < w.degree; small : w.degree < 11; few : variables (rounds_of w.degree w.left w.point.items w.value w.passed.items) ≤ 32; room : variables (rounds_of w.degree w.left w.point.items w.value w.passed.items) ≤ vec_capacity w.point; wide : w.degree + 1 ≤ vec_capacity w.passed; short : length w.passed.items ≤ 11 } };
}

impl SumRounds {
    /// The rounds of a sum over `vars` variables of a form of at most that degree.
    pub fn begin(alloc: Global, vars: u32, degree: u32) -> Result<SumRounds, NoMemory>
        requires few { vars ≤ 32 }
        requires positive { 0 < degree }
        requires small { degree < 11 }
        ensures { IfOk result (λ rounds. rounds ≡ sum_claim degree vars [] 0) }
    {
        let point = Vec::with_capacity(alloc, vars as usize)?;
        let passed = Vec::with_capacity(alloc, degree as usize + 1)?;
        Ok(SumRounds {
            alloc,
            degree,
            left: vars,
            point,
            value: B128::ZERO,
            passed,
        })
    }

    /// States the sum.
    pub fn enter(&mut self, value: B128)
        ensures { self.new ≡ with_claim value self.old }
    {
        self.value = value;
    }

    /// The value that is claimed.
    pub fn claim(&self) -> B128
        requires { has_passed self.now ≡ false }
        ensures { result ≡ claimed self.now }
    {
        self.value
    }

    /// How many variables are summed over.
    pub fn left(&self) -> u32
        ensures { result ≡ left_over self.now }
    {
        self.left
    }

    pub fn degree(&self) -> u32
        ensures degree { result ≡ round_degree self.now }
        ensures small { result < 11 }
    {
        self.degree
    }

    /// Whether a round has passed since the last draw.
    pub fn has_passed(&self) -> bool
        ensures { result ≡ has_passed self.now }
    {
        !self.passed.is_empty()
    }

    /// The values of the round that has passed since the last draw.
    pub fn passed(&self) -> &[B128]
        ensures { result.now ≡ passed_values self.now }
    {
        self.passed.as_slice()
    }

    /// The draws so far.
    pub fn point(&self) -> &[B128]
        ensures point { result.now ≡ bound self.now }
        ensures few { length result.now ≤ 32 }
    {
        self.point.as_slice()
    }

    /// The draws so far, in their memory. No rounds are left after it.
    pub fn take_point(&mut self) -> Vec<B128>
        ensures point { result.items ≡ bound self.old }
        ensures none { self.new ≡ sum_claim (round_degree self.old) 0 [] 0 }
    {
        self.left = 0;
        self.value = B128::ZERO;
        self.passed.clear();
        std::mem::replace(&mut self.point, Vec::new(self.alloc))
    }

    /// The claim of the round that is due.
    pub fn round_claim(&self) -> Option<B128>
        ensures { result ≡ due_claim self.now }
    {
        if self.left == 0 || !self.passed.is_empty() {
            return None;
        }
        Some(self.value)
    }

    /// A round. It is refused where its values at 0 and 1 don't add up to the claim.
    pub fn round(&mut self, values: &[B128]) -> Result<(), Refused>
        requires { RoundIsDue (length values.now) self.old }
        ensures answer { MatchResult result (λ _. rounds_refusal self.old values.now ≡ None) (λ e. rounds_refusal self.old values.now ≡ Some e) }
        ensures state { IfOk result (λ _. self.new ≡ rounds_message self.old values.now) }
        ensures kept { IfErr result (λ _. self.new ≡ self.old) }
    {
        let right = self.value;
        let left = values[0] + values[1];
        if left != right {
            return Err(Refused {
                check: CheckKind::RoundSum,
                left,
                right,
            });
        }
        if self.passed.extend_from_slice(values).is_err() {
            unreachable!();
        }
        self.left -= 1;
        Ok(())
    }

    /// The draw after a round.
    pub fn bind(&mut self, r: B128)
        requires { DrawIsDue self.old }
        ensures { self.new ≡ rounds_draw self.old r }
    {
        self.value = at(self.passed.as_slice(), r);
        self.passed.clear();
        if self.point.push(r).is_err() {
            unreachable!();
        }
    }
}
