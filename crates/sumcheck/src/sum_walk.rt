//! The rounds of a sum claim up to the first that is refused.

ghost use Rattle.std.specs.Prelude.{◌≡◌, ℕ, ◌<◌, ◌≤◌, [], length, false, IfErr, IfOk, MatchResult, None, OnOk, Some};
ghost use Rattle.counting_laws.specs.Counting.{AtMost};
ghost use Rattle.cube_laws.specs.SumClaim.{Sum};
ghost use Rattle.sumcheck.specs.Rounds.{sum_claim, bound, claimed, has_passed, round_degree, rounds_draw, rounds_message, with_claim, DrawIsDue, IsFresh, RoundIsDue, RoundsFit, RoundsHold};

use crate::no_memory::NoMemory;
use crate::refused::Refused;
use crate::rounds::SumRounds;
use std::alloc::Global;
use std::marker::Model;
use tower_field::B128;

/// A round whose values at 0 and 1 don't add up to the claim. `index` counts rounds from 0.
#[derive(Clone, Copy, PartialEq, Eq, Debug)]
pub struct RoundSum {
    pub index: u32,
    pub left: B128,
    pub right: B128,
}

/// The rounds of a sum claim, whatever is summed. It answers its first refusal from then on.
#[derive(Drop)]
pub struct SumWalk {
    rounds: SumRounds,
    stopped: Option<RoundSum>,
}

impl Model for SumWalk {
    ghost use Rattle.sumcheck.specs.SumWalk.{Walking};

    ghost Value = { Walking };

    ghost view = { λ w. record { rounds = w.rounds; stopped = w.stopped } };
}

impl SumWalk {
    ghost use Rattle.sumcheck.specs.SumWalk.{stop_at};

    /// The rounds of a sum over `vars` variables of a form of at most that degree. It takes all
    /// memory.
    pub fn begin(alloc: Global, vars: u32, degree: u32) -> Result<SumWalk, NoMemory>
        requires few { vars ≤ 32 }
        requires positive { 0 < degree }
        requires small { degree < 11 }
        ensures { IfOk result (λ walk. walk ≡ record { rounds = sum_claim degree vars [] 0; stopped = None }) }
    {
        let rounds = SumRounds::begin(alloc, vars, degree)?;
        Ok(SumWalk {
            rounds,
            stopped: None,
        })
    }

    /// States the sum, before the first round.
    pub fn enter(&mut self, claim: B128)
        requires { IsFresh self.old.rounds }
        ensures { self.new ≡ record self.old { rounds = with_claim claim self.old.rounds } }
    {
        self.rounds.enter(claim);
    }

    /// A round, of the values at 0, 1, .., degree.
    ///
    /// Whatever is summed, by a form of at most the walk's degree: where the claim was false and the
    /// round passes, its round claim is false.
    pub fn round(&mut self, values: &[B128]) -> Result<(), RoundSum>
        requires { RoundIsDue (length values.now) self.old.rounds }
        ensures answer { MatchResult result (λ _. stop_at self.old values.now ≡ None) (λ e. stop_at self.old values.now ≡ Some e) }
        ensures state { OnOk result (self.new ≡ record { rounds = rounds_message self.old.rounds values.now; stopped = None }) }
        ensures kept { IfErr result (λ e. self.new ≡ record self.old { stopped = Some e }) }
        ensures sound { OnOk result ((s : Sum) → RoundsFit s self.old.rounds → ¬ RoundsHold s self.old.rounds → ¬ RoundsHold s self.new.rounds) }
    {
        if let Some(refusal) = self.stopped {
            return Err(refusal);
        }
        let index = self.rounds.point().len() as u32;
        if let Err(Refused { left, right, .. }) = self.rounds.round(values) {
            self.stopped = Some(RoundSum { index, left, right });
            return Err(RoundSum { index, left, right });
        }
        Ok(())
    }

    /// The draw after a round.
    ///
    /// Whatever is summed, by a form of at most the walk's degree: where the round claim was false,
    /// at most as many draws as the degree make the sum claim true.
    pub fn bind(&mut self, r: B128)
        requires { DrawIsDue self.old.rounds }
        ensures state { self.new ≡ record self.old { rounds = rounds_draw self.old.rounds r } }
        ensures counted { (s : Sum) → RoundsFit s self.old.rounds → ¬ RoundsHold s self.old.rounds → AtMost (round_degree self.old.rounds) (λ draw. RoundsHold s (rounds_draw self.old.rounds draw)) }
    {
        self.rounds.bind(r);
    }

    /// The value that is claimed.
    pub fn claim(&self) -> B128
        requires { has_passed self.now.rounds ≡ false }
        ensures { result ≡ claimed self.now.rounds }
    {
        self.rounds.claim()
    }

    /// The draws so far.
    pub fn point(&self) -> &[B128]
        ensures { result.now ≡ bound self.now.rounds }
    {
        self.rounds.point()
    }
}
