//! The reading of a proof's entries.

ghost use Rattle.std.specs.Prelude.{◌≡◌, ◌≤◌, [], None, IfErr, MatchResult, OnOk};
ghost use Rattle.proof_plan.specs.declared.plan_entry.PlanEntry.TheVariants as plan;
ghost use Rattle.proof_plan.specs.PlanFits.{max_message, EntryIsSmall};
ghost use Rattle.sumcheck.specs.Machine.{AwaitsDraw, AwaitsMessage};
ghost use Rattle.m3_verifier.specs.declared.halt.Halt.TheVariants as halt;
ghost use Rattle.m3_verifier.specs.Progress.{after_challenge, after_constant, after_root, after_said};
ghost use Rattle.m3_verifier.specs.Queries.{short};
ghost use Rattle.m3_verifier.specs.Reading.{after_entry, all_queries, entry_halt, halt_of, message_halt, IsDue};
ghost use Rattle.m3_verifier.specs.Stops.{HaltsFor};

use crate::halt::Halt;
use crate::queries::{Words, split_piece};
use additive_transform::Basis;
use poly_forms::DrawKind;
use proof_format::read_values;
use proof_plan::PlanEntry;
use std::alloc::Global;
use std::marker::Model;
use sumcheck::Steps;
use tower_field::{B128, Tower};
use transcript::Transcript;

/// Under which tag roots are absorbed.
const ROOT: u8 = 1;

/// That of messages.
const MESSAGE: u8 = 2;

/// That of the constant.
const CONSTANT: u8 = 3;

/// A proof whose head is read: the reductions as far as they have come, what is left of the bytes, and
/// what was read for the queries.
#[derive(Drop)]
pub struct Reader<'a, W: Steps + Drop> {
    walk: W,
    transcript: Transcript,
    left: &'a [u8],
    roots: Vec<[u8; 32]>,
    folds: Vec<B128>,
    constant: B128,
    rounds: u32,
    basis: Basis,
    values: Vec<B128>,
}

impl<'a, W: Steps + Drop> Model for Reader<'a, W> {
    ghost use Rattle.std.specs.Prelude.{◌≡◌, ◌+◌, ◌≤◌};
    ghost use Rattle.m3_verifier.specs.Progress.{Progress};

    ghost Value = { Progress W };

    ghost view = { λ r. record { state = r.walk; transcript = r.transcript; bytes = r.left.now; roots = r.roots.items; folds = r.folds.items; constant = r.constant; rounds = r.rounds } };

    ghost invariant = { λ r. record { basis : r.basis ≡ r.rounds + 2; low : r.rounds ≤ 22 } };
}

impl<'a, W: Steps + Drop> Reader<'a, W> {
    /// Before the first entry. The word is to be folded with so many draws.
    pub fn begin(
        alloc: Global,
        walk: W,
        transcript: Transcript,
        bytes: &'a [u8],
        rounds: u32,
    ) -> Result<Reader<'a, W>, Halt>
        requires { rounds ≤ 22 }
        ensures { MatchResult result (λ reader. reader ≡ record { state = walk; transcript = transcript; bytes = bytes.now; roots = []; folds = []; constant = 0; rounds = rounds }) (λ h. h ≡ halt.NoMemory) }
    {
        Ok(Reader {
            walk,
            transcript,
            left: bytes,
            roots: Vec::new(alloc),
            folds: Vec::new(alloc),
            constant: B128::ZERO,
            rounds,
            basis: Basis::new(alloc, rounds + 2)?,
            values: Vec::new(alloc),
        })
    }

    /// What is left of the bytes.
    pub fn left(&self) -> &'a [u8]
        ensures { result.now ≡ self.now.bytes }
    {
        self.left
    }

    fn root(&mut self) -> Result<(), Halt>
        ensures halt { MatchResult result (λ _. short 32 self.old.bytes ≡ None) (λ h. HaltsFor h (short 32 self.old.bytes)) }
        ensures next { OnOk result (self.new ≡ after_root self.old) }
    {
        let (piece, left) = split_piece(self.left, 32)?;
        let mut root = [0u8; 32];
        root.copy_from_slice(piece);
        self.roots.push(root)?;
        self.transcript.absorb(ROOT, piece);
        self.left = left;
        Ok(())
    }

    /// A message of so many values. Where its check passes it is absorbed under a tag.
    fn message(&mut self, tag: u8, length: u32) -> Result<(), Halt>
        requires few { length ≤ max_message }
        requires due { AwaitsMessage length (W.machine.entries self.old.state) }
        ensures halt { MatchResult result (λ _. message_halt W.machine length self.old ≡ None) (λ h. HaltsFor h (message_halt W.machine length self.old)) }
        ensures next { OnOk result (self.new ≡ after_said W.machine tag length self.old) }
    {
        let (piece, left) = split_piece(self.left, 16 * length as usize)?;
        read_values(piece, &mut self.values)?;
        if let Err(refused) = self.walk.message(self.values.as_slice()) {
            return Err(Halt::Refused(refused));
        }
        self.transcript.absorb(tag, piece);
        self.left = left;
        Ok(())
    }

    /// A challenge is drawn. Those of the ring switch's rounds fold the word.
    fn challenge(&mut self, kind: DrawKind) -> Result<(), Halt>
        requires due { AwaitsDraw (W.machine.entries self.old.state) }
        ensures next { OnOk result (self.new ≡ after_challenge W.machine kind self.old) }
        ensures memory { IfErr result (λ h. h ≡ halt.NoMemory) }
    {
        let challenge = self.transcript.draw();
        if kind == DrawKind::SwitchRound {
            self.folds.push(challenge)?;
        }
        self.walk.draw(challenge);
        Ok(())
    }

    /// The value of the packed table at the last point.
    fn constant(&mut self) -> Result<(), Halt>
        requires due { AwaitsMessage 1 (W.machine.entries self.old.state) }
        ensures halt { MatchResult result (λ _. message_halt W.machine 1 self.old ≡ None) (λ h. HaltsFor h (message_halt W.machine 1 self.old)) }
        ensures next { OnOk result (self.new ≡ after_constant W.machine self.old) }
    {
        let (piece, _) = split_piece(self.left, 16)?;
        let mut bytes = [0u8; 16];
        bytes.copy_from_slice(piece);
        self.message(CONSTANT, 1)?;
        self.constant = B128::from_bytes(bytes);
        Ok(())
    }

    /// All queries.
    fn queries(&mut self) -> Result<(), Halt>
        ensures halt { MatchResult result (λ _. halt_of (all_queries self.old) ≡ None) (λ h. HaltsFor h (halt_of (all_queries self.old))) }
        ensures next { OnOk result (self.new ≡ after_entry W.machine plan.Queries self.old) }
    {
        let words = Words {
            basis: &self.basis,
            rounds: self.rounds,
            roots: self.roots.as_slice(),
            folds: self.folds.as_slice(),
            constant: self.constant,
        };
        self.left = words.check_all(&mut self.transcript, self.left)?;
        Ok(())
    }

    /// Reads an entry of the plan and checks it.
    pub fn entry(&mut self, entry: PlanEntry) -> Result<(), Halt>
        requires small { EntryIsSmall entry }
        requires due { IsDue W.machine entry self.old.state }
        ensures halt { MatchResult result (λ _. entry_halt W.machine entry self.old ≡ None) (λ h. HaltsFor h (entry_halt W.machine entry self.old)) }
        ensures next { OnOk result (self.new ≡ after_entry W.machine entry self.old) }
    {
        match entry {
            PlanEntry::Root => self.root(),
            PlanEntry::Message { check: _, length } => self.message(MESSAGE, length),
            PlanEntry::Draw { kind, count: _ } => self.challenge(kind),
            PlanEntry::Constant => self.constant(),
            PlanEntry::Queries => self.queries(),
        }
    }
}
