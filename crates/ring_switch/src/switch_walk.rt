//! The walk of a ring switch.

ghost use Rattle.std.specs.Prelude.{◌≡◌, ◌≤◌, length, IfOk};
ghost use Rattle.cube_laws.specs.Extension.{dot, weights};
ghost use Rattle.sumcheck.specs.Summing.{closed};
ghost use Rattle.ring_switch.specs.Switching.{columns_of, low_of, rows_of, summed, switching, valued, waiting, IsDone, IsWaiting, PackedValue as Claim};

use crate::no_memory::NoMemory;
use crate::packed_value::PackedValue;
use crate::switched::Switched;
use crate::tensor::Tensor;
use crate::weighing::under_weights;
use cube_mle::fold_low;
use poly_forms::{CheckKind, DrawKind};
use std::alloc::Global;
use std::marker::Model;
use sumcheck::{Entry, Pending, Refused, Steps, SumRounds, sum_due, sum_message, sum_pending};
use tower_field::{B128, Tower, Values};

#[derive(Clone, Copy)]
pub enum Stage {
    Waiting,
    Valued,
    Setting,
    Adding,
    Done,
}

/// The tensor whose columns are the values of a message.
fn tensor_of(values: &[B128]) -> Tensor
    requires { length values.now ≡ 128 }
    ensures { result ≡ rows_of values.now }
{
    let mut columns = [B128::ZERO; 128];
    columns.copy_from_slice(values);
    Tensor::from_columns(&columns)
}

/// The columns under the weights of the low coordinates of a point.
fn value_of(tensor: &Tensor, point: &[B128]) -> B128
    requires { 7 ≤ length point.now }
    ensures { result ≡ dot (columns_of tensor.now) (weights (low_of point.now)) }
{
    under_weights(&tensor.columns(), &point[..7])
}

/// The claim that the extension of the bits at a point is a value, turned into one on the extension
/// of the words. It takes all its memory in `begin`.
#[derive(Drop)]
pub struct SwitchWalk {
    stage: Stage,
    log_bits: u32,
    point: Vec<B128>,
    value: B128,
    switched: Switched,
    rows: Vec<B128>,
    left: u32,
    rounds: SumRounds,
    closed: PackedValue,
}

impl Model for SwitchWalk {
    ghost use Rattle.std.specs.Prelude.{◌≡◌, ◌≤◌, length, vec_capacity};
    ghost use Rattle.ring_switch.specs.Switching.{Switching};
    ghost use Rattle.ring_switch.specs.SwitchFields.{switching_of, IsBeforeRows, StageFits};

    ghost Value = { Switching };

    ghost view = { λ w. switching_of w.stage w.log_bits w.point.items w.value w.switched w.rows.items w.left w.rounds w.closed };

    ghost invariant = { λ w. record { large : 8 ≤ w.log_bits; few : w.log_bits ≤ 24; seven : length w.switched.combine ≡ 7; room : w.log_bits ≤ vec_capacity w.point; wide : IsBeforeRows w.stage → 128 ≤ vec_capacity w.rows; stage : StageFits w.stage w.log_bits w.point.items w.value w.switched w.rows.items w.left w.rounds w.closed } };
}

impl SwitchWalk {
    /// A walk for a table of `2 ^ log_bits` bits.
    pub fn begin(alloc: Global, log_bits: u32) -> Result<SwitchWalk, NoMemory>
        requires { (8 ≤ log_bits) × (log_bits ≤ 24) }
        ensures { IfOk result (λ walk. walk ≡ waiting log_bits) }
    {
        Ok(SwitchWalk {
            stage: Stage::Waiting,
            log_bits,
            point: Vec::with_capacity(alloc, log_bits as usize)?,
            value: B128::ZERO,
            switched: Switched::begin(alloc)?,
            rows: Vec::with_capacity(alloc, 128)?,
            left: 0,
            rounds: SumRounds::begin(alloc, log_bits - 7, 2)?,
            closed: PackedValue {
                point: Values::new(alloc),
                value: B128::ZERO,
            },
        })
    }

    /// States the value.
    pub fn enter(&mut self, point: &[B128], value: B128)
        requires { IsWaiting (length point.now) self.old }
        ensures { self.new ≡ valued point.now value }
    {
        if self.point.extend_from_slice(point).is_err() {
            unreachable!();
        }
        self.switched.place(&point[7..]);
        self.value = value;
        self.stage = Stage::Valued;
    }

    /// What is claimed at the end: a point, and the value of the words there.
    pub fn result(&self) -> (&[B128], B128)
        requires { IsDone self.now }
        ensures { (p : Claim) → self.now ≡ summed (closed p) → (result.0.now ≡ p.point) × (result.1 ≡ p.value) }
    {
        (self.closed.point.as_slice(), self.closed.value)
    }

    /// What is claimed at the end, the point in its memory.
    pub fn leave(self) -> (Vec<B128>, B128)
        requires { IsDone self }
        ensures { (p : Claim) → self ≡ summed (closed p) → (result.0.items ≡ p.point) × (result.1 ≡ p.value) }
    {
        let SwitchWalk {
            stage: _,
            log_bits: _,
            point: _,
            value: _,
            switched: _,
            rows: _,
            left: _,
            rounds: _,
            closed,
        } = self;
        let PackedValue { point, value } = closed;
        (point.into_vec(), value)
    }
}

impl Steps for SwitchWalk {
    ghost machine = { switching };

    fn is_lawful() {}

    fn due(&self) -> Option<Entry> {
        match self.stage {
            Stage::Waiting | Stage::Done => None,
            Stage::Valued => Some(Entry::Message {
                check: CheckKind::Tensor,
                length: 128,
            }),
            Stage::Setting => Some(Entry::Draw {
                kind: DrawKind::TensorCoordinate,
                count: 1,
            }),
            Stage::Adding => Some(sum_due(&self.switched, &self.rounds)),
        }
    }

    fn message(&mut self, values: &[B128]) -> Result<(), Refused> {
        if let Stage::Valued = self.stage {
            let tensor = tensor_of(values);
            let left = value_of(&tensor, self.point.as_slice());
            let right = self.value;
            if left != right {
                return Err(Refused {
                    check: CheckKind::Tensor,
                    left,
                    right,
                });
            }
            if self.rows.extend_from_slice(tensor.rows()).is_err() {
                unreachable!();
            }
            self.left = 6;
            self.stage = Stage::Setting;
            return Ok(());
        }
        let last = sum_message(&self.switched, &mut self.rounds, values)?;
        if last {
            self.closed = PackedValue {
                point: Values::from_vec(self.rounds.take_point()),
                value: values[0],
            };
            self.stage = Stage::Done;
        }
        Ok(())
    }

    fn draw(&mut self, c: B128) {
        match self.stage {
            Stage::Waiting | Stage::Valued | Stage::Done => unreachable!(),
            Stage::Setting => {
                self.switched.set(6 - self.left, c);
                fold_low(&mut self.rows, c);
                if self.left > 0 {
                    self.left -= 1;
                    return;
                }
                self.rounds.enter(self.rows[0]);
                self.stage = Stage::Adding;
            }
            Stage::Adding => self.rounds.bind(c),
        }
    }

    fn round_claim(&self) -> Option<B128> {
        match self.stage {
            Stage::Adding => self.rounds.round_claim(),
            _ => None,
        }
    }

    fn pending_count(&self) -> u32 {
        match self.stage {
            Stage::Waiting => 0,
            _ => 1,
        }
    }

    fn pending(&self, i: u32) -> Pending<'_> {
        let _ = i;
        match self.stage {
            Stage::Waiting => unreachable!(),
            Stage::Valued => Pending::Bit {
                point: self.point.as_slice(),
                value: self.value,
            },
            Stage::Setting => Pending::Rows {
                high: self.switched.high(),
                prefix: self.switched.prefix(6 - self.left),
                values: self.rows.as_slice(),
            },
            Stage::Adding => sum_pending(&self.switched, &self.rounds),
            Stage::Done => Pending::Packed {
                point: self.closed.point.as_slice(),
                value: self.closed.value,
            },
        }
    }
}
