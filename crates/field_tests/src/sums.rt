//! Values from outside, and each call at a small and at a large size.

ghost use Rattle.std.specs.Prelude.{◌≡◌, ◌≤◌, ◌^◌, ℕ, length, IfOk};
ghost use Rattle.poly_forms.specs.Form.{form_of, VariablesBelow};

use cube_mle::mle_at;
use poly_forms::{Form, Forms};
use std::alloc::Global;
use sumcheck::{ColumnTables, NoMemory, RoundSum, SumProver, SumWalk, Tables128};
use tower_field::{B128, Tower, Values};

fn element(n: u64) -> B128 {
    B128::join(n as u128, 0)
}

#[test]
fn a_false_round(rt: HostRuntime) -> Result<(), NoMemory> {
    let mut walk = SumWalk::begin(rt.alloc(), 1, 2)?;
    walk.enter(element(0));
    let values = [element(1), element(0), element(2)];
    let Err(first) = walk.round(&values) else {
        return Err(NoMemory);
    };
    let Err(second) = walk.round(&values) else {
        return Err(NoMemory);
    };
    let RoundSum { index, left, right } = first;
    assert_eq!(rt; (index, left.number(), right.number()), (0, 1, 0));
    let RoundSum { index, left, right } = second;
    assert_eq!(rt; (index, left.number(), right.number()), (0, 1, 0));
    Ok(())
}

#[test]
fn two_rounds(rt: HostRuntime) -> Result<(), NoMemory> {
    let mut walk = SumWalk::begin(rt.alloc(), 2, 3)?;
    walk.enter(element(0));
    assert!(rt; walk.round(&[5, 5, 15, 1].map(element)).is_ok());
    walk.bind(element(0x1234));
    assert_eq!(rt; walk.claim().number(), 0x422f);
    assert!(rt;
        walk.round(&[0xdcb3, 0x9e9c, 0x1ad5, 0xa801].map(element))
            .is_ok()
    );
    walk.bind(element(0xabcd));
    assert_eq!(rt; walk.claim().number(), 0x97e7);
    assert!(rt; walk.point() == [element(0x1234), element(0xabcd)].as_slice());
    Ok(())
}

/// x0 · x1 · x2 + x0.
fn cubic(alloc: Global) -> Result<Form, NoMemory>
    ensures { IfOk result (λ form. VariablesBelow 3 (form_of form)) }
{
    let mut factors = Forms::new(alloc);
    factors.push(Form::Variable(0))?;
    factors.push(Form::Variable(1))?;
    factors.push(Form::Variable(2))?;
    let mut terms = Forms::new(alloc);
    terms.push(Form::Product(factors))?;
    terms.push(Form::Variable(0))?;
    Ok(Form::Sum(terms))
}

/// A table of values that `seed` tells.
fn table(alloc: Global, size: u64, seed: u64) -> Result<Values, NoMemory>
    ensures { IfOk result (λ values. length values ≡ size) }
{
    let mut values = Vec::new(alloc);
    for p in 0..size {
        if values.push(B128::join(p as u128, seed as u128)).is_err() {
            return Err(NoMemory);
        }
    }
    Ok(Values::from_vec(values))
}

/// What a prover gives: its rounds, and its finals after them; and the draws.
#[derive(Drop)]
struct Proved {
    rounds: Vec<B128>,
    point: Vec<B128>,
    finals: Vec<B128>,
}

fn prove(alloc: Global, size: u64) -> Result<Proved, NoMemory>
    requires { (m : ℕ) × (m ≤ 32) × (size ≡ 2 ^ m) }
{
    let mut tables = Tables128::new(alloc);
    tables.push(table(alloc, size, 3)?)?;
    tables.push(table(alloc, size, 5)?)?;
    tables.push(table(alloc, size, 8)?)?;
    let mut prover = SumProver::begin(alloc, cubic(alloc)?, 3, tables)?;
    let mut rounds = Vec::new(alloc);
    let mut point = Vec::new(alloc);
    while prover.left() > 0 {
        prover.round(&mut rounds)?;
        let draw = element(77 + 1000 * prover.left() as u64);
        prover.bind(draw);
        if point.push(draw).is_err() {
            return Err(NoMemory);
        }
    }
    let finals = Vec::from_slice(alloc, prover.finals())?;
    Ok(Proved {
        rounds,
        point,
        finals,
    })
}

#[test]
fn true_rounds(rt: HostRuntime) -> Result<(), NoMemory> {
    let proved = prove(rt.alloc(), 4)?;
    let rounds: [u128; 8] = [
        0x6000000090000000000000005,
        0x6000000090000000000000004,
        0x6000000090000000000000005,
        0x6000000090000000000000004,
        0xd01df000060f80000000d00005b5a,
        0xd01d9000060f10000000d0000cfea,
        0xd01d4000060ff0000000d0000b7b2,
        0xd01d2000060f60000000d00002303,
    ];
    let finals: [u128; 3] = [
        0x30000000000000007,
        0x50000000000000007,
        0x80000000000000007,
    ];
    assert!(rt; proved.rounds.len() == 8 && proved.finals.len() == 3);
    for k in 0..8 {
        assert_eq!(rt; proved.rounds[k].number(), rounds[k]);
    }
    for k in 0..3 {
        assert_eq!(rt; proved.finals[k].number(), finals[k]);
    }
    Ok(())
}

#[test]
fn many_rounds(rt: HostRuntime) -> Result<(), NoMemory> {
    let alloc = rt.alloc();
    let proved = prove(alloc, 1024)?;
    assert!(rt; proved.point.len() == 10 && proved.finals.len() == 3);
    let last = table(alloc, 1024, 8)?;
    let Ok(want) = mle_at(alloc, last.as_slice(), proved.point.as_slice()) else {
        return Err(NoMemory);
    };
    assert!(rt; proved.finals[2] == want);
    Ok(())
}

#[test]
fn lists_of_columns(rt: HostRuntime) -> Result<(), NoMemory> {
    let alloc = rt.alloc();
    let mut tables = ColumnTables::new(alloc);
    assert!(rt; tables.get(4000000000, 7).is_none());
    tables.add(4000000000, 7, Vec::from_slice(alloc, &[1, 2].map(element))?)?;
    tables.add(7, 4000000000, Vec::new(alloc))?;
    match tables.get(4000000000, 7) {
        Some(values) => assert!(rt; values == [element(1), element(2)].as_slice()),
        None => return Err(NoMemory),
    }
    assert!(rt; tables.get(7, 7).is_none());
    Ok(())
}
