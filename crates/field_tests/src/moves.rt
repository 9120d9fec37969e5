//! A walk against numbers from outside, and against its prover.

use cube_mle::mle_at;
use std::alloc::Global;
use sumcheck::{ColumnClaim, Next, NoMemory, Reduction, Steps, Stopping};
use tower_field::{B128, Tower, Values};
use walk_example::{MoveProver, MoveWalk, meet, move_again};

fn element(n: u64) -> B128 {
    B128::join(n as u128, 0)
}

fn values(alloc: Global, numbers: [u64; 4], count: usize) -> Result<Values, NoMemory> {
    let mut values = Vec::new(alloc);
    for k in 0..4 {
        if k < count && values.push(element(numbers[k])).is_err() {
            return Err(NoMemory);
        }
    }
    Ok(Values::from_vec(values))
}

fn claim(alloc: Global, value: u64) -> Result<ColumnClaim, NoMemory> {
    Ok(ColumnClaim {
        table: 3,
        column: 5,
        point: values(alloc, [0x77, 0x1001, 0, 0], 2)?,
        value: element(value),
    })
}

#[test]
fn a_true_claim_passes(rt: HostRuntime) -> Result<(), NoMemory> {
    let alloc = rt.alloc();
    let mut walk = Stopping::new(MoveWalk::begin(alloc, 2, claim(alloc, 0xeb26)?)?);
    assert!(rt; walk.message(&[0xeb51, 0x77, 0xe66f].map(element)).is_ok());
    walk.draw(element(0x1234));
    assert!(rt; walk.message(&[0x5891, 0x94ae, 0x1f91].map(element)).is_ok());
    walk.draw(element(0xabcd));
    assert!(rt; walk.message(&[element(0xe6ec)]).is_ok());
    assert!(rt; walk.next() == Next::Done);
    let second = move_again(alloc, 2, walk.into_walk())?;
    assert!(rt; second.round_claim() == Some(element(0xe6ec)));
    Ok(())
}

#[test]
fn a_false_claim_stops(rt: HostRuntime) -> Result<(), NoMemory> {
    let alloc = rt.alloc();
    let mut walk = Stopping::new(MoveWalk::begin(alloc, 2, claim(alloc, 1)?)?);
    let message = [0xeb51, 0x77, 0xe66f].map(element);
    let Err(first) = walk.message(&message) else {
        return Err(NoMemory);
    };
    let Err(second) = walk.message(&message) else {
        return Err(NoMemory);
    };
    assert_eq!(rt; (first.left.number(), first.right.number()), (0xeb26, 1));
    assert_eq!(rt; (second.left.number(), second.right.number()), (0xeb26, 1));
    assert!(rt; walk.round_claim().is_none());
    assert_eq!(rt; walk.pending_count(), 1);
    Ok(())
}

/// A claim on a column of four values, off by `error`, side by side with its prover.
fn moved(alloc: Global, error: u64) -> Result<(u32, bool), NoMemory> {
    let point = [element(0x77), element(0x1001)];
    let column = [0xd3, 1, 2, 4].map(element);
    let Ok(value) = mle_at(alloc, &column, &point) else {
        return Err(NoMemory);
    };
    let cells = Values::from_vec(Vec::from_slice(alloc, &column)?);
    let mut prover = MoveProver::begin(alloc, &point, cells)?;
    let claim = ColumnClaim {
        table: 3,
        column: 5,
        point: Values::from_vec(Vec::from_slice(alloc, &point)?),
        value: value + element(error),
    };
    let mut walk = MoveWalk::begin(alloc, 2, claim)?;
    let mut values = Vec::new(alloc);
    meet(&mut walk, &mut prover, 20, &mut values)
}

#[test]
fn walk_against_prover(rt: HostRuntime) -> Result<(), NoMemory> {
    assert_eq!(rt; moved(rt.alloc(), 0)?, (5, true));
    assert_eq!(rt; moved(rt.alloc(), 1)?, (0, false));
    Ok(())
}
