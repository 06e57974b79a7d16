//! The room that operations take.

ghost use Rattle.std.specs.Prelude.{◌≡◌, sum_by};
ghost use Rattle.lx_host.specs.Room.{hosts_for, values_for};

use crate::op::Op;

/// The hosts that an operation adds.
fn hosts_for(op: &Op) -> usize
    ensures { result ≡ hosts_for op.now }
{
    match op {
        Op::Create { .. } => 1,
        _ => 0,
    }
}

/// The vectors that an operation may take out of the stock.
fn values_for(op: &Op) -> usize
    ensures { result ≡ values_for op.now }
{
    match op {
        Op::Attr { value: Some(_), .. } => 1,
        _ => 0,
    }
}

/// The hosts that operations add.
pub fn hosts_among(ops: &[Op]) -> usize
    ensures { result ≡ sum_by hosts_for ops.now }
{
    let mut hosts = 0;
    for op in ops {
        hosts += hosts_for(op);
    }
    hosts
}

/// The vectors that operations may take out of the stock.
pub fn values_among(ops: &[Op]) -> usize
    ensures { result ≡ sum_by values_for ops.now }
{
    let mut values = 0;
    for op in ops {
        values += values_for(op);
    }
    values
}
