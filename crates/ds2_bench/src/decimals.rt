//! Each call of `Dec` beside the same work on whole numbers of 128 bits.
//!
//! Where it is not timed, each operation is done once for each pair of operands, and the number that the answers fold into is printed.
//! Where it is, each is done 50,000 times, and nanoseconds an operation are printed.
ghost use Rattle.std.specs.Prelude.{◌<◌};

use ds2_decimal::Dec;
use std::cmp::Ordering;
use std::io;
use std::time::Instant;

/// How often each operation is done for each pair where it is timed.
const TIMED_TURNS: u32 = 50_000;

/// An operation on two operands, its answer folded into a number so that it can't be left out.
trait Operation {
    fn apply(&self, left: Dec, right: Dec) -> i128;
}

fn folded(answer: Option<Dec>) -> i128 {
    match answer {
        Some(answer) => answer.units(),
        None => 1,
    }
}

#[derive(Drop)]
struct Add;

impl Operation for Add {
    fn apply(&self, left: Dec, right: Dec) -> i128 {
        folded(left.add(right).ok())
    }
}

#[derive(Drop)]
struct Sub;

impl Operation for Sub {
    fn apply(&self, left: Dec, right: Dec) -> i128 {
        folded(left.sub(right).ok())
    }
}

#[derive(Drop)]
struct Mul;

impl Operation for Mul {
    fn apply(&self, left: Dec, right: Dec) -> i128 {
        if left.scale() as u16 + right.scale() as u16 <= 38 {
            folded(left.mul(right).ok())
        } else {
            2
        }
    }
}

#[derive(Drop)]
struct Div;

impl Operation for Div {
    fn apply(&self, left: Dec, right: Dec) -> i128 {
        folded(left.div(right).ok())
    }
}

#[derive(Drop)]
struct Modulo;

impl Operation for Modulo {
    fn apply(&self, left: Dec, right: Dec) -> i128 {
        folded(left.modulo(right).ok())
    }
}

#[derive(Drop)]
struct Compare;

impl Operation for Compare {
    fn apply(&self, left: Dec, right: Dec) -> i128 {
        match left.compare(right) {
            Ordering::Less => 1,
            Ordering::Equal => 2,
            Ordering::Greater => 3,
        }
    }
}

#[derive(Drop)]
struct Rescale;

impl Operation for Rescale {
    fn apply(&self, left: Dec, _right: Dec) -> i128 {
        folded(left.rescale(38, 1).ok())
    }
}

#[derive(Drop)]
struct Floor;

impl Operation for Floor {
    fn apply(&self, left: Dec, _right: Dec) -> i128 {
        left.floor().units()
    }
}

#[derive(Drop)]
struct Ceil;

impl Operation for Ceil {
    fn apply(&self, left: Dec, _right: Dec) -> i128 {
        left.ceil().units()
    }
}

#[derive(Drop)]
struct WholeAdd;

impl Operation for WholeAdd {
    fn apply(&self, left: Dec, right: Dec) -> i128 {
        left.units().wrapping_add(right.units())
    }
}

#[derive(Drop)]
struct WholeMul;

impl Operation for WholeMul {
    fn apply(&self, left: Dec, right: Dec) -> i128 {
        left.units().wrapping_mul(right.units())
    }
}

#[derive(Drop)]
struct WholeDiv;

impl Operation for WholeDiv {
    fn apply(&self, left: Dec, right: Dec) -> i128 {
        let by = right.units();
        if by == 0 || by == -1 {
            1
        } else {
            left.units() / by
        }
    }
}

#[derive(Drop)]
struct WholeRem;

impl Operation for WholeRem {
    fn apply(&self, left: Dec, right: Dec) -> i128 {
        let by = right.units();
        if by == 0 || by == -1 {
            1
        } else {
            left.units() % by
        }
    }
}

#[derive(Drop)]
struct WholeCompare;

impl Operation for WholeCompare {
    fn apply(&self, left: Dec, right: Dec) -> i128 {
        if left.units() < right.units() { 1 } else { 2 }
    }
}

/// A number of this many digits at this scale, another for each seed.
fn operand(seed: u64, bound: u128, scale: u8) -> Option<Dec>
    requires { 0 < bound }
{
    let first = seed
        .wrapping_mul(6364136223846793005)
        .wrapping_add(1442695040888963407);
    let second = first
        .wrapping_mul(6364136223846793005)
        .wrapping_add(1442695040888963407);
    let wide = (first as u128)
        .wrapping_mul(18446744073709551557)
        .wrapping_add(second as u128);
    let units = i128::try_from(wide % bound).ok()?;
    Dec::new(
        if first % 2 == 0 {
            units
        } else {
            units.wrapping_neg()
        },
        scale,
    )
}

/// The answers of an operation over pairs of operands, so many times, folded into a number.
fn fold_all<O: Operation>(operation: &O, pairs: &[(Dec, Dec)], turns: u32) -> i128 {
    let mut sink: i128 = 0;
    for _ in 0..turns {
        for pair in pairs {
            sink = sink.wrapping_mul(3) ^ operation.apply(pair.0, pair.1);
        }
    }
    sink
}

/// An operation over pairs of operands, as a line: its time, or the number of its answers.
fn show<O: Operation + Drop>(
    rt: &HostRuntime,
    timed: bool,
    name: &str,
    operation: O,
    pairs: &[(Dec, Dec)],
) -> io::Result<()> {
    if !timed {
        let sink = fold_all(&operation, pairs, 1);
        return println!(rt; "{name}: {sink}");
    }
    let start = Instant::now(rt)?;
    let sink = fold_all(&operation, pairs, TIMED_TURNS);
    let spent = start.elapsed(rt)?.as_nanos();
    let turns = (pairs.len() as u128).wrapping_mul(u128::from(TIMED_TURNS));
    let tenths = spent.wrapping_mul(10) / turns.max(1);
    println!(rt; "{name}: {}.{} ns ({sink})", tenths / 10, tenths % 10)
}

/// Every operation over operands of these digits and scales.
fn compare_all(
    rt: &HostRuntime,
    timed: bool,
    title: &str,
    bound: u128,
    first_scale: u8,
    second_scale: u8,
) -> io::Result<()>
    requires { 0 < bound }
{
    let mut pairs: Vec<(Dec, Dec)> = Vec::new(rt.alloc());
    for seed in 0..64 {
        if let (Some(left), Some(right)) = (
            operand(seed, bound, first_scale),
            operand(seed.wrapping_add(1000), bound, second_scale),
        ) {
            pairs.push((left, right))?;
        }
    }
    println!(rt; "{title}")?;
    show(rt, timed, "add", Add, &pairs)?;
    show(rt, timed, "sub", Sub, &pairs)?;
    show(rt, timed, "i128 add", WholeAdd, &pairs)?;
    show(rt, timed, "compare", Compare, &pairs)?;
    show(rt, timed, "i128 compare", WholeCompare, &pairs)?;
    show(rt, timed, "mul", Mul, &pairs)?;
    show(rt, timed, "i128 mul", WholeMul, &pairs)?;
    show(rt, timed, "div", Div, &pairs)?;
    show(rt, timed, "i128 div", WholeDiv, &pairs)?;
    show(rt, timed, "modulo", Modulo, &pairs)?;
    show(rt, timed, "i128 rem", WholeRem, &pairs)?;
    show(rt, timed, "rescale", Rescale, &pairs)?;
    show(rt, timed, "floor", Floor, &pairs)?;
    show(rt, timed, "ceil", Ceil, &pairs)?;
    Ok(())
}

/// Prints a line for each operation over operands of four widths.
pub(crate) fn run(rt: &HostRuntime, timed: bool) -> io::Result<()> {
    compare_all(rt, timed, "6 digits, scale 2", 1_000_000, 2, 2)?;
    compare_all(
        rt,
        timed,
        "15 digits, scales 2 and 4",
        1_000_000_000_000_000,
        2,
        4,
    )?;
    compare_all(
        rt,
        timed,
        "18 digits, scales 6 and 0",
        1_000_000_000_000_000_000,
        6,
        0,
    )?;
    compare_all(
        rt,
        timed,
        "37 digits, scale 19",
        10_000_000_000_000_000_000_000_000_000_000_000_000,
        19,
        19,
    )?;
    Ok(())
}
