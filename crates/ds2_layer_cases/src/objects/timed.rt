//! How long object files take.

use ds2_base::Bytes;
use ds2_object::{ObjectCode, decode, encode};
use std::time::Instant;
use std::{io, mem};

/// How often a file is decoded, and its object encoded, where the time is taken.
const TIMED_TURNS: u32 = 5;

// The nanoseconds that decoding takes, without letting the object go.
fn decoding(rt: &HostRuntime, file: &Bytes) -> io::Result<u128> {
    let start = Instant::now(rt)?;
    let object = decode(rt.alloc(), file);
    let spent = start.elapsed(rt);
    mem::drop(object);
    Ok(spent?.as_nanos())
}

// The same of encoding.
fn encoding(rt: &HostRuntime, object: &ObjectCode) -> io::Result<u128> {
    let start = Instant::now(rt)?;
    let file = encode(rt.alloc(), object);
    let spent = start.elapsed(rt);
    mem::drop(file);
    Ok(spent?.as_nanos())
}

// The least nanoseconds of all turns.
fn least_decoding(rt: &HostRuntime, file: &Bytes) -> io::Result<u128> {
    let mut least = u128::MAX;
    for _ in 0..TIMED_TURNS {
        least = least.min(decoding(rt, file)?);
    }
    Ok(least)
}

// The same of encoding.
fn least_encoding(rt: &HostRuntime, object: &ObjectCode) -> io::Result<u128> {
    let mut least = u128::MAX;
    for _ in 0..TIMED_TURNS {
        least = least.min(encoding(rt, object)?);
    }
    Ok(least)
}

// Nanoseconds for each of so many bytes, in hundredths.
fn hundredths(spent: u128, bytes: usize) -> u128 {
    spent.wrapping_mul(100) / (bytes as u128).max(1)
}

/// The nanoseconds a byte that decoding a file, and encoding its object, takes; to decode is to read, to verify and to link.
pub fn timed(rt: &HostRuntime, file: &Bytes) -> io::Result<String> {
    let Ok(object) = decode(rt.alloc(), file) else {
        return Ok(String::from_str(rt.alloc(), "no object")?);
    };
    let bytes = file.len();
    let decoded = hundredths(least_decoding(rt, file)?, bytes);
    let encoded = hundredths(least_encoding(rt, &object)?, bytes);
    Ok(format!(in rt.alloc();
        "{bytes} bytes, {}.{:02} ns a byte to decode, {}.{:02} to encode",
        decoded / 100,
        decoded % 100,
        encoded / 100,
        encoded % 100
    )?)
}
