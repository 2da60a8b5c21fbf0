//! Carries the key code of a film frame from bytes to its seven numbers and
//! back to bytes, and prints each step. Takes the bytes from the file that its
//! argument names, or from an example that it carries.
#![tactic(auto)]

use anyhow::ensure;
use key_code_trip::{Trip, carry};
use std::rt::{Env, Files};
use std::{env, fs};

/// The numbers 1, 2, 3, 4, 5, 6 and 64.
const EXAMPLE: [u8; 28] = [
    1, 0, 0, 0, 2, 0, 0, 0, 3, 0, 0, 0, 4, 0, 0, 0, 5, 0, 0, 0, 6, 0, 0, 0, 64, 0, 0, 0,
];

/// Prints the steps; an error if the bytes were refused.
fn main(rt: HostRuntime) -> anyhow::Result<()> {
    let trip = trip(&rt)?;
    print!(rt; "{}", trip.text)?;
    ensure!(trip.carried, "no key code was carried");
    Ok(())
}

/// Prints where the bytes come from, and carries them.
fn trip(rt: &(impl Env + Files + Print + AllocGlobal)) -> anyhow::Result<Trip> {
    let Some(path) = env::args(rt)?.nth(1) else {
        println!(rt; "source: the example")?;
        return Ok(carry(rt.alloc(), &EXAMPLE)?);
    };
    println!(rt; "source: the file {path}")?;
    let bytes = fs::read(rt, path.as_str())?;
    Ok(carry(rt.alloc(), &bytes)?)
}
