//! The workloads of `bench/`: jobs that a user of numarun waits for, on made inputs. No part of the product.
//!
//! `workloads NAME SEED SIZE COUNT`: the seed says which input of its kind and size is made, SIZE how many containers
//! there are, and COUNT how often something happens to them. What is printed is a digest of all answers.
//!
//! - `typical`: a machine of 8 nodes and 1,024 CPUs; containers come and go, a CPU fails and returns, a plan after
//!   each.
//! - `large`: the same on 4,096 CPUs of 128 nodes in a ring.
//! - `own-cores`: each container names the cores that it wants, which nobody else names.
//! - `events`: CPUs go and come, processes fork and exit, plans are handed over write by write.
//! - `certificates`: half of the CPUs are allowed to each container; the plans' certificates are written and checked.
//! - `awkward`: a firmware table and CPU lists by which each container displaces many others.
#![tactic(auto)]

mod chance;
mod machines;
mod play;
mod requests;
mod scripts;
mod tape;

use anyhow::{Context, Result, bail};
use chance::Chance;
use std::alloc::Global;
use std::env;

const WORDS: &str = "workloads NAME SEED SIZE COUNT";

fn main(rt: HostRuntime) -> Result<()> {
    let words: Vec<String> = env::args(&rt)?.skip(1).collect(rt.alloc())?;
    let [name, seed, size, count] = words.as_slice() else {
        bail!(WORDS)
    };
    let mut chance = Chance::new(seed.as_str().parse()?);
    let size: u32 = size.as_str().parse()?;
    let count: u32 = count.as_str().parse()?;
    let digest = digest_of(rt.alloc(), name.as_str(), &mut chance, size, count)?;
    println!(rt; "{digest:016x}")?;
    Ok(())
}

/// The digest of all answers of a workload.
fn digest_of(alloc: Global, name: &str, chance: &mut Chance, size: u32, count: u32) -> Result<u64> {
    let digest = match name {
        "typical" => play::turnover(alloc, &machines::typical(alloc)?, chance, size, count),
        "large" => play::turnover(alloc, &machines::large(alloc)?, chance, size, count),
        "own-cores" => play::own_cores(alloc, chance, size, count),
        "events" => play::events(alloc, chance, size, count),
        "certificates" => play::certificates(alloc, chance, size, count),
        "awkward" => play::awkward(alloc, chance, size, count),
        _ => bail!(WORDS),
    }?;
    digest.context("an input that was refused")
}
