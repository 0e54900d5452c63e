//! What bundles ask for on a machine.

use anyhow::{Context, Result, bail};
use config_json::Config;
use demand::{Demand, Kind};
use machine::Machine;
use std::alloc::{AllocError, Global};
use std::fs;
use std::rt::Files;

/// Prints, for each config that is named after the machine file, what its container asks for there.
pub fn bundles<R: AllocGlobal + Files + Print>(rt: &R, paths: &[String]) -> Result<()> {
    let (path, configs) = paths.split_first().context("ask MACHINE CONFIG..")?;
    let text = fs::read(rt, path.as_str())?;
    let Ok(machine) = Machine::read(rt.alloc(), text.as_slice(), None) else {
        bail!("{path} is no machine");
    };
    for path in configs {
        let bytes = fs::read(rt, path.as_str())?;
        let answer = answer(rt.alloc(), &machine, bytes.as_slice())?;
        println!(rt; "{path}: {answer}")?;
    }
    Ok(())
}

/// What a config asks for on the machine, in words.
fn answer(alloc: Global, machine: &Machine, bytes: &[u8]) -> Result<String, AllocError> {
    let config = match Config::read(alloc, bytes) {
        Ok(config) => config,
        Err(e) => return format!(in alloc; "refused {e:?}"),
    };
    let demand = match Demand::of(&config.cpu, machine) {
        Ok(demand) => demand,
        Err(e) => return format!(in alloc; "refused {e:?}"),
    };
    let start = if config.runnable {
        "runnable"
    } else {
        "not runnable"
    };
    let homes = cpu_list::print(alloc, &demand.homes)?;
    match demand.kind {
        Kind::Shared => format!(in alloc; "{start}, shared, homes {homes}"),
        Kind::Pinned(count) => {
            let allowed = cpu_list::print(alloc, &demand.allowed)?;
            format!(in alloc; "{start}, pinned {count}, allowed {allowed}, homes {homes}")
        }
    }
}
