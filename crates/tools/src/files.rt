//! Machine files and configs, read over and over.

use config_json::Config;
use demand::{Demand, Kind};
use machine::Machine;
use std::alloc::Global;

const TWO_NODES: &str = r#"{"nodes":["0-3","4-7"],"distances":[[10,21],[21,10]],"reserved":"0"}"#;

/// A machine file, read.
pub fn machine(alloc: Global, text: &[u8], count: u32) -> Option<u64> {
    let mut sum: u64 = 0;
    for _ in 0..count {
        let machine = Machine::read(alloc, text, None).ok()?;
        sum = sum.wrapping_add(u64::from(machine.present().count()));
    }
    Some(sum)
}

/// A config, read, and its demand on a machine of two nodes.
pub fn config(alloc: Global, text: &[u8], count: u32) -> Option<u64> {
    let machine = Machine::read(alloc, TWO_NODES.as_bytes(), None).ok()?;
    let mut sum: u64 = 0;
    for _ in 0..count {
        let config = Config::read(alloc, text).ok()?;
        let cpus = match Demand::of(&config.cpu, &machine).ok()?.kind {
            Kind::Pinned(cpus) => cpus,
            Kind::Shared => 0,
        };
        sum = sum.wrapping_add(u64::from(cpus));
    }
    Some(sum)
}
