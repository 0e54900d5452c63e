//! Lists as text.

use anyhow::{Result, bail};
use cpu_set::{CPU_LIMIT, IdSet};
use std::alloc::Global;

/// Prints what a list of numbers below the limit names, in its one spelling and as a set with its size, or its first
/// fault.
pub fn named<R: AllocGlobal + Print>(rt: &R, words: &[String], text: &[u8]) -> Result<()> {
    let [limit] = words else {
        bail!("tools list LIMIT")
    };
    let limit: u16 = limit.as_str().parse()?;
    match cpu_list::read(text, limit.min(CPU_LIMIT)) {
        Ok(set) => {
            let list = cpu_list::print(rt.alloc(), &set)?;
            println!(rt; "{list}")?;
            let size = std::mem::size_of::<IdSet>();
            println!(rt; "{set:?} in {size} bytes")?;
        }
        Err(e) => {
            let (kind, at) = (e.kind, e.at);
            println!(rt; "{kind:?} {at}")?;
        }
    }
    Ok(())
}

/// A set of half of the CPUs, of which no two are neighbours, printed and read again.
pub fn printed_and_read(alloc: Global, count: u32) -> Option<u64> {
    let mut set = IdSet::empty();
    for n in 0..CPU_LIMIT / 2 {
        set.insert(2 * n);
    }
    let mut sum: u64 = 0;
    for _ in 0..count {
        let text = cpu_list::print(alloc, &set).ok()?;
        let again = cpu_list::read(text.as_bytes(), CPU_LIMIT).ok()?;
        sum = sum.wrapping_add(u64::from(again.count()));
    }
    Some(sum)
}
