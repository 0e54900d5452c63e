//! Machine files.

use crate::chance::Chance;
use std::alloc::{AllocError, Global};

/// How many CPUs the larger machines have.
pub const CPUS: u32 = 4_096;

/// A machine's file, and how many CPUs and nodes the machine has.
#[derive(Drop)]
pub struct MachineFile {
    pub text: String,
    pub cpus: u32,
    pub nodes: u32,
}

/// How far nodes lie from each other.
#[derive(Clone, Copy, Drop)]
enum Shape {
    /// 16 on a socket of four nodes, 32 beyond.
    Sockets,
    /// 10 more for each node on the way round, 254 at most.
    Ring,
    /// 21 to each other node.
    Flat,
    /// CPUs are on the first 64 nodes and memory on the others, at distances that grow with both numbers.
    Product(u32),
}

impl Shape {
    fn distance(self, a: u32, b: u32) -> u32 {
        if a == b {
            return 10;
        }
        match self {
            Shape::Sockets => { if a / 4 == b / 4 { 16 } else { 32 } }
            Shape::Ring => {
                let ahead = a.abs_diff(b);
                let way = ahead.min(128u32.saturating_sub(ahead));
                way.saturating_mul(10).saturating_add(10).min(254)
            }
            Shape::Flat => 21,
            Shape::Product(steepness) => product(a.min(b), a.max(b), steepness),
        }
    }
}

/// The distance of a node of CPUs from one of memory, and 254 between others.
fn product(low: u32, high: u32, steepness: u32) -> u32 {
    if low >= 64 || high < 64 {
        return 254;
    }
    let both = (low + 1).saturating_mul(high - 63);
    let far = both.saturating_mul(steepness) / 4_096;
    far.saturating_add(10).min(254)
}

/// 1,024 CPUs of 8 nodes on two sockets.
pub fn typical(alloc: Global) -> Result<MachineFile, AllocError> {
    let nodes = in_order(alloc, 8, 128)?;
    file(alloc, nodes.as_str(), 1_024, 8, Shape::Sockets)
}

/// 4,096 CPUs of 128 nodes in a ring.
pub fn large(alloc: Global) -> Result<MachineFile, AllocError> {
    let nodes = in_order(alloc, 128, 32)?;
    file(alloc, nodes.as_str(), CPUS, 128, Shape::Ring)
}

/// 4,096 CPUs of 8 nodes, of which CPU c and CPU 2,048 + c are the hyperthreads of core c.
pub fn of_siblings(alloc: Global) -> Result<MachineFile, AllocError> {
    let mut nodes = String::new(alloc);
    for node in 0..8u32 {
        let first = node * 256;
        let (last, second, third) = (first + 255, first + 2_048, first + 2_303);
        let item = format!(in alloc; "\"{first}-{last},{second}-{third}\"")?;
        append(&mut nodes, item.as_str())?;
    }
    file(alloc, nodes.as_str(), CPUS, 8, Shape::Flat)
}

/// Nodes of CPUs whose memory lies on 64 other nodes: the farther a container's memory is, the more it gains by a near
/// CPU.
pub fn awkward(alloc: Global, chance: &mut Chance, cpus: u32) -> Result<MachineFile, AllocError> {
    let mut nodes = in_order(alloc, 64, cpus / 64)?;
    for _ in 0..64 {
        append(&mut nodes, "\"\"")?;
    }
    let steepness = chance.below(24).saturating_add(220);
    file(alloc, nodes.as_str(), cpus, 128, Shape::Product(steepness))
}

/// So many nodes of as many CPUs each, one after another.
fn in_order(alloc: Global, nodes: u32, each: u32) -> Result<String, AllocError> {
    let mut text = String::new(alloc);
    for node in 0..nodes {
        let first = node.saturating_mul(each);
        let last = first.saturating_add(each).saturating_sub(1);
        let item = format!(in alloc; "\"{first}-{last}\"")?;
        append(&mut text, item.as_str())?;
    }
    Ok(text)
}

/// The machine file of these nodes, of which CPU 0 is reserved.
fn file(
    alloc: Global,
    list: &str,
    cpus: u32,
    nodes: u32,
    shape: Shape,
) -> Result<MachineFile, AllocError> {
    let mut rows = String::new(alloc);
    for a in 0..nodes {
        let mut row = String::new(alloc);
        for b in 0..nodes {
            let far = shape.distance(a, b);
            let item = format!(in alloc; "{far}")?;
            append(&mut row, item.as_str())?;
        }
        let row = format!(in alloc; "[{row}]")?;
        append(&mut rows, row.as_str())?;
    }
    let text = format!(in alloc;
        "{{\"nodes\":[{list}],\"distances\":[{rows}],\"reserved\":\"0\"}}"
    )?;
    Ok(MachineFile { text, cpus, nodes })
}

/// Adds an item to a list with commas.
pub fn append(list: &mut String, item: &str) -> Result<(), AllocError> {
    if !list.is_empty() {
        list.push_str(",")?;
    }
    list.push_str(item)
}
