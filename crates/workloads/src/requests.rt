//! Bundles: what containers ask for.

use crate::chance::Chance;
use crate::machines::CPUS;
use anyhow::Result;
use cpu_set::{CPU_LIMIT, IdSet};
use std::alloc::{AllocError, Global};

/// The name of a bundle, and its config.
#[derive(Drop)]
pub struct Request {
    pub name: String,
    pub config: String,
}

/// A request for so many CPUs, near the memory of a node, of those in the list if there is one.
fn request_of(
    alloc: Global,
    n: u32,
    demand: u32,
    node: u32,
    allowed: Option<&IdSet>,
) -> Result<Request, AllocError> {
    let name = format!(in alloc; "b{n}")?;
    let quota = u64::from(demand) * 100_000;
    let cpus = match allowed {
        Some(set) => {
            let list = cpu_list::print(alloc, set)?;
            format!(in alloc; ",\"cpus\":\"{list}\"")?
        }
        None => String::new(alloc),
    };
    let config = format!(in alloc;
        "{{\"ociVersion\":\"1.0.2\",\"root\":{{\"path\":\"r\"}},\"process\":{{\"args\":[\"x\"]}},\"linux\":{{\"resources\":{{\"cpu\":{{\"quota\":{quota},\"period\":100000,\"mems\":\"{node}\"{cpus}}}}}}}}}"
    )?;
    Ok(Request { name, config })
}

/// So many requests for 1 to 6 CPUs each, near the memory of any of the nodes.
pub fn plain(alloc: Global, chance: &mut Chance, count: u32, nodes: u32) -> Result<Vec<Request>> {
    let mut requests = Vec::new(alloc);
    for n in 0..count {
        let demand = chance.below(6).saturating_add(1);
        requests.push(request_of(alloc, n, demand, chance.below(nodes), None)?)?;
    }
    Ok(requests)
}

fn insert(set: &mut IdSet, cpu: u32) {
    if cpu < u32::from(CPU_LIMIT) {
        set.insert(cpu as u16);
    }
}

/// Adds both hyperthreads of a core.
fn insert_core(set: &mut IdSet, core: u32) {
    insert(set, core);
    insert(set, core.saturating_add(CPUS / 2));
}

/// The cores but the first two, in pairs of neighbours, of which a quarter are torn apart.
fn cores(alloc: Global, chance: &mut Chance) -> Result<Vec<u32>, AllocError> {
    let pairs = chance.shuffled(alloc, CPUS / 4 - 1)?;
    let mut cores: Vec<u32> = Vec::new(alloc);
    for pair in pairs.as_slice() {
        let first = pair.saturating_mul(2).saturating_add(2);
        cores.push(first)?;
        cores.push(first.saturating_add(1))?;
    }
    let len = cores.len();
    for at in 0..len {
        let other = chance.below(CPUS / 2) as usize;
        if chance.below(4) == 0 && at < len && other < len {
            cores.as_mut_slice().swap(at, other);
        }
    }
    Ok(cores)
}

/// Requests for the four CPUs of two cores each, which nobody else names: neighbours mostly.
pub fn own_cores(alloc: Global, chance: &mut Chance, count: u32) -> Result<Vec<Request>> {
    let cores = cores(alloc, chance)?;
    let mut requests = Vec::new(alloc);
    for (n, pair) in cores
        .as_slice()
        .chunks_exact(2)
        .take(count as usize)
        .enumerate()
    {
        let [first, second] = pair else { continue };
        let mut set = IdSet::empty();
        insert_core(&mut set, *first);
        insert_core(&mut set, *second);
        requests.push(request_of(alloc, n as u32, set.count(), first / 256, Some(&set))?)?;
    }
    Ok(requests)
}

/// Requests for as many CPUs each as there are for all, of half of the CPUs and those that a plan gives them.
pub fn with_halves(
    alloc: Global,
    chance: &mut Chance,
    count: u32,
    cpus: u32,
) -> Result<Vec<Request>> {
    let mut places = Places::new(alloc, chance, cpus)?;
    let demand = cpus.saturating_sub(1).checked_div(count).unwrap_or(1);
    let mut requests = Vec::new(alloc);
    for n in 0..count {
        let mut set = half(chance, cpus);
        places.give(&mut set, demand);
        requests.push(request_of(alloc, n, demand, chance.below(8), Some(&set))?)?;
    }
    Ok(requests)
}

/// Requests for one CPU each but the last, which asks for all that are left; memory ever farther from the CPUs; and
/// each is allowed 95 of 100 CPUs and those that a plan gives it.
pub fn displacing(
    alloc: Global,
    chance: &mut Chance,
    count: u32,
    cpus: u32,
) -> Result<Vec<Request>> {
    let mut places = Places::new(alloc, chance, cpus)?;
    let mut requests = Vec::new(alloc);
    for n in 0..count {
        let demand = if n.saturating_add(1) == count {
            cpus.saturating_sub(count)
        } else {
            1
        };
        let mut set = most(chance, cpus);
        places.give(&mut set, demand);
        let node = n.saturating_mul(64).checked_div(count).unwrap_or(0);
        requests.push(request_of(alloc, n, demand, node.saturating_add(64), Some(&set))?)?;
    }
    Ok(requests)
}

/// The CPUs but CPU 0 in some order, given out one after another, so that all requests have a plan.
#[derive(Drop)]
struct Places {
    order: Vec<u32>,
    given: usize,
}

impl Places {
    fn new(alloc: Global, chance: &mut Chance, cpus: u32) -> Result<Places, AllocError> {
        Ok(Places {
            order: chance.shuffled(alloc, cpus.saturating_sub(1))?,
            given: 0,
        })
    }

    fn give(&mut self, set: &mut IdSet, count: u32) {
        for place in self
            .order
            .as_slice()
            .iter()
            .skip(self.given)
            .take(count as usize)
        {
            insert(set, place.saturating_add(1));
        }
        self.given = self.given.saturating_add(count as usize);
    }
}

/// Half of the CPUs, by chance; not CPU 0.
fn half(chance: &mut Chance, cpus: u32) -> IdSet {
    let mut set = IdSet::empty();
    let mut bits = 0u32;
    for cpu in 1..cpus {
        if cpu % 32 == 1 {
            bits = chance.word();
        }
        if bits & 1 == 1 {
            insert(&mut set, cpu);
        }
        bits = bits >> 1;
    }
    set
}

/// 95 of 100 CPUs, by chance; not CPU 0.
fn most(chance: &mut Chance, cpus: u32) -> IdSet {
    let mut set = IdSet::empty();
    for cpu in 1..cpus {
        if chance.below(20) > 0 {
            insert(&mut set, cpu);
        }
    }
    set
}
