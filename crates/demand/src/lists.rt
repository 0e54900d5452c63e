//! The lists of CPUs and of nodes that a config gives, read for this machine.
ghost use Rattle.std.specs.Prelude.{◌≡◌, ℕ, ◌≤◌, true, IfOk, if◌then◌else◌};
ghost use Rattle.std.specs.FinSet as set;
ghost use Rattle.cpu_set.specs.Ids.{is_empty};
ghost use Rattle.cpu_set.specs.declared.TheConstants.{CPU_LIMIT};
ghost use Rattle.machine.specs.Present.{present};
ghost use Rattle.machine.specs.Nodes.{nodes_of};
ghost use Rattle.machine.specs.IsSound.{IsSound};
ghost use Rattle.machine.specs.Weight.{AreHomes};
ghost use Rattle.demand.specs.Named.{named, text_of};
ghost use Rattle.demand.specs.DemandFaultOf.{list_fault, cpus_fault, mems_fault};
ghost use Rattle.std.specs.Result.{result_err};

use crate::fault::DemandFault;
use cpu_list::ListError;
use cpu_set::{CPU_LIMIT, IdSet};
use machine::{Machine, NODE_LIMIT};

/// The numbers that a list names, and none where there is no list.
#[tactic(auto, using(crate::proofs::NamedSets::read_named), unfolding(crate::specs::Named::named))]
fn read(list: Option<&str>, limit: u16) -> Result<IdSet, ListError>
    requires { limit ≤ CPU_LIMIT }
    ensures fault { list_fault limit (text_of list.entry) ≡ result_err result }
    ensures set { IfOk result (λ s. s ≡ named (text_of list.entry)) }
{
    match list {
        Some(text) => cpu_list::read(text.as_bytes(), limit),
        None => Ok(IdSet::empty()),
    }
}

/// The CPUs that a container's list names.
#[tactic(auto, using(crate::proofs::LeastOthers::least_others), unfolding(crate::specs::DemandFaultOf::cpus_fault))]
pub fn cpus(list: Option<&str>, machine: &Machine) -> Result<IdSet, DemandFault>
    ensures fault { cpus_fault machine.now (text_of list.entry) ≡ result_err result }
    ensures set { IfOk result (λ s. s ≡ named (text_of list.entry)) }
{
    let cpus = match read(list, CPU_LIMIT) {
        Ok(cpus) => cpus,
        Err(e) => return Err(DemandFault::BadCpus(e)),
    };
    match cpus.minus(&machine.present()).first() {
        Some(cpu) => Err(DemandFault::NoSuchCpu(cpu)),
        None => Ok(cpus),
    }
}

/// The nodes that a container's list names.
#[tactic(auto, using(crate::proofs::LeastOthers::least_others, crate::proofs::LeastOthers::all_known), unfolding(crate::specs::DemandFaultOf::mems_fault))]
pub fn nodes(list: Option<&str>, machine: &Machine) -> Result<IdSet, DemandFault>
    ensures fault { mems_fault machine.now (text_of list.entry) ≡ result_err result }
    ensures set { IfOk result (λ s. s ≡ named (text_of list.entry)) }
    ensures known { IfOk result (λ s. (n : ℕ) → set.contains s n ≡ true
        → set.contains (nodes_of machine.now) n ≡ true) }
{
    let mems = match read(list, NODE_LIMIT as u16) {
        Ok(mems) => mems,
        Err(e) => return Err(DemandFault::BadMems(e)),
    };
    match mems.minus(&machine.nodes()).first() {
        Some(node) => Err(DemandFault::NoSuchNode(node)),
        None => Ok(mems),
    }
}

/// The home nodes: those that are named, or all where none is.
#[tactic(auto, using(crate::proofs::HomeNodes::home_nodes))]
pub fn homes(named: &IdSet, machine: &Machine) -> IdSet
    requires { (n : ℕ) → set.contains named.now n ≡ true → set.contains (nodes_of machine.now) n ≡ true }
    ensures set { result ≡ (if is_empty named.now then nodes_of machine.now else named.now) }
    ensures homes { AreHomes machine.now result }
    ensures sound { IsSound machine.now }
{
    let nodes = machine.nodes();
    if named.is_empty() { nodes } else { *named }
}
