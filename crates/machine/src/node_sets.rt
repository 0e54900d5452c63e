//! The CPUs of each node, as the member `nodes` has them.
ghost use Rattle.std.specs.Prelude.{◌≡◌, ◌≤◌, IfOk, OnOk, AllPairs, length, map};
ghost use Rattle.std.specs.Result.{result_err};
ghost use Rattle.serde_json.specs.View.{view};
ghost use Rattle.cpu_set.specs.Ids.{IsDisjoint};
ghost use Rattle.machine.specs.declared.field.Field.TheVariants.{Nodes};
ghost use Rattle.machine.specs.KindFaults.{AreLists};
ghost use Rattle.machine.specs.Present.{union_of};
ghost use Rattle.machine.specs.Listed.{cpus_named};
ghost use Rattle.machine.specs.NodesFault.{twice_fault, node_fault, first_node_fault, nodes_fault};

use crate::NODE_LIMIT;
use crate::fault::MachineFault;
use crate::field::Field;
use crate::lookup::{cpus_of, list};
use cpu_set::IdSet;
use serde_json::Value;
use std::alloc::{AllocError, Global};

/// The CPUs of all nodes, of which no two have one in common.
#[tactic(auto, using(crate::proofs::ItemLaws::item_counts), unfolding(crate::specs::NodesFault::nodes_fault))]
pub(crate) fn unite_nodes(items: &[Value]) -> Result<IdSet, MachineFault>
    ensures fault { nodes_fault (map view items.now) ≡ result_err result }
    ensures union { IfOk result (λ all. all ≡ union_of (map cpus_named (map view items.now))) }
    ensures some { OnOk result (1 ≤ length items.now) }
    ensures few { OnOk result (length items.now ≤ NODE_LIMIT) }
    ensures apart { OnOk result (AllPairs IsDisjoint (map cpus_named (map view items.now))) }
    ensures lists { OnOk result (AreLists Nodes (map view items.now)) }
{
    if items.is_empty() || items.len() > NODE_LIMIT {
        return Err(MachineFault::NodeCount);
    }
    unite(items)
}

fn unite(items: &[Value]) -> Result<IdSet, MachineFault>
    ensures fault { first_node_fault (map view items.now) ≡ result_err result }
    ensures union { IfOk result (λ all. all ≡ union_of (map cpus_named (map view items.now))) }
    ensures apart { OnOk result (AllPairs IsDisjoint (map cpus_named (map view items.now))) }
    ensures lists { OnOk result (AreLists Nodes (map view items.now)) }
{
    let mut all = IdSet::empty();
    for item in items {
        let cpus = read_node(item, &all)?;
        all = all.union(&cpus);
    }
    Ok(all)
}

/// The CPUs of one node, none of which an earlier one has.
#[tactic(auto, unfolding(crate::specs::NodesFault::node_fault))]
fn read_node(item: &Value, earlier: &IdSet) -> Result<IdSet, MachineFault>
    ensures fault { node_fault earlier.now (view item.now) ≡ result_err result }
    ensures cpus { IfOk result (λ cpus. cpus ≡ cpus_named (view item.now)) }
    ensures apart { IfOk result (λ cpus. IsDisjoint earlier.now cpus) }
{
    let cpus = list(item, Field::Nodes)?;
    check_apart(&cpus, earlier)?;
    Ok(cpus)
}

/// Checks that no earlier node has one of the CPUs.
fn check_apart(cpus: &IdSet, earlier: &IdSet) -> Result<(), MachineFault>
    ensures fault { twice_fault earlier.now cpus.now ≡ result_err result }
    ensures apart { OnOk result (IsDisjoint earlier.now cpus.now) }
{
    match cpus.meet(earlier).first() {
        Some(cpu) => Err(MachineFault::CpuTwice(cpu)),
        None => Ok(()),
    }
}

/// The CPUs of each node in their order.
pub(crate) fn sets_of(alloc: Global, items: &[Value]) -> Result<Vec<IdSet>, AllocError>
    requires { AreLists Nodes (map view items.now) }
    ensures { IfOk result (λ sets. sets.items ≡ map cpus_named (map view items.now)) }
{
    let mut sets = Vec::with_capacity(alloc, items.len())?;
    for item in items {
        sets.push(cpus_of(item, Field::Nodes))?;
    }
    Ok(sets)
}
