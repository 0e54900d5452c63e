//! The cores, as the member `cores` lists their CPUs.
ghost use Rattle.std.specs.Prelude.{◌≡◌, ◌≤◌, ℕ, ◌<◌, ◌&&◌, ◌||◌, ◌==◌, true, IsTrue, IfOk, IfSome, OnOk};
ghost use Rattle.std.specs.Prelude.{is_some, length, map, slice_index_or, ◌↔◌, List, [], ◌∷◌, Some};
ghost use Rattle.std.specs.List.{list_all};
ghost use Rattle.std.specs.Result.{result_err};
ghost use Rattle.std.specs.FinSet as set;
ghost use Rattle.serde_json.specs.View.{view};
ghost use Rattle.json_text.specs.Members.{seen};
ghost use Rattle.cpu_set.specs.Ids.{Ids};
ghost use Rattle.cpu_set.specs.declared.TheConstants.{CPU_LIMIT};
ghost use Rattle.machine.specs.declared.field.Field.TheVariants.{Cores as CoresField};
ghost use Rattle.cpu_set.specs.Least.{least_of};
ghost use Rattle.machine.specs.CoresFault.{cores_fault, lists_fault, first_core_fault, left_fault, lowest_of, size_of};
ghost use Rattle.machine.specs.CoresFault.{is_within, is_core};
ghost use Rattle.machine.specs.Index.{ArePlaces, AreSiblings, AreFirsts};
ghost use Rattle.machine.specs.AreNodes.{AreNodes};
ghost use Rattle.machine.specs.KindFaults.{AreLists};
ghost use Rattle.machine.specs.Listed.{is_list, cpus_named};
ghost use Rattle.machine.specs.Members.{items_in, items_of};
ghost use Rattle.machine.specs.Present.{union_of};
ghost use Rattle.faults.specs.First.{first_of};

use crate::fault::MachineFault;
use crate::field::Field;
use crate::index::{mark, places_of};
use crate::lookup::{array, cpus_of, list};
use cpu_set::{CPU_LIMIT, IdSet};
use serde_json::Value;

/// A number for each CPU number.
pub(crate) type Numbers = [u16; CPU_LIMIT as usize];

/// The cores of a machine: for each CPU number the lowest CPU of its core, and how many CPUs each core has.
#[derive(Clone, Copy)]
pub(crate) struct Cores {
    pub lowest: Numbers,
    pub threads: u32,
}

/// The cores that the member lists, of a machine with these nodes; where it is absent, each CPU is a core of its own.
pub(crate) fn read_cores(
    found: Option<&Value>,
    nodes: &[Value],
    present: &IdSet,
    reserved: &IdSet,
) -> Result<Cores, MachineFault>
    requires nodes { AreNodes (map view nodes.now) present.now }
    ensures fault { cores_fault (map cpus_named (map view nodes.now)) reserved.now (seen found.entry) ≡ result_err result }
    ensures lowest { IfOk result (λ c. c.lowest ≡ lowest_of (map cpus_named (items_in (seen found.entry)))) }
    ensures threads { IfOk result (λ c. c.threads ≡ size_of (map cpus_named (items_in (seen found.entry)))) }
{
    match found {
        Some(value) => read_listed(value, nodes, present, reserved),
        None => Ok(Cores {
            lowest: each_cpu(),
            threads: 1,
        }),
    }
}

/// The cores that a value lists.
#[tactic(auto, unfolding(crate::specs::CoresFault::cores_fault))]
fn read_listed(
    value: &Value,
    nodes: &[Value],
    present: &IdSet,
    reserved: &IdSet,
) -> Result<Cores, MachineFault>
    requires nodes { AreNodes (map view nodes.now) present.now }
    ensures fault { cores_fault (map cpus_named (map view nodes.now)) reserved.now (Some (view value.now))
        ≡ result_err result }
    ensures lowest { IfOk result (λ c. c.lowest ≡ lowest_of (map cpus_named (items_of (view value.now)))) }
    ensures threads { IfOk result (λ c. c.threads ≡ size_of (map cpus_named (items_of (view value.now)))) }
{
    let items = array(Some(value), Field::Cores)?;
    check_lists(items)?;
    read_each(items, nodes, present, reserved)
}

/// Checks that each item is a list of CPUs.
#[tactic(auto, using(crate::proofs::ItemLaws::item_tests))]
fn check_lists(items: &[Value]) -> Result<(), MachineFault>
    ensures fault { lists_fault (map view items.now) ≡ result_err result }
    ensures lists { OnOk result (AreLists CoresField (map view items.now)) }
{
    if !are_lists(items) {
        return Err(MachineFault::BadField(Field::Cores));
    }
    Ok(())
}

fn are_lists(items: &[Value]) -> bool
    ensures { result ≡ list_all (λ item. is_list (view item)) items.now }
{
    items.iter().all(|item| is_list(item))
}

/// Whether the value is a list of CPUs.
fn is_list(value: &Value) -> bool
    ensures { result ≡ is_list (view value.now) }
{
    list(value, Field::Cores).is_ok()
}

/// Each CPU number at its own place.
fn each_cpu() -> Numbers
    ensures room { length result ≡ CPU_LIMIT }
    ensures own { (c : ℕ) → c < CPU_LIMIT → slice_index_or result c 0 ≡ c }
{
    let mut numbers = [0; CPU_LIMIT as usize];
    for cpu in 0..CPU_LIMIT {
        numbers[cpu as usize] = cpu;
    }
    numbers
}

/// The cores with these CPUs, each of which has to fit what the cores before it leave.
fn read_each(
    items: &[Value],
    nodes: &[Value],
    present: &IdSet,
    reserved: &IdSet,
) -> Result<Cores, MachineFault>
    requires items { AreLists CoresField (map view items.now) }
    requires nodes { AreNodes (map view nodes.now) present.now }
    ensures fault { first_of (first_core_fault (map cpus_named (map view nodes.now)) reserved.now
        (map cpus_named (map view items.now)) ∷ left_fault (map cpus_named (map view nodes.now))
        (map cpus_named (map view items.now)) ∷ []) ≡ result_err result }
    ensures lowest { IfOk result (λ c. c.lowest ≡ lowest_of (map cpus_named (map view items.now))) }
    ensures threads { IfOk result (λ c. c.threads ≡ size_of (map cpus_named (map view items.now))) }
{
    let places = places_of(nodes);
    let threads = size_of(items);
    let mut lowest = each_cpu();
    let mut left = *present;
    for (i, item) in items.iter().enumerate() {
        let core = cpus_of(item, Field::Cores);
        let Some(least) = core_of(&core, &left, reserved, &places, threads) else {
            return Err(MachineFault::BadCore(i));
        };
        mark(&mut lowest, &core, least);
        left = left.minus(&core);
    }
    match left.first() {
        Some(cpu) => Err(MachineFault::NoCore(cpu)),
        None => Ok(Cores { lowest, threads }),
    }
}

/// How many CPUs core 0 has, and 1 where no core is listed.
fn size_of(items: &[Value]) -> u32
    requires { AreLists CoresField (map view items.now) }
    ensures { result ≡ size_of (map cpus_named (map view items.now)) }
{
    match items.first() {
        Some(first) => cpus_of(first, Field::Cores).count(),
        None => 1,
    }
}

/// The lowest of CPUs that may be a core, given the CPUs that are left, those that are reserved, and the node of each;
/// none of others.
fn core_of(
    core: &IdSet,
    left: &IdSet,
    reserved: &IdSet,
    places: &Numbers,
    threads: u32,
) -> Option<u16>
    requires room { length places.now ≡ CPU_LIMIT }
    ensures fits { (nodes : List Ids) → ArePlaces nodes places.now → set.is_subset left.now (union_of nodes) ≡ true
        → is_some result ≡ is_core nodes reserved.now threads left.now core.now }
    ensures least { IfSome result (λ n. n ≡ least_of core.now) }
{
    let Some(least) = core.first() else {
        return None;
    };
    if !is_within(core, left, reserved, threads) {
        return None;
    }
    if !are_of_node(core, places, places[least as usize]) {
        return None;
    }
    Some(least)
}

/// Whether there are so many CPUs, all of them left, and all of them reserved or none.
fn is_within(core: &IdSet, left: &IdSet, reserved: &IdSet, threads: u32) -> bool
    ensures { result ≡ is_within reserved.now threads left.now core.now }
{
    core.count() == threads
        && (core.is_subset(&left.minus(reserved)) || core.is_subset(&left.meet(reserved)))
}

/// Whether all of the CPUs are of this node, given the node of each.
fn are_of_node(cpus: &IdSet, places: &Numbers, node: u16) -> bool
    requires room { length places.now ≡ CPU_LIMIT }
    ensures { IsTrue result ↔ ((c : ℕ) → set.contains cpus.now c ≡ true → slice_index_or places.now c 0 ≡ node) }
{
    let mut next = cpus.first();
    while let Some(cpu) = next {
        if places[cpu as usize] != node {
            return false;
        }
        next = cpus.next_after(cpu);
    }
    true
}

/// For each CPU number the next one of its core, [`CPU_LIMIT`] where there is none, given the lowest of its core.
pub(crate) fn siblings_of(lowest: &Numbers) -> Numbers
    requires room { length lowest.now ≡ CPU_LIMIT }
    requires low { (c : ℕ) → slice_index_or lowest.now c c ≤ c }
    ensures { AreSiblings lowest.now result }
{
    let mut firsts = [CPU_LIMIT; CPU_LIMIT as usize];
    let mut next = [CPU_LIMIT; CPU_LIMIT as usize];
    let mut cpu = CPU_LIMIT;
    while cpu > 0 {
        cpu -= 1;
        let core = lowest[cpu as usize] as usize;
        next[cpu as usize] = firsts[core];
        firsts[core] = cpu;
    }
    next
}

/// The CPU numbers that are the lowest of their core, or of no core, given the lowest of the core of each.
pub(crate) fn firsts_of(lowest: &Numbers) -> IdSet
    requires { length lowest.now ≡ CPU_LIMIT }
    ensures { AreFirsts lowest.now result }
{
    let mut firsts = IdSet::empty();
    for cpu in 0..CPU_LIMIT {
        if lowest[cpu as usize] == cpu {
            firsts.insert(cpu);
        }
    }
    firsts
}
