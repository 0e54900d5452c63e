//! The node of each CPU, written down once.
ghost use Rattle.std.specs.Prelude.{◌≡◌, ℕ, ◌≤◌, cond, length, map, slice_index_or, AllPairs};
ghost use Rattle.std.specs.FinSet as set;
ghost use Rattle.serde_json.specs.View.{view};
ghost use Rattle.cpu_set.specs.Ids.{IsDisjoint};
ghost use Rattle.cpu_set.specs.declared.TheConstants.{CPU_LIMIT};
ghost use Rattle.machine.specs.declared.field.Field.TheVariants.{Nodes};
ghost use Rattle.machine.specs.Index.{ArePlaces};
ghost use Rattle.machine.specs.KindFaults.{AreLists};
ghost use Rattle.machine.specs.Listed.{cpus_named};
ghost use Rattle.machine.specs.declared.TheConstants.{NODE_LIMIT};

use crate::field::Field;
use crate::lookup::cpus_of;
use cpu_set::{CPU_LIMIT, IdSet};
use serde_json::Value;

/// For each CPU its node, and 0 for a CPU of no node.
pub(crate) fn places_of(items: &[Value]) -> [u16; CPU_LIMIT as usize]
    requires lists { AreLists Nodes (map view items.now) }
    requires few { length items.now ≤ NODE_LIMIT }
    requires apart { AllPairs IsDisjoint (map cpus_named (map view items.now)) }
    ensures { ArePlaces (map cpus_named (map view items.now)) result }
{
    let mut places = [0; CPU_LIMIT as usize];
    for i in 0..items.len() {
        let cpus = cpus_of(&items[i], Field::Nodes);
        mark(&mut places, &cpus, i as u16);
    }
    places
}

/// Writes a number at each of the CPUs.
pub(crate) fn mark(places: &mut [u16; CPU_LIMIT as usize], cpus: &IdSet, number: u16)
    requires room { length places.old ≡ CPU_LIMIT }
    ensures room { length places.new ≡ CPU_LIMIT }
    ensures each { (c : ℕ) → slice_index_or places.new c 0
        ≡ cond (set.contains cpus.now c) number (slice_index_or places.old c 0) }
{
    let mut next = cpus.first();
    while let Some(cpu) = next {
        places[cpu as usize] = number;
        next = cpus.next_after(cpu);
    }
}
