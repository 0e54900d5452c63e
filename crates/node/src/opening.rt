//! From the cores of a plan to the hand-over to their CPUs.
ghost use Rattle.std.specs.Prelude.{◌≡◌, ◌++◌, ◌∷◌, List, ℕ, true, drop, map, slice_index_or, option_to_list, IfOk};
ghost use Rattle.std.specs.List.{AllByRecursion};
ghost use Rattle.std.specs.FinSet as set;
ghost use Rattle.std.specs.Slice.Iter.{iter_rest};
ghost use Rattle.cpu_set.specs.Ids.{Ids};
ghost use Rattle.cpu_set.specs.Members.{InRange};
ghost use Rattle.apply_plan.specs.Targets.{IsHandover, ArePlaced};
ghost use Rattle.apply_plan.specs.DueWrite.{held};
ghost use Rattle.node.specs.NodeState.{ContainerState};
ghost use Rattle.node.specs.Entries.{pool_of, entries_in, allowed_in};
ghost use Rattle.node.specs.Kept.{AreKept};
ghost use Rattle.node.specs.Rows.{as_cpus};
ghost use Rattle.node.specs.Viewed.{viewed, all_seen};

use crate::container::Container;
use crate::course::Course;
use crate::ongoing::Ongoing;
use crate::{Node, Order};
use apply_plan::{DirectHandover, Entry, Handover};
use cpu_set::IdSet;
use demand::Kind;
use direct_finish::Agenda;
use indexmap::IndexMap;
use kernel_model::{Kernel, requested};
use machine::Machine;
use std::alloc::{AllocError, Global};
use std::slice::Iter;

/// The online CPUs that none of the sets has.
pub fn pool_of(online: &IdSet, sets: &[IdSet]) -> IdSet
    ensures { result ≡ pool_of online.now sets.now }
{
    sets.iter().fold(*online, |pool, set| pool.minus(set))
}

/// The CPUs of the cores of each set.
fn as_cpus(alloc: Global, machine: &Machine, plan: &[IdSet]) -> Result<Vec<IdSet>, AllocError>
    ensures { IfOk result (λ sets. sets.items ≡ as_cpus machine.now plan.now) }
{
    let mut sets = Vec::with_capacity(alloc, plan.len())?;
    for cores in plan {
        sets.push(machine.cpus_of_cores(cores))?;
    }
    Ok(sets)
}

/// The CPUs that are kept of a plan: those of its cores, or none where a core has one CPU, since the plan has them.
pub fn kept_cpus(alloc: Global, machine: &Machine, plan: &[IdSet]) -> Result<Vec<IdSet>, AllocError>
    ensures { IfOk result (λ kept. AreKept machine.now plan.now kept.items) }
{
    if machine.threads() == 1 {
        return Ok(Vec::new(alloc));
    }
    as_cpus(alloc, machine, plan)
}

/// The CPUs of a plan of which these are kept.
pub fn shown_cpus<'a>(machine: &Machine, plan: &'a [IdSet], kept: &'a [IdSet]) -> &'a [IdSet]
    requires plan { AllByRecursion InRange plan.now }
    requires kept { AreKept machine.now plan.now kept.now }
    ensures { result.now ≡ as_cpus machine.now plan.now }
{
    if machine.threads() == 1 { plan } else { kept }
}

/// The next of the sets; the empty one where none is left.
fn next_of(sets: &mut Iter<'_, IdSet>) -> IdSet
    ensures set { result ≡ slice_index_or (iter_rest sets.old) 0 set.empty }
    ensures rest { iter_rest sets.new ≡ drop 1 (iter_rest sets.old) }
{
    match sets.next() {
        Some(set) => *set,
        None => IdSet::empty(),
    }
}

/// The entry of a container, if it lives: a pinned one is to have the next of the sets, a shared one the pool.
fn entry_of<K: Kernel>(
    kernel: &K,
    container: &Container,
    sets: &mut Iter<'_, IdSet>,
    pool: &IdSet,
) -> Option<Entry>
    ensures { (id : List ℕ) (later : List (List ℕ × ContainerState))
        → entries_in (K.state kernel.now) pool.now ((id, viewed container.now) ∷ later) (iter_rest sets.old)
        ≡ option_to_list result ++ entries_in (K.state kernel.now) pool.now later (iter_rest sets.new) }
{
    if !kernel.first_alive(container.pid) {
        return None;
    }
    let (pinned, target) = match container.demand.kind {
        Kind::Pinned(_) => (true, next_of(sets)),
        Kind::Shared => (false, *pool),
    };
    Some(Entry {
        group: container.group,
        pid: container.pid,
        pinned,
        target,
    })
}

/// The entries of the live containers, in their order.
fn entries_in<K: Kernel>(
    alloc: Global,
    kernel: &K,
    containers: &IndexMap<String, Container>,
    sets: &[IdSet],
    pool: &IdSet,
) -> Result<Vec<Entry>, AllocError>
    ensures { IfOk result (λ entries. entries.items
        ≡ entries_in (K.state kernel.now) pool.now (all_seen containers.now.entries) sets.now) }
{
    let mut entries = Vec::with_capacity(alloc, containers.len())?;
    let mut sets = sets.iter();
    for (_, container) in containers.iter() {
        if let Some(entry) = entry_of(kernel, container, &mut sets, pool) {
            entries.push(entry)?;
        }
    }
    Ok(entries)
}

/// What each of the live containers is allowed, in their order.
fn allowed_in<K: Kernel>(
    alloc: Global,
    kernel: &K,
    containers: &IndexMap<String, Container>,
) -> Result<Vec<IdSet>, AllocError>
    ensures { IfOk result (λ sets. sets.items ≡ allowed_in (K.state kernel.now) (all_seen containers.now.entries)) }
{
    let mut sets = Vec::with_capacity(alloc, containers.len())?;
    for (_, container) in containers.iter() {
        if kernel.first_alive(container.pid) {
            sets.push(container.demand.allowed)?;
        }
    }
    Ok(sets)
}

/// What the groups of the entries request.
fn requests_of<K: Kernel>(
    alloc: Global,
    kernel: &K,
    entries: &[Entry],
) -> Result<Vec<IdSet>, AllocError>
    requires { ArePlaced (K.state kernel.now) entries.now }
    ensures { IfOk result (λ requests. requests.items ≡ map (held (K.state kernel.now)) entries.now) }
{
    let mut requests = Vec::with_capacity(alloc, entries.len())?;
    for entry in entries {
        requests.push(*requested(kernel, entry.group))?;
    }
    Ok(requests)
}

impl<K: Kernel + Drop> Node<K> {
    ghost use Rattle.certificate.specs.IsPlan.{IsPlan};
    ghost use Rattle.node.specs.Best.{CouldHave};
    ghost use Rattle.node.specs.Owners.{owners_of};
    ghost use Rattle.node.specs.Rows.{rows_of};
    ghost use Rattle.node.specs.Entries.{plan_pool, allowed_by, opened};
    ghost use Rattle.node.specs.Ongoing.{IsOngoing};
    ghost use Rattle.node.specs.Viewed.{seen_by, seen_ongoing};

    /// The pool that a plan of cores leaves, of whose CPUs these are kept, and the hand-over to them in this order.
    pub(crate) fn opening(
        &self,
        order: Order,
        plan: &[IdSet],
        kept: &[IdSet],
    ) -> Result<(IdSet, Ongoing), AllocError>
        requires plan { IsPlan (rows_of self.now) plan.now }
        requires kept { AreKept self.now.machine plan.now kept.now }
        ensures pool { IfOk result (λ p. p.0 ≡ plan_pool self.now (as_cpus self.now.machine plan.now)) }
        ensures ongoing { IfOk result (λ p. seen_ongoing p.1 ≡ opened order self.now (as_cpus self.now.machine plan.now)) }
        ensures stands { IfOk result (λ p. IsOngoing self.now.kernel (owners_of self.now.containers)
            (seen_ongoing p.1)) }
    {
        self.opening_to(order, shown_cpus(&self.machine, plan, kept))
    }

    /// The hand-over of these entries in this order.
    fn course(&self, order: Order, entries: Vec<Entry>) -> Result<Course, AllocError>
        requires { IsHandover (record { entries = entries.items; reserved = self.now.machine.reserved }) }
        ensures { IfOk result (λ course. (found : List Ids) → seen_by course found ≡ record {
          targets = record { entries = entries.items; reserved = self.now.machine.reserved };
          requested_at_begin = found;
          order = order;
          allowed = allowed_by order self.now;
        }) }
    {
        let reserved = self.machine.reserved();
        match order {
            Order::InTurn => Ok(Course::InTurn(Handover::new(entries, reserved))),
            Order::Directly => {
                let allowed = allowed_in(self.alloc, &self.kernel, &self.containers)?;
                let count = entries.len();
                let handover = DirectHandover::new(self.alloc, entries, allowed, reserved)?;
                let agenda = Agenda::new(self.alloc, count)?;
                Ok(Course::Directly(handover, agenda))
            }
        }
    }

    /// The pool that these sets of CPUs leave, and the hand-over to them in this order.
    fn opening_to(&self, order: Order, sets: &[IdSet]) -> Result<(IdSet, Ongoing), AllocError>
        requires { CouldHave self.now sets.now }
        ensures pool { IfOk result (λ p. p.0 ≡ plan_pool self.now sets.now) }
        ensures ongoing { IfOk result (λ p. seen_ongoing p.1 ≡ opened order self.now sets.now) }
        ensures stands { IfOk result (λ p. IsOngoing self.now.kernel (owners_of self.now.containers)
            (seen_ongoing p.1)) }
    {
        let pool = pool_of(&self.kernel.online(), sets);
        let entries = entries_in(self.alloc, &self.kernel, &self.containers, sets, &pool)?;
        let requested_at_begin = requests_of(self.alloc, &self.kernel, &entries)?;
        let course = self.course(order, entries)?;
        Ok((
            pool,
            Ongoing {
                course,
                requested_at_begin,
            },
        ))
    }
}
