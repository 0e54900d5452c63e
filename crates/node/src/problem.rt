//! What the live containers ask for.
ghost use Rattle.std.specs.Prelude.{◌≡◌, ◌≤◌, true, All, IsTrue, IfOk, IfSome, length};
ghost use Rattle.std.specs.List.{AllByRecursion};
ghost use Rattle.demand.specs.FitsMachine.{FitsMachine};
ghost use Rattle.certificate.specs.Limits.{row_fits, rows_fit};
ghost use Rattle.certificate_text.specs.CertificateText.{HaveOwnIds};
ghost use Rattle.certificate_text.specs.Written.{CanWriteRow};
ghost use Rattle.apply_plan.specs.Holders.{Pairwise};
ghost use Rattle.cpuset_tree.specs.Groups.{has_group};
ghost use Rattle.node.specs.IsNode.{HaveOtherIds, IsAsked};
ghost use Rattle.node.specs.Owners.{owners_of};
ghost use Rattle.node.specs.Rows.{scaled_row_of_container, scaled_rows_in, scaled_rows_of};
ghost use Rattle.node.specs.Viewed.{viewed, all_seen};
ghost use Rattle.rows.specs.CachedOffers.{IsCached};

use crate::container::Container;
use crate::{CONTAINER_LIMIT, Node};
use certificate::{Problem, Row};
use cpu_set::IdSet;
use indexmap::IndexMap;
use kernel_model::{Kernel, requested};
use machine::Machine;
use rows::{CachedOffers, scaled_row_of};
use std::alloc::{AllocError, Global};

/// The row of a container over these CPUs, which are online, if it is live and asks for CPUs of its own; those that its
/// group does not request are a move besides their distance.
fn row_in<K: Kernel>(
    alloc: Global,
    kernel: &K,
    machine: &Machine,
    online: &IdSet,
    id: &str,
    container: &Container,
    cache: &mut Vec<CachedOffers>,
) -> Result<Option<Row>, AllocError>
    requires online { online.now ≡ (K.state kernel.now).tree.online }
    requires placed { has_group (K.state kernel.now).tree container.now.group ≡ true }
    requires fits { FitsMachine machine.now container.now.demand }
    requires cache { All (IsCached machine.now) cache.old.items }
    ensures row { IfOk result (λ row. row ≡ scaled_row_of_container (K.state kernel.now) machine.now
        (id.now, viewed container.now)) }
    ensures fits { IfOk result (λ row. IfSome row (λ r. IsTrue (row_fits r))) }
    ensures cache { All (IsCached machine.now) cache.new.items }
{
    if !kernel.first_alive(container.pid) {
        return Ok(None);
    }
    let held = requested(kernel, container.group);
    scaled_row_of(alloc, machine, online, id, &container.demand, held, cache)
}

/// The live containers that ask for CPUs of their own, as a problem: a row for each over the CPUs that are online, in
/// the order in which they were created, with weights that count moves besides the distance.
pub fn rows_in<K: Kernel>(
    alloc: Global,
    kernel: &K,
    machine: &Machine,
    containers: &IndexMap<String, Container>,
) -> Result<Problem, AllocError>
    requires placed { AllByRecursion (λ e. has_group (K.state kernel.now).tree e.1.group
        ≡ true) (all_seen containers.now.entries) }
    requires asked { AllByRecursion (IsAsked machine.now) (all_seen containers.now.entries) }
    requires few { length (all_seen containers.now.entries) ≤ CONTAINER_LIMIT }
    requires distinct { Pairwise HaveOtherIds (owners_of (all_seen containers.now.entries)) }
    ensures rows { IfOk result (λ p. p ≡ scaled_rows_in (K.state kernel.now) machine.now
        (all_seen containers.now.entries)) }
    ensures fit { IfOk result (λ p. IsTrue (rows_fit p)) }
    ensures can { IfOk result (All CanWriteRow) }
    ensures apart { IfOk result HaveOwnIds }
{
    let online = kernel.online();
    let mut rows = Vec::with_capacity(alloc, containers.len())?;
    let mut cache = Vec::new(alloc);
    for (id, container) in containers.iter() {
        if let Some(row) = row_in(alloc, kernel, machine, &online, id, container, &mut cache)? {
            rows.push(row)?;
        }
    }
    Ok(Problem { rows })
}

impl<K: Kernel + Drop> Node<K> {
    /// The problem of its containers: a row for each live one that asks for CPUs of its own, in the order in which they
    /// were created.
    pub(crate) fn problem(&self) -> Result<Problem, AllocError>
        ensures rows { IfOk result (λ p. p ≡ scaled_rows_of self.now) }
        ensures fit { IfOk result (λ p. IsTrue (rows_fit p)) }
        ensures can { IfOk result (All CanWriteRow) }
        ensures apart { IfOk result HaveOwnIds }
    {
        rows_in(self.alloc, &self.kernel, &self.machine, &self.containers)
    }
}
