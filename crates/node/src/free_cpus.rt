//! Which CPUs a new container may request.
ghost use Rattle.std.specs.Prelude.{◌≡◌, ℕ, List, true, false, IsTrue, IsFalse, MatchOption};
ghost use Rattle.std.specs.List.{AllByRecursion, list_any};
ghost use Rattle.std.specs.FinSet as set;
ghost use Rattle.cpuset_tree.specs.Groups.{has_group};
ghost use Rattle.node.specs.MayRequest.{keeps, AreFreeCpus, IsLeastTaken};
ghost use Rattle.node.specs.Owners.{is_pinned};
ghost use Rattle.node.specs.Rows.{requested_by};
ghost use Rattle.node.specs.Viewed.{viewed, all_seen};

use crate::Node;
use crate::container::Container;
use cpu_set::{IdSet, Spanned};
use demand::Kind;
use indexmap::IndexMap;
use kernel_model::{Kernel, requested};

/// Whether a container has CPUs of its own.
pub fn is_pinned(kind: Kind) -> bool
    ensures { result ≡ is_pinned kind }
{
    match kind {
        Kind::Pinned(_) => true,
        Kind::Shared => false,
    }
}

/// Whether a container keeps one of some CPUs from a new one, which is pinned or not. If so, it keeps all that it
/// requests.
fn keeps_some<K: Kernel>(kernel: &K, container: &Container, asked: &Spanned, pinned: bool) -> bool
    requires { has_group (K.state kernel.now).tree container.now.group ≡ true }
    ensures all { IsTrue result → (id : List ℕ) (cpu : ℕ) → set.contains (requested_by (K.state kernel.now) (id, viewed container.now)) cpu
        ≡ keeps (K.state kernel.now) pinned cpu (id, viewed container.now) }
    ensures none { IsFalse result → (id : List ℕ) (cpu : ℕ) → set.contains asked.now cpu ≡ true
        → keeps (K.state kernel.now) pinned cpu (id, viewed container.now) ≡ false }
{
    if !kernel.first_alive(container.pid) {
        return false;
    }
    if !is_pinned(container.demand.kind) && !pinned {
        return false;
    }
    asked
        .first_common(requested(kernel, container.group))
        .is_some()
}

/// The CPUs that the containers keep from a new one that asks for some. Those that keep none of these are passed over.
fn kept_in<K: Kernel>(
    kernel: &K,
    containers: &IndexMap<String, Container>,
    asked: &Spanned,
    pinned: bool,
) -> IdSet
    requires { AllByRecursion (λ e. has_group (K.state kernel.now).tree e.1.group
        ≡ true) (all_seen containers.now.entries) }
    ensures { (cpu : ℕ) → set.contains asked.now cpu ≡ true → set.contains result cpu
        ≡ list_any (keeps (K.state kernel.now) pinned cpu) (all_seen containers.now.entries) }
{
    let mut kept = IdSet::empty();
    for (_, container) in containers.iter() {
        if keeps_some(kernel, container, asked, pinned) {
            kept = kept.union(requested(kernel, container.group));
        }
    }
    kept
}

impl<K: Kernel + Drop> Node<K> {
    /// The least of these CPUs that a new container may not request.
    pub(crate) fn first_taken(&self, cpus: &IdSet, pinned: bool) -> Option<u16>
        ensures { MatchOption result (AreFreeCpus self.now pinned cpus.now)
            (λ cpu. IsLeastTaken self.now pinned cpus.now cpu) }
    {
        let others = cpus.minus(&self.machine.reserved());
        if others.is_empty() {
            return None;
        }
        let asked = Spanned::of(&others);
        let kept = kept_in(&self.kernel, &self.containers, &asked, pinned);
        let free = self.machine.present().minus(&kept);
        others.minus(&free).first()
    }
}
