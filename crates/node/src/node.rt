ghost use Rattle.std.specs.Prelude.{◌≡◌, ◌+◌, IfOk, IfErr, MatchResult};
ghost use Rattle.faults.specs.declared.OrMemory.TheVariants.{Fault};
ghost use Rattle.node.specs.IsNode.{IsOfMachine};
ghost use Rattle.node.specs.Unused.{IsUnused};

use crate::container::Container;
use crate::launch::find_or_make;
use crate::ongoing::Ongoing;
use crate::phase::Phase;
use certificate::Certificate;
use cpu_set::IdSet;
use faults::OrMemory;
use indexmap::IndexMap;
use kernel_model::{Group, Kernel, KernelFault};
use machine::Machine;
use std::alloc::Global;
use std::marker::Model;

/// The name of the group below which each container has its own.
pub const GROUP_NAME: &str = "numarun";

/// The containers of one machine, over a kernel that nobody else writes.
///
/// A container is found by its id in O(1) expected steps. Of c containers and p live processes `create`, `kill` and
/// `delete` take O(c + p) steps and `step` O(c log p), as the modelled kernel's calls do; `rebalance` and `begin` take
/// those of the rows, of [`solution::decide`] and of the hand-over.
#[derive(Drop)]
pub struct Node<K: Kernel + Drop> {
    pub(crate) alloc: Global,
    pub(crate) kernel: K,
    pub(crate) machine: Machine,
    pub(crate) parent: Group,
    pub(crate) containers: IndexMap<String, Container>,
    pub(crate) pool: IdSet,
    pub(crate) phase: Phase,
    pub(crate) ongoing: Option<Ongoing>,
    pub(crate) last: Option<Certificate>,
    pub(crate) kept: Vec<IdSet>,
}

impl<K: Kernel + Drop> Model for Node<K> {
    ghost use Rattle.node.specs.NodeState.{NodeState, node_code};

    ghost Value = { NodeState };

    ghost coded = { node_code };

    ghost use Rattle.std.specs.Prelude.{option_map};
    ghost use Rattle.node.specs.Kept.{Keeps};
    ghost use Rattle.node.specs.Viewed.{all_seen, seen_ongoing};

    ghost view = { λ n. record {
      kernel = K.state n.kernel;
      machine = n.machine;
      parent = n.parent;
      containers = all_seen n.containers.entries;
      pool = n.pool;
      phase = n.phase;
      ongoing = option_map seen_ongoing n.ongoing;
      last = n.last;
    } };

    ghost invariant = { λ n. Keeps (record {
      kernel = K.state n.kernel;
      machine = n.machine;
      parent = n.parent;
      containers = all_seen n.containers.entries;
      pool = n.pool;
      phase = n.phase;
      ongoing = option_map seen_ongoing n.ongoing;
      last = n.last;
    }) n.kept.items };
}

/// Why there is no node, with what it was to be made of.
#[derive(Drop)]
pub struct NotOpened<K: Kernel + Drop> {
    /// The kernel, in which there may be the node's group, empty.
    pub kernel: K,
    /// The machine.
    pub machine: Machine,
    /// What the kernel answered: that memory or serials ran out, or that the write failed.
    pub error: OrMemory<KernelFault>,
}

impl<K: Kernel + Drop> Node<K> {
    ghost use Rattle.node.specs.IsNode.{IsNode};
    ghost use Rattle.node.specs.Calls.{Opens, OpensNot};
    ghost use Rattle.node.specs.OpenCause.{OpenCause, error_rise};
    ghost use Rattle.node.specs.Written.{OpenWrites};

    /// A node with no container, over a kernel in which the node's group is found or made.
    ///
    /// # Errors
    /// `Memory`, or `NoSerials` or `Failed` of the kernel, which is handed back with the machine, and may be used
    /// again.
    pub fn new(alloc: Global, kernel: K, machine: Machine) -> Result<Node<K>, NotOpened<K>>
        requires machine { IsOfMachine (K.state kernel) machine }
        requires unused { IsUnused (K.state kernel) }
        ensures opened { IfOk result (λ n. Opens (K.state kernel) machine n) }
        // If the kernel refuses its group, it hands kernel and machine back.
        ensures refused { IfErr result (λ r. OpensNot (K.state kernel) r.error (K.state r.kernel)) }
        ensures back { IfErr result (λ r. r.machine ≡ machine) }
        ensures counted { MatchResult result (λ n. n.kernel.failures ≡ (K.state kernel).failures)
            (λ r. (K.state r.kernel).failures ≡ (K.state kernel).failures + error_rise r.error) }
        // It makes one writing call if there is no such group, and else none.
        ensures made { MatchResult result (λ n. OpenWrites (K.state kernel) n.kernel)
            (λ r. OpenWrites (K.state kernel) (K.state r.kernel)) }
        // A kernel that is handed back may be used again.
        ensures again { IfErr result (λ r. IsOfMachine (K.state r.kernel) machine × IsUnused (K.state r.kernel)) }
        // The kernel refuses in two cases only: a write fails, or there is no such group and no serial is left for it.
        ensures late { IfErr result (λ r. (fault : KernelFault) → r.error ≡ Fault fault
            → OpenCause (K.state kernel) fault (K.state r.kernel)) }
    {
        let _ = machine.threads();
        let mut kernel = kernel;
        let root = kernel.root();
        match find_or_make(&mut kernel, root, GROUP_NAME) {
            Ok(parent) => Ok(Node {
                alloc,
                kernel,
                pool: machine.reserved(),
                machine,
                parent,
                containers: IndexMap::new(alloc),
                phase: Phase::Settled,
                ongoing: None,
                last: None,
                kept: Vec::new(alloc),
            }),
            Err(error) => Err(NotOpened {
                kernel,
                machine,
                error,
            }),
        }
    }

    /// What holds of each node, after each of its calls; nothing runs.
    ///
    /// The groups below the node's are its containers', no other process is alive than theirs, and the sets that they
    /// request are safe: outside the reserved CPUs no CPU is requested for a live pinned container and for another live
    /// one, and no live one requests none.
    pub fn holds(&self)
        // The node's group is `numarun` below the root, and requests nothing. Each container's group is a child of it,
        // of the container's id, and no group is below that. Every live process belongs to a container. There are at
        // most 1,024 containers. What is requested is safe, as under `apply_plan`. A hand-over that is open is of all
        // live containers.
        ensures { IsNode self.now }
    {
        let _ = &self.parent;
    }

    /// The kernel, to look at.
    pub fn kernel(&self) -> &K
        ensures { K.state result.now ≡ self.now.kernel }
    {
        &self.kernel
    }

    /// The kernel, handed back once the node is done with.
    pub fn into_kernel(self) -> K
        ensures { K.state result ≡ self.kernel }
    {
        self.kernel
    }

    /// The CPUs that no plan gave to a container; before any plan the reserved ones.
    pub fn pool(&self) -> IdSet
        ensures { result ≡ self.now.pool }
    {
        self.pool
    }

    /// How far the last hand-over has come.
    pub fn phase(&self) -> Phase
        ensures { result ≡ self.now.phase }
    {
        self.phase
    }
}
