//! A node and its kernel, as a machine boots.
ghost use Rattle.std.specs.Prelude.{◌≡◌, [], IfErr, IfOk, string_bytes};
ghost use Rattle.cgroup_tree.specs.Site.{opening};
ghost use Rattle.runtime.specs.Boots.{Boots, IsKernelOf};
ghost use Rattle.runtime.specs.MirroredNodes.{BootsNot, IsMirroredNode, site_of};

use crate::mirrored::is_mirrored;
use cgroup_tree::{GroupFiles, MirroredKernel, OpenTree, Room, Sited};
use faults::OrMemory;
use kernel_model::{KernelFault, ModelKernel};
use machine::Machine;
use node::Node;
use std::alloc::{AllocError, Global};

/// The pid that the first process of a modelled kernel gets.
pub const FIRST_PID: u32 = 2;

/// A modelled kernel that has the machine's CPUs and nodes.
pub fn kernel_of(alloc: Global, machine: &Machine) -> Result<ModelKernel, AllocError>
    ensures { IfOk result (IsKernelOf machine.now) }
{
    ModelKernel::new(
        alloc,
        machine.present(),
        machine.reserved(),
        machine.boot_online(),
        machine.nodes(),
        FIRST_PID,
    )
}

/// A node with no container, over a modelled kernel that has the machine's CPUs and nodes.
///
/// # Errors
/// An allocation failure: of a kernel that is new, and of which no write fails, nothing else refuses the
/// node's group.
pub fn boot(alloc: Global, machine: Machine) -> Result<Node<ModelKernel>, AllocError>
    // It is made over a new `ModelKernel` of the machine (`Boots`). The only error is an allocation failure.
    ensures { IfOk result (Boots machine) }
{
    let kernel = kernel_of(alloc, &machine)?;
    match Node::new(alloc, kernel, machine) {
        Ok(node) => Ok(node),
        Err(not_opened) => {
            node::laws::first_kernels();
            not_opened.kernel.never_fails();
            match not_opened.error {
                OrMemory::Memory => Err(AllocError),
                OrMemory::Fault(_) => unreachable!(),
            }
        }
    }
}

/// Why there is no node in a tree, with the files of that tree.
#[derive(Drop)]
pub struct NotBooted<F> {
    /// An allocation failure, or `Failed` where the folder of the node's group can't be made.
    pub error: OrMemory<KernelFault>,
    /// The files, in which there may be the node's folder.
    pub files: F,
}

/// A node with no container, over a modelled kernel that has the machine's CPUs and nodes. Its writes are made in this
/// tree too, of which nothing was asked yet.
///
/// # Errors
/// An allocation failure, or `Failed` where the folder of the node's group can't be made. The files are handed back.
pub fn boot_mirrored<F: GroupFiles + Drop, S: Sited>(
    alloc: Global,
    machine: Machine,
    tree: OpenTree<F>,
) -> Result<Node<MirroredKernel<F, S>>, NotBooted<F>>
    requires site { S.site ≡ site_of machine (string_bytes tree.root) tree.memory tree.options }
    requires unasked { F.asked tree.files (opening S.site) [] }
    // The same as `boot`, over a `MirroredKernel`.
    ensures boots { IfOk result (Boots machine) }
    // Its place is the one that it is told (`IsMirroredNode`, `site_of`). That is the root, the nodes that have memory,
    // how the tree was opened, and this machine's first kernel.
    ensures mirrored { IfOk result (λ node. IsMirroredNode F.asked S.site node) }
    // Else an allocation failed before anything was asked of the files. Or the kernel refused the node's group, with
    // this error, and all that was asked of the files is what that one call stands for (`IsNotBooted`). So a body that
    // always answers an allocation failure meets the contract too; tests show that it makes a node (`tests/cgroup.sh`).
    ensures err { IfErr result (λ r. BootsNot F.asked S.site machine r.error (F.asked r.files (opening S.site))) }
{
    let Ok(inner) = kernel_of(alloc, &machine) else {
        return Err(NotBooted {
            error: OrMemory::Memory,
            files: tree.files,
        });
    };
    let Ok(room) = Room::below(alloc, tree.root.as_str()) else {
        return Err(NotBooted {
            error: OrMemory::Memory,
            files: tree.files,
        });
    };
    let kernel = MirroredKernel::new(
        inner,
        tree.root,
        tree.memory,
        tree.options.partition,
        tree.files,
        room,
    );
    match Node::new(alloc, kernel, machine) {
        Ok(node) => {
            is_mirrored(&node);
            Ok(node)
        }
        Err(not_opened) => {
            not_opened.kernel.is_mirrored();
            Err(NotBooted {
                error: not_opened.error,
                files: not_opened.kernel.into_files(),
            })
        }
    }
}
