//! Nodes whose kernel's writes are made in a cgroup tree.
ghost use Rattle.cgroup_tree.specs.Site.{opening};
ghost use Rattle.runtime.specs.MirroredNodes.{IsMirroredNode};

use crate::bundles::Bundles;
use crate::runner::Runner;
use cgroup_tree::{GroupFiles, MirroredKernel, Sited};
use node::Node;

/// What holds of each node over a mirrored kernel, after any of its calls, whatever they returned. All that was asked
/// of the files is what its kernel's calls stand for, in their order. If files do what they answer, they have what is
/// requested, which is safe. Nothing runs.
pub fn is_mirrored<F: GroupFiles + Drop, S: Sited>(node: &Node<MirroredKernel<F, S>>)
    ensures { IsMirroredNode F.asked S.site node.now }
{
    node.holds();
    let kernel = node.kernel();
    kernel.is_mirrored();
    kernel.files_stand();
}

/// The files that a runtime's kernel writes, once its scripts have ended.
pub fn files_of<F: GroupFiles + Drop, S: Sited, B: Bundles + Drop>(
    runner: Runner<MirroredKernel<F, S>, B>,
) -> F
    // All that they were asked for is what the calls of the node's kernel stand for, in their order and place.
    ensures { (its : IsMirroredNode F.asked S.site runner.node)
        × F.asked result (opening S.site) its.mirrored.calls }
{
    let node = runner.into_node();
    node.holds();
    let kernel = node.into_kernel();
    kernel.is_mirrored();
    kernel.files_stand();
    kernel.into_files()
}
